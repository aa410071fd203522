#![tactic(auto)]

//! Names the label of a script that is nearest to an address, at or below it. It reads the script on standard input, takes the
//! address and, if it is not 0, the base of the script, hexadecimal numbers of 32 bits with or without `$` or `0x`, and prints
//! on standard output
//!   the label's name, a space, and in decimal how far past the label the address is;
//!   `refused N P`, the refusal and its place, if the script is refused, or by 12 if no label is at or below the address.
//! A script over the limit of 32,768 bytes is read to its end for its length, the place of refusal 1.
//! If the script cannot be read to its end it prints nothing. It says that on standard error, and there too if standard output
//! does not take all that it prints, or if it has no such arguments or more than two: it reads nothing then.
use console::{ARGUMENT, CHUNK, argument, argument_count};
use neartext::{Asked, asked_by, near_text};
use station::failure::{SAID, failure_text};
use station::input::read_whole;
use station::{SCRIPT, TEXT};

fn main(rt: HostRuntime) {
    let mut address_text = [0u8; ARGUMENT];
    let mut base_text = [0u8; ARGUMENT];
    let address_size = argument(&rt, 1, &mut address_text);
    let base_size = argument(&rt, 2, &mut base_text);
    let given = asked_by(
        argument_count(&rt),
        &address_text[..address_size],
        &base_text[..base_size],
    );
    let Some(Asked { address, base }) = given else {
        let _ = rt.stderr().write_all(
            b"usage: nearlabel ADDRESS [BASE] < SCRIPT, hexadecimal, 0 to FFFFFFFF\n",
        );
        return;
    };
    let mut script = [0u8; SCRIPT];
    let input = read_whole::<_, CHUNK>(&mut rt.stdin(), &mut script);
    let mut out = [0u8; TEXT];
    let size = near_text(&script, input, base, address, &mut out);
    let written = rt.stdout().write_all(&out[..size]).is_ok();
    let mut said = [0u8; SAID];
    let length = failure_text(b"nearlabel", input, written, &mut said);
    let _ = rt.stderr().write_all(&said[..length]);
}
