#![tactic(auto)]

//! Assembles a script at base 0 by the manual's own words, for a real 68000, and prints its list. It reads the script on
//! standard input, takes no argument, and prints on standard output
//!   a line for each word, if the script is accepted: address in 8 hexadecimal digits, word in 4, mark; nothing for an empty list;
//!   `refused N P`, the refusal and its place, if not: 14 and 15 name a line that has no encoding, or whose displacement is too far.
//! A script over the limit of 32,768 bytes is read to its end for its length, the place of refusal 1.
//! If the script cannot be read to its end it prints nothing. It says that on standard error, and there too if standard output
//! does not take all that it prints, or if it is given an argument.
use console::{CHUNK, argument_count};
use mantext::manual_text;
use station::arguments::are_none;
use station::failure::{SAID, failure_text};
use station::input::read_whole;
use station::{SCRIPT, TEXT};

// As `symlist`, but for two texts and a call: a function of these three would be as long as the one `main`.
fn main(rt: HostRuntime) {
    if !are_none(argument_count(&rt)) {
        let _ = rt.stderr().write_all(b"usage: manlist < SCRIPT\n");
        return;
    }
    let mut script = [0u8; SCRIPT];
    let input = read_whole::<_, CHUNK>(&mut rt.stdin(), &mut script);
    let mut out = [0u8; TEXT];
    let size = manual_text(&script, input, &mut out);
    let written = rt.stdout().write_all(&out[..size]).is_ok();
    let mut said = [0u8; SAID];
    let length = failure_text(b"manlist", input, written, &mut said);
    let _ = rt.stderr().write_all(&said[..length]);
}
