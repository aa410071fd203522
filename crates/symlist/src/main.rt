#![tactic(auto)]

//! Prints the labels of a script assembled at base 0. It reads the script on standard input, takes no argument, and prints on
//! standard output
//!   a line for each label, in the order of the lines on which their addresses were last set: name, address in 8 hexadecimal
//!   digits, line; nothing if there is no label;
//!   `refused N P`, the refusal and its place, if the script is refused.
//! A script over the limit of 32,768 bytes is read to its end for its length, the place of refusal 1.
//! If the script cannot be read to its end it prints nothing. It says that on standard error, and there too if standard output
//! does not take all that it prints, or if it is given an argument.
use console::{CHUNK, argument_count};
use station::arguments::are_none;
use station::failure::{SAID, failure_text};
use station::input::read_whole;
use station::{SCRIPT, TEXT};
use symtext::symbols_text;

// As `manlist`, but for two texts and a call: a function of these three would be as long as the one `main`.
fn main(rt: HostRuntime) {
    if !are_none(argument_count(&rt)) {
        let _ = rt.stderr().write_all(b"usage: symlist < SCRIPT\n");
        return;
    }
    let mut script = [0u8; SCRIPT];
    let input = read_whole::<_, CHUNK>(&mut rt.stdin(), &mut script);
    let mut out = [0u8; TEXT];
    let size = symbols_text(&script, input, &mut out);
    let written = rt.stdout().write_all(&out[..size]).is_ok();
    let mut said = [0u8; SAID];
    let length = failure_text(b"symlist", input, written, &mut said);
    let _ = rt.stderr().write_all(&said[..length]);
}
