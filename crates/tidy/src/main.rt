#![tactic(auto)]

//! Prints the tidy copy of a script. It reads the script on standard input, takes no argument, and prints on standard output each line
//! that is read, the END line too, without skipped lines: outer blanks go, blank runs become one space, and so do those around a label's
//! colon; no byte 10 stands at the end. The copy gives the script's list at every base, and is never longer.
//! A script that is refused, by 1 to 3, prints nothing: `refused N P` is said on standard error, so that no file is overwritten with it.
//! A script over the limit of 32,768 bytes is read to its end for its length, the place of refusal 1.
//! If the script cannot be read to its end it prints nothing. It says that on standard error, and there too if standard output
//! does not take all that it prints, or if it is given an argument.
use console::{CHUNK, argument_count};
use station::SCRIPT;
use station::arguments::are_none;
use station::failure::{SAID, failure_text};
use station::input::read_whole;
use tidytext::{copy_text, refusal_text};

fn main(rt: HostRuntime) {
    if !are_none(argument_count(&rt)) {
        let _ = rt.stderr().write_all(b"usage: tidy < SCRIPT\n");
        return;
    }
    let mut script = [0u8; SCRIPT];
    let input = read_whole::<_, CHUNK>(&mut rt.stdin(), &mut script);
    let mut refusal = [0u8; SAID];
    let told = refusal_text(&script, input, &mut refusal);
    let _ = rt.stderr().write_all(&refusal[..told]);
    let mut out = [0u8; SCRIPT];
    let size = copy_text(&script, input, &mut out);
    let written = rt.stdout().write_all(&out[..size]).is_ok();
    let mut said = [0u8; SAID];
    let length = failure_text(b"tidy", input, written, &mut said);
    let _ = rt.stderr().write_all(&said[..length]);
}
