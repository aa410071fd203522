#![tactic(auto)]

//! Tries a list on the bench. It reads a list as `asmlist` prints it on standard input, takes START, LIMIT and up to eight address
//! registers that are not 0, A0 first, LIMIT a decimal number of 64 bits, the others hexadecimal numbers of 32 bits with or without
//! `$` or `0x`, and prints on standard output
//!   why the run ended, `halt`, `word`, `access` or `limit`, the steps made in decimal, the program counter, D0 to D7 and the flags
//!   X N Z V C;
//!   `refused N P`, the refusal and its place, if the list is refused;
//!   `not a list: line N`, if line N is the first that is not of a list's form, or is the 12,289th.
//! With -w, ADDRESS, FROM and TO in front, ADDRESS hexadecimal, the others decimal numbers of 16 bits, it prints a run's line for each
//! value from FROM to TO, with the value in front: the list's words at ADDRESS are that value then.
//! If the list cannot be read to its end it prints nothing. It says that on standard error, and there too if standard output
//! does not take all that it prints, or if its arguments are no such numbers: it reads nothing then.
use benchtext::arguments::{Given, whole, with_argument};
use benchtext::{row_count, row_text};
use console::{ARGUMENT, CHUNK, argument, argument_count};
use station::failure::{SAID, failure_text};
use station::input::read_whole;
use station::{LIST, TEXT};

fn main(rt: HostRuntime) {
    let mut given = Some(Given::new());
    // An argument is asked for by its place, and so is a row.
    for k in 1..argument_count(&rt) {
        let mut text = [0u8; ARGUMENT];
        let size = argument(&rt, k, &mut text);
        given = with_argument(given, &text[..size]);
    }
    let Some(given) = whole(given) else {
        let _ = rt.stderr().write_all(
            b"usage: bench [-w ADDRESS FROM TO] START LIMIT [A0 [A1 ..]] < LIST, LIMIT, FROM, TO decimal, the others hexadecimal\n",
        );
        return;
    };
    let mut list = [0u8; LIST];
    let input = read_whole::<_, CHUNK>(&mut rt.stdin(), &mut list);
    let mut out = [0u8; TEXT];
    let mut written = true;
    for row in 0..row_count(&list, input, given) {
        let size = row_text(&list, input, given, row, &mut out);
        if rt.stdout().write_all(&out[..size]).is_err() {
            written = false;
            break;
        }
    }
    let mut said = [0u8; SAID];
    let length = failure_text(b"bench", input, written, &mut said);
    let _ = rt.stderr().write_all(&said[..length]);
}
