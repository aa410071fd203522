#![tactic(auto)]

//! Moves a list as `asmlist` prints it. It reads the list on standard input, takes the distance as its one argument, a
//! decimal number of 32 bits with an optional sign, and prints on standard output
//!   the moved list in the same form, if the mover accepts it;
//!   `refused N P`, the mover's refusal and its place, if not;
//!   `not a list: line N`, if line N is the first that is not of that form, or is the 12,289th.
//! If the list cannot be read to its end it prints nothing. It says that on standard error, and there too if standard output
//! does not take all that it prints, or if it has no such argument or more than one: it reads nothing then.
use console::{ARGUMENT, CHUNK, argument, argument_count};
use station::arguments::given_distance;
use station::failure::{SAID, failure_text};
use station::input::read_whole;
use station::{LIST, TEXT, list_text};

fn main(rt: HostRuntime) {
    let mut text = [0u8; ARGUMENT];
    let size = argument(&rt, 1, &mut text);
    let Some(distance) = given_distance(argument_count(&rt), &text[..size]) else {
        let _ = rt.stderr().write_all(
            b"usage: movelist DISTANCE < LIST, -2147483648 to 2147483647\n",
        );
        return;
    };
    let mut list = [0u8; LIST];
    let input = read_whole::<_, CHUNK>(&mut rt.stdin(), &mut list);
    let mut out = [0u8; TEXT];
    let size = list_text(&list, input, distance, &mut out);
    let written = rt.stdout().write_all(&out[..size]).is_ok();
    let mut said = [0u8; SAID];
    let length = failure_text(b"movelist", input, written, &mut said);
    let _ = rt.stderr().write_all(&said[..length]);
}
