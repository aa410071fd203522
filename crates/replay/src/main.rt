#![tactic(auto)]

//! Replays recorded calls: standard input holds calls with the answers that they must get, made by the Rust original and by
//! the rules' words. Each is made again, and every place of the slices is compared, or its text. It takes no argument, and prints
//! on standard output how many records agree, in how many words, and the number of the first that differs, if one does.
//! If the input cannot be read to its end it prints nothing. It says that on standard error, and there too if the last record is
//! cut off, if standard output does not take all that it prints, or if it is given an argument.
use console::{CHUNK, argument_count};
use recorded::{COUNTS, RECORD, is_cut_off, replay_chunk, replay_text};
use station::arguments::are_none;
use station::failure::{SAID, failure_text};
use station::input::{after_read, start};
use std::io::Read;

fn main(rt: HostRuntime) {
    if !are_none(argument_count(&rt)) {
        let _ = rt.stderr().write_all(b"usage: replay < RECORDS\n");
        return;
    }
    let mut bytes = [0u8; RECORD];
    let mut tally = recorded::start();
    let mut stdin = rt.stdin();
    let mut input = start();
    // Where the reads end only each read tells: no iterator has them.
    while input.more {
        let mut chunk = [0u8; CHUNK];
        let got = stdin.read(&mut chunk).ok();
        tally = replay_chunk(tally, &chunk[..got.unwrap_or(0)], &mut bytes);
        input = after_read(input, got);
    }
    let mut out = [0u8; COUNTS];
    let size = replay_text(tally, input, &mut out);
    let written = rt.stdout().write_all(&out[..size]).is_ok();
    let mut said = [0u8; SAID];
    let length = failure_text(b"replay", input, written, &mut said);
    let _ = rt.stderr().write_all(&said[..length]);
    if is_cut_off(tally, input) {
        let _ = rt
            .stderr()
            .write_all(b"replay: the last record is cut off\n");
    }
}
