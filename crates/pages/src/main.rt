#![tactic(auto)]

//! The examples of the pages docs/LANGUAGE.md and docs/BENCH.md, run as the command runs them. Standard input is the pages, one after the other.
//! Each example that does not hold is printed, and what came instead; at the end, how many there are and how many do not hold.
mod reading; // reading.rt: the examples of a page
mod texts; // texts.rt: their texts
mod files; // files.rt: their files
mod calling; // calling.rt: the command on an example
mod trying; // trying.rt: which examples do not hold

use crate::reading::{cut_at, read_examples};
use crate::trying::try_examples;
use std::io;
use std::io::{Read, Write};

/// An example of a page, by its lines: the command, the files, standard input, and what is printed and said.
#[derive(Clone, Copy)]
pub struct Example<'a> {
    pub line: &'a [u8],
    pub files: &'a [&'a [u8]],
    pub input: &'a [&'a [u8]],
    pub wanted: &'a [&'a [u8]],
}

fn main(rt: HostRuntime) -> io::Result<()> {
    let mut page = Vec::new(rt.alloc());
    rt.stdin().read_to_end(&mut page)?;
    let lines = cut_at(rt.alloc(), &page, b'\n')?;
    let examples = read_examples(rt.alloc(), &lines)?;
    let failures = try_examples(&rt, rt.alloc(), &examples)?;
    for failed in &failures {
        rt.stdout().write_all(failed.line)?;
        rt.stdout().write_all(b"\n")?;
        rt.stdout().write_all(&failed.got)?;
    }
    println!(rt;
        "{} examples, {} do not hold",
        examples.len(),
        failures.len()
    )?;
    Ok(())
}
