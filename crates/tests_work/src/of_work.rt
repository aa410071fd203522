//! The command on files in memory: what it prints, what it says, and the exit status.
use console::Arguments;
use outcome::opening::Opening;
use outcome::output::Stream;
use outcome::status;
use std::env::FillError;
use std::io;
use std::io::{Error, ErrorKind, Read};
use std::test::Fail;
use wholefile::memory::Memory;
use work::placing::Ended;
use work::running::run;

// The words of a line, after the program's name.
#[derive(Drop)]
struct Line<'a>(&'a str);

impl<'a> Arguments for Line<'a> {
    fn put(&self, k: usize, text: &mut [u8]) -> Result<usize, FillError> {
        let word = self.0.split(' ').nth(k).ok_or(FillError::NotPresent)?;
        if text.len() < word.len() {
            return Err(FillError::TooLong);
        }
        text[..word.len()].copy_from_slice(word.as_bytes());
        Ok(word.len())
    }
}

// What is in a file.
#[derive(Drop)]
struct Bytes(&'static [u8]);

impl Read for Bytes {
    fn read(&mut self, buf: &mut [u8]) -> io::Result<usize> {
        self.0.read(buf)
    }
}

// A few files, and a script on standard input.
struct Few;

impl Opening for Few {
    type Reader = Bytes;

    fn open(&self, name: Option<&str>) -> Result<Bytes, Error> {
        match name {
            None => Ok(Bytes(b"NOP")),
            Some("nop.s") => Ok(Bytes(b"A: NOP\n")),
            Some("high.s") => Ok(Bytes(b"NOP\n ORG $40000000\n")),
            Some("nop.list") => Ok(Bytes(b"00001000 4E71 0\n")),
            Some(_) => Err(Error::from(ErrorKind::NotFound)),
        }
    }
}

fn memory(rt: &HostRuntime) -> Memory {
    Memory {
        alloc: rt.alloc(),
        out: None,
        fresh: None,
        given: Vec::new(rt.alloc()),
        owner: 7,
        group: 8,
        mask: 0o755,
        limit: 100,
        is_writable: true,
        takes_owner: true,
        takes_group: true,
        removes: true,
        is_settled: false,
        is_stuck: false,
        fails_at: usize::MAX,
    }
}

// What the words come to: the exit status, the text of standard output, and what is said.
fn call(rt: &HostRuntime, line: &str) -> (u8, Vec<u8>, Vec<u8>) {
    let mut out = Stream {
        clock: rt,
        to: Vec::new(rt.alloc()),
    };
    let mut said = Vec::new(rt.alloc());
    let ended = run(
        &Line(line),
        rt,
        rt.alloc(),
        &Few,
        memory(rt),
        &mut out,
        &mut said,
    );
    (status(&ended.outcome), out.to, said)
}

#[test]
fn each_command(rt: HostRuntime) {
    for (line, want) in [
        ("lagvettu assemble --base 2000 nop.s", "00002000 4E71 0\n"),
        ("lagvettu assemble", "00000000 4E71 0\n"),
        ("lagvettu manual -", "00000000 4E71 0\n"),
        ("lagvettu move -4096 nop.list", "00000000 4E71 0\n"),
        ("lagvettu symbols --base 8 nop.s", "A 00000008 1\n"),
        ("lagvettu nearest 12 nop.s", "A 18\n"),
        ("lagvettu tidy nop.s", "A:NOP"),
        ("lagvettu check nop.s", "nop.s: accepted\n"),
        (
            "lagvettu check - nop.s",
            "standard input: accepted\nnop.s: accepted\n",
        ),
        ("lagvettu --version", "lagvettu 1.0\n"),
    ] {
        let (code, text, said) = call(&rt, line);
        assert_eq!(rt; code, 0, "{line}");
        assert_eq!(rt; text.as_slice(), want.as_bytes(), "{line}");
        assert!(rt; said.is_empty(), "{line}");
    }
}

#[test]
fn what_is_said(rt: HostRuntime) {
    for (line, code, want) in [
        (
            "lagvettu assemble high.s",
            1,
            "lagvettu: high.s: refused 5 at line 2: address 2^30 or more after this line\nlagvettu:    2   ORG $40000000\n",
        ),
        (
            "lagvettu run 0 9 nop.s",
            1,
            "lagvettu: nop.s: not a list: line 1\n",
        ),
        (
            "lagvettu why none.s",
            3,
            "lagvettu: cannot open none.s: entity not found\n",
        ),
        (
            "lagvettu lists",
            2,
            "lagvettu: no command lists; see lagvettu --help\n",
        ),
        (
            "lagvettu list -x",
            2,
            "lagvettu: list: no option -x\nlagvettu: see lagvettu list --help\n",
        ),
    ] {
        let (status, text, said) = call(&rt, line);
        assert_eq!(rt; status, code, "{line}");
        assert!(rt; text.is_empty(), "{line}");
        assert_eq!(rt; said.as_slice(), want.as_bytes(), "{line}");
    }
}

// What is not accepted is told in a row, and by the exit status.
#[test]
fn a_check_that_fails(rt: HostRuntime) {
    let (code, text, said) = call(&rt, "lagvettu check nop.s high.s");
    let want =
        "nop.s: accepted\nhigh.s: refused 5 at line 2: address 2^30 or more after this line\n";
    assert_eq!(rt; code, 1);
    assert_eq!(rt; text.as_slice(), want.as_bytes());
    assert!(rt; said.is_empty());
}

// Nothing is printed on standard output where a file is named.
#[test]
fn into_a_file(rt: HostRuntime) -> Result<(), Fail> {
    let mut out = Stream {
        clock: &rt,
        to: Vec::new(rt.alloc()),
    };
    let mut said = Vec::new(rt.alloc());
    let Ended { outcome, disk } = run(
        &Line("lagvettu assemble -o out nop.s"),
        &rt,
        rt.alloc(),
        &Few,
        memory(&rt),
        &mut out,
        &mut said,
    );
    assert_eq!(rt; status(&outcome), 0);
    assert!(rt; out.to.is_empty());
    assert!(rt; said.is_empty());
    let put = disk.out.ok_or("nothing")?;
    assert_eq!(rt; put.text.as_slice(), b"00000000 4E71 0\n".as_slice());
    Ok(())
}
