//! Calls on files in memory, whose readers and writers give or take a byte at a time, are not ready at times, and fail once.
ghost use Rattle.std.specs.Prelude.{◌≡◌, ◌≤◌, cond, ltb, length, Some};
ghost use Rattle.rules.specs.Answer.{accepted, refused};
ghost use Rattle.answer.specs.Refusal.{number_of, place_of};
ghost use Rattle.listing.specs.Listing.{refused_text};
ghost use Rattle.station.specs.Puts.{Puts};
ghost use Rattle.outcome.specs.Made.{made, told_text};

use answer::Refusal;
use outcome::making::{Joining, Make, MakeNamed, Part, put_text, stop_of};
use outcome::opening::Opening;
use outcome::output::Stream;
use outcome::{Outcome, Stop, Unmade, What, Which};
use serving::{serve, serve_each};
use station::input::Input;
use station::{TABLE, write_refusal};
use std::alloc::Global;
use std::io;
use std::io::{Error, ErrorKind, Read, Write};
use std::test::Fail;

// ---- Files.

// Gives its text a byte at a time, and fails at one of them.
#[derive(Drop)]
struct Flaky<'a> {
    text: &'a [u8],
    fails_at: usize,
}

impl<'a> Read for Flaky<'a> {
    fn read(&mut self, buf: &mut [u8]) -> io::Result<usize> {
        if self.fails_at == 0 {
            return Err(Error::from(ErrorKind::IsADirectory));
        }
        self.fails_at -= 1;
        match (self.text.split_first(), buf.first_mut()) {
            (Some((byte, rest)), Some(place)) => {
                *place = *byte;
                self.text = rest;
                Ok(1)
            }
            _ => Ok(0),
        }
    }
}

// Files `a.s` and `b.s`, a table `t`, an empty file `none.s`, a folder `d`, and standard input.
struct Shelf;

impl Opening for Shelf {
    type Reader = Flaky<'static>;

    fn open(&self, name: Option<&str>) -> Result<Flaky<'static>, Error> {
        let text: &[u8] = match name {
            None => b"\tNOP\n",
            Some("a.s") => b"START:\n ORG $40000000\n\tMOVE.W\n",
            Some("b.s") => b" NOP\n",
            Some("t") => b"BXX 2",
            Some("none.s") => b"",
            Some("d") => {
                return Ok(Flaky {
                    text: b"NOP",
                    fails_at: 2,
                });
            }
            _ => return Err(Error::from(ErrorKind::NotFound)),
        };
        Ok(Flaky { text, fails_at: 99 })
    }
}

// One text under each name. What its files hold is known.
#[derive(Drop)]
struct Same<'a> {
    text: &'a [u8],
}

impl<'a> Opening for Same<'a> {
    type Reader = &'a [u8];

    ghost holds = { λ s _. Some s.text.now };

    fn open(&self, _name: Option<&str>) -> Result<&'a [u8], Error> {
        Ok(self.text)
    }
}

// Takes a byte at a time, is not ready for it at first, and has no more room in the end.
#[derive(Drop)]
struct Narrow {
    held: Vec<u8>,
    room: usize,
    is_ready: bool,
}

impl Write for Narrow {
    fn write(&mut self, buf: &[u8]) -> io::Result<usize> {
        self.is_ready = !self.is_ready;
        if self.is_ready {
            return Err(Error::from(ErrorKind::WouldBlock));
        }
        if self.room == 0 {
            return Err(Error::from(ErrorKind::StorageFull));
        }
        self.room -= 1;
        self.held.write(&buf[..buf.len().min(1)])
    }

    fn flush(&mut self) -> io::Result<()> {
        Ok(())
    }
}

fn narrowed<'a>(rt: &'a HostRuntime, room: usize) -> Stream<'a, HostRuntime, Narrow> {
    let to = Narrow {
        held: Vec::new(rt.alloc()),
        room,
        is_ready: false,
    };
    Stream { clock: rt, to }
}

// ---- Works.

// How many bytes the input has, as a line; more than 40 are refused, and any table is.
struct Counted;

fn put_count(branches: usize, total: usize, room: &mut [u8; 64]) -> Result<usize, Refusal>
    ensures { Puts (cond (ltb 0 branches) (refused 16 0) (cond (ltb 40 total) (refused 1 total) (accepted (refused_text 1 total)))) result room.old room.new }
{
    let long = Refusal::LongSource(total);
    if 0 < branches {
        return Err(Refusal::BadCommand(0));
    }
    if 40 < total {
        return Err(long);
    }
    Ok(write_refusal(long, room))
}

impl Make<16> for Counted {
    ghost promised = { λ s a b. told_text (cond (ltb 0 (length a)) (refused 16 0) (cond (ltb 40 (length b)) (refused 1 (length b)) (accepted (refused_text 1 (length b))))) };

    fn make(
        &self,
        alloc: Global,
        _table: &[u8; TABLE],
        branches: Input,
        _front: &[u8; 16],
        input: Input,
    ) -> Result<Vec<u8>, Unmade> {
        let mut room = [0; 64];
        let answer = put_count(branches.total, input.total, &mut room);
        match room.to_vec(alloc) {
            Ok(room) => put_text(answer, room),
            Err(_) => Err(Unmade::NoMemory),
        }
    }
}

// What it is told to refuse.
#[derive(Drop)]
struct Refused {
    refusal: Refusal,
}

impl Make<32> for Refused {
    ghost promised = { λ s a b. told_text (refused (number_of s.refusal) (place_of s.refusal)) };

    fn make(
        &self,
        _alloc: Global,
        _table: &[u8; TABLE],
        _branches: Input,
        _front: &[u8; 32],
        _input: Input,
    ) -> Result<Vec<u8>, Unmade> {
        Err(Unmade::Stopped(stop_of(self.refusal)))
    }
}

// The name; an input of no bytes is not accepted.
struct Named;

impl MakeNamed<16> for Named {
    ghost promised = { λ s n a b. made n };

    ghost accepts = { λ s a b. ltb 0 (length b) };

    fn make_named(
        &self,
        alloc: Global,
        name: &str,
        _table: &[u8; TABLE],
        _branches: Input,
        _front: &[u8; 16],
        input: Input,
    ) -> Result<Part, Unmade> {
        let accepted = 0 < input.total;
        match name.as_bytes().to_vec(alloc) {
            Ok(text) => Ok(Part { text, accepted }),
            Err(_) => Err(Unmade::NoMemory),
        }
    }
}

const LINES: Joining = Joining {
    front: b"[",
    between: b",",
    behind: b"]\n",
};

// ---- One input.

#[test]
fn a_text_is_put_whole(rt: HostRuntime) {
    let (mut out, mut errors) = (narrowed(&rt, 99), Vec::new(rt.alloc()));
    let outcome = serve(
        rt.alloc(),
        &Shelf,
        &Counted,
        None,
        None,
        "standard output",
        &mut out,
        &mut errors,
    );
    assert!(rt; matches!(outcome, Outcome::Accepted));
    assert_eq!(rt; out.to.held.as_slice(), b"refused 1 5\n".as_slice());
    assert!(rt; errors.is_empty());
}

// The line is that of the input, as far as it is kept.
#[test]
fn a_refusal_is_said_with_its_line(rt: HostRuntime) {
    let (mut out, mut errors) = (narrowed(&rt, 99), Vec::new(rt.alloc()));
    let work = Refused {
        refusal: Refusal::HighAddress(2),
    };
    let outcome = serve(
        rt.alloc(),
        &Shelf,
        &work,
        None,
        Some("a.s"),
        "standard output",
        &mut out,
        &mut errors,
    );
    let want = Stop::Refused(Which::Input, work.refusal);
    assert!(rt; matches!(outcome, Outcome::Stopped(stop) if stop == want));
    assert!(rt; out.to.held.is_empty());
    let said =
        b"lagvettu: a.s: refused 5 at line 2: address 2^30 or more after this line\nlagvettu:    2   ORG $40000000\n";
    assert_eq!(rt; errors.as_slice(), said.as_slice());
}

#[test]
fn a_table_is_refused_by_its_name(rt: HostRuntime) {
    let (mut out, mut errors) = (narrowed(&rt, 99), Vec::new(rt.alloc()));
    let outcome = serve(
        rt.alloc(),
        &Shelf,
        &Counted,
        Some("t"),
        Some("a.s"),
        "standard output",
        &mut out,
        &mut errors,
    );
    assert!(rt; matches!(outcome, Outcome::Stopped(Stop::Refused(Which::Table, _))));
    assert!(rt; out.to.held.is_empty());
    let said =
        b"lagvettu: t: refused 16 at offset 0: a cut, missing or unknown command, a 17th row or a condition over 15\n";
    assert_eq!(rt; errors.as_slice(), said.as_slice());
}

#[test]
fn a_file_that_is_not_read(rt: HostRuntime) {
    for (branches, file, what, which, said) in [
        (
            None,
            Some("d"),
            What::Read,
            Which::Input,
            b"lagvettu: cannot read d: is a directory\n".as_slice(),
        ),
        (
            None,
            Some("x"),
            What::Open,
            Which::Input,
            b"lagvettu: cannot open x: entity not found\n".as_slice(),
        ),
        (
            Some("d"),
            None,
            What::Read,
            Which::Table,
            b"lagvettu: cannot read d: is a directory\n".as_slice(),
        ),
        (
            Some("x"),
            Some("d"),
            What::Open,
            Which::Table,
            b"lagvettu: cannot open x: entity not found\n".as_slice(),
        ),
    ] {
        let (mut out, mut errors) = (narrowed(&rt, 99), Vec::new(rt.alloc()));
        let outcome = serve(
            rt.alloc(),
            &Shelf,
            &Counted,
            branches,
            file,
            "standard output",
            &mut out,
            &mut errors,
        );
        assert!(rt; matches!(outcome, Outcome::Failed(w, Some(f), _) if w == what && f == which));
        assert!(rt; out.to.held.is_empty());
        assert_eq!(rt; errors.as_slice(), said);
    }
}

#[test]
fn a_text_that_is_not_put(rt: HostRuntime) {
    let (mut out, mut errors) = (narrowed(&rt, 3), Vec::new(rt.alloc()));
    let outcome = serve(
        rt.alloc(),
        &Shelf,
        &Counted,
        None,
        None,
        "o.list",
        &mut out,
        &mut errors,
    );
    assert!(rt; matches!(outcome, Outcome::Failed(What::Write, None, _)));
    assert_eq!(rt; out.to.held.as_slice(), b"ref".as_slice());
    let said = b"lagvettu: cannot write o.list: no storage space\n";
    assert_eq!(rt; errors.as_slice(), said.as_slice());
}

#[test]
fn a_file_whose_text_is_known(rt: HostRuntime) {
    let (mut out, mut errors) = (narrowed(&rt, 99), Vec::new(rt.alloc()));
    let files = Same { text: b"NOP" };
    let outcome = serve(
        rt.alloc(),
        &files,
        &Counted,
        None,
        None,
        "standard output",
        &mut out,
        &mut errors,
    );
    assert!(rt; matches!(outcome, Outcome::Accepted));
    assert_eq!(rt; out.to.held.as_slice(), b"refused 1 3\n".as_slice());
}

// ---- Several.

fn each(
    rt: &HostRuntime,
    branches: Option<&'static str>,
    inputs: &[Option<&'static str>],
) -> (Outcome, Vec<u8>, Vec<u8>) {
    let (mut out, mut errors) = (narrowed(rt, 99), Vec::new(rt.alloc()));
    let outcome = serve_each(
        rt.alloc(),
        &Shelf,
        &Named,
        LINES,
        branches,
        inputs,
        "standard output",
        &mut out,
        &mut errors,
    );
    (outcome, out.to.held, errors)
}

#[test]
fn the_texts_of_all_are_joined(rt: HostRuntime) {
    let (outcome, held, errors) = each(&rt, None, &[Some("b.s"), None, Some("a.s")]);
    assert!(rt; matches!(outcome, Outcome::Accepted));
    assert_eq!(rt; held.as_slice(), b"[b.s,standard input,a.s]\n".as_slice());
    assert!(rt; errors.is_empty());
}

#[test]
fn one_that_is_not_accepted(rt: HostRuntime) {
    let (outcome, held, errors) = each(&rt, None, &[Some("none.s"), Some("a.s")]);
    assert!(rt; matches!(outcome, Outcome::NotAll));
    assert_eq!(rt; held.as_slice(), b"[none.s,a.s]\n".as_slice());
    assert!(rt; errors.is_empty());
}

#[test]
fn one_that_is_not_read(rt: HostRuntime) {
    let (outcome, held, errors) = each(&rt, None, &[Some("a.s"), Some("d"), Some("b.s")]);
    assert!(rt; matches!(outcome, Outcome::Failed(What::Read, Some(Which::Input), _)));
    assert!(rt; held.is_empty());
    assert_eq!(rt;
        errors.as_slice(),
        b"lagvettu: cannot read d: is a directory\n".as_slice()
    );
}

#[test]
fn a_table_before_all(rt: HostRuntime) {
    let (outcome, held, errors) = each(&rt, Some("x"), &[Some("a.s")]);
    assert!(rt; matches!(outcome, Outcome::Failed(What::Open, Some(Which::Table), _)));
    assert!(rt; held.is_empty());
    assert_eq!(rt;
        errors.as_slice(),
        b"lagvettu: cannot open x: entity not found\n".as_slice()
    );
}
