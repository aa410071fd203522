//! Readers that give a byte at a time and fail once, writers that are not ready at times and have no more room in the end.
ghost use Rattle.std.specs.Prelude.{◌≤◌, length};
ghost use Rattle.rules.specs.Answer.{accepted};
ghost use Rattle.listing.specs.Listing.{refused_text};
ghost use Rattle.station.specs.Puts.{Puts};

use answer::Refusal;
use outcome::making::put_text;
use outcome::output::{Output, Stream};
use outcome::reading::{Noting, read_kept};
use outcome::writing::finish;
use outcome::*;
use station::write_refusal;
use std::io;
use std::io::{Error, ErrorKind, Read, Write};

// Gives its text a byte at a time, and fails at one of them.
#[derive(Drop)]
struct Flaky<'a> {
    text: &'a [u8],
    fails_at: usize,
}

impl<'a> Read for Flaky<'a> {
    fn read(&mut self, buf: &mut [u8]) -> io::Result<usize> {
        if self.fails_at == 0 {
            return Err(Error::from(ErrorKind::IsADirectory));
        }
        self.fails_at -= 1;
        match (self.text.split_first(), buf.first_mut()) {
            (Some((byte, rest)), Some(place)) => {
                *place = *byte;
                self.text = rest;
                Ok(1)
            }
            _ => Ok(0),
        }
    }
}

// Takes a byte at a time, is not ready for it at first, and has no more room in the end.
#[derive(Drop)]
struct Narrow {
    held: Vec<u8>,
    room: usize,
    is_ready: bool,
}

impl Write for Narrow {
    fn write(&mut self, buf: &[u8]) -> io::Result<usize> {
        self.is_ready = !self.is_ready;
        if self.is_ready {
            return Err(Error::from(ErrorKind::WouldBlock));
        }
        if self.room == 0 {
            return Err(Error::from(ErrorKind::StorageFull));
        }
        self.room -= 1;
        self.held.write(&buf[..buf.len().min(1)])
    }

    fn flush(&mut self) -> io::Result<()> {
        Ok(())
    }
}

fn make_narrow(rt: &HostRuntime, room: usize) -> Narrow {
    Narrow {
        held: Vec::new(rt.alloc()),
        room,
        is_ready: false,
    }
}

// The front is kept, and the whole is counted.
#[test]
fn an_input_is_read_to_its_end(rt: HostRuntime) {
    let text: &[u8] = b"\tMOVEQ.L #1, D0\n";
    let mut from = Noting::new(Flaky { text, fails_at: 99 });
    let mut front = [0; 4];
    let read = read_kept::<_, 512>(&mut from, &mut front);
    assert!(rt; matches!(read, Ok(input) if input.total == 16 && !input.failed));
    assert_eq!(rt; front, *b"\tMOV");
    assert!(rt; from.why().is_none());
}

#[test]
fn a_failed_read_has_its_reason(rt: HostRuntime) {
    for fails_at in 0..4 {
        let mut from = Noting::new(Flaky {
            text: b"NOP",
            fails_at,
        });
        let read = read_kept::<_, 512>(&mut from, &mut [0; 16]);
        assert!(rt;
            matches!(read, Err(e) if e.kind() == ErrorKind::IsADirectory),
            "at {fails_at}"
        );
        assert!(rt; from.why().is_some());
    }
}

#[test]
fn a_text_is_put_whole(rt: HostRuntime) {
    let mut out = Stream {
        clock: &rt,
        to: make_narrow(&rt, 99),
    };
    let outcome = finish(&mut out, Ok(b"00001000 4E71 0\n"));
    assert!(rt; matches!(outcome, Outcome::Accepted));
    assert_eq!(rt; out.to.held.as_slice(), b"00001000 4E71 0\n".as_slice());
}

#[test]
fn a_failed_write_leaves_a_front(rt: HostRuntime) {
    for room in 0..16 {
        let mut out = Stream {
            clock: &rt,
            to: make_narrow(&rt, room),
        };
        let outcome = finish(&mut out, Ok(b"00001000 4E71 0\n"));
        assert!(rt;
            matches!(outcome, Outcome::Failed(What::Write, None, e) if e.kind() == ErrorKind::StorageFull),
            "after {room}"
        );
        assert_eq!(rt; out.to.held.as_slice(), &b"00001000 4E71 0\n"[..room]);
    }
}

#[test]
fn without_a_text_nothing_is_put(rt: HostRuntime) {
    let mut out = Stream {
        clock: &rt,
        to: make_narrow(&rt, 99),
    };
    let stop = Stop::NotAList(2);
    assert!(rt;
        matches!(finish(&mut out, Err(Unmade::Stopped(stop))), Outcome::Stopped(s) if s == stop)
    );
    assert!(rt; matches!(finish(&mut out, Err(Unmade::NoMemory)), Outcome::NoMemory));
    assert!(rt; out.to.held.is_empty());
}

// It stands for a command's text.
fn put_count(total: usize, room: &mut [u8]) -> Result<usize, Refusal>
    requires { 64 ≤ length room.old }
    ensures { Puts (accepted (refused_text 1 total)) result room.old room.new }
{
    Ok(write_refusal(Refusal::LongSource(total), room))
}

#[test]
fn an_answer_with_its_text(rt: HostRuntime) -> Result<(), Error> {
    let mut line = [b'-'; 64];
    let answer = put_count(3, &mut line);
    let text = put_text(answer, line.to_vec(rt.alloc())?);
    assert!(rt; matches!(&text, Ok(v) if v.as_slice() == b"refused 1 3\n".as_slice()));
    for (refusal, which) in [
        (Refusal::BadCommand(6), Which::Table),
        (Refusal::BadBranchName(0), Which::Table),
        (Refusal::NoEncoding(1), Which::Input),
    ] {
        let want = Unmade::Stopped(Stop::Refused(which, refusal));
        assert!(rt;
            matches!(put_text(Err(refusal), Vec::new(rt.alloc())), Err(why) if why == want)
        );
    }
    Ok(())
}

#[test]
fn the_status_of_each(rt: HostRuntime) {
    let failed = Outcome::Failed(
        What::Open,
        Some(Which::Input),
        Error::from(ErrorKind::NotFound),
    );
    assert_eq!(rt; status(&Outcome::Accepted), 0);
    assert_eq!(rt; status(&Outcome::NotAll), 1);
    assert_eq!(rt; status(&Outcome::Stopped(Stop::NotASheet(1))), 1);
    assert_eq!(rt; status(&Outcome::WrongUse), 2);
    assert_eq!(rt; status(&Outcome::NoMemory), 3);
    assert_eq!(rt; status(&failed), 3);
}
