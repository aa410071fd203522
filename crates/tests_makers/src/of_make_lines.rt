//! Texts and entries byte for byte, as they were written by hand, and what stops a call.
use answer::Refusal;
use make_lines::why::files_joining;
use make_lines::*;
use outcome::making::{MakeNamed, Part};
use outcome::{Stop, Unmade, Which};
use station::input::{Input, read_whole};
use station::{SCRIPT, TABLE};
use std::alloc::Global;
use std::test::Fail;

const SOURCE: &[u8] = b"NOP\n DC.L 5\nDC.L x\nX: ; n";

// What is made of a script's and a table's text.
fn make<M: MakeNamed<{ SCRIPT }>>(
    alloc: Global,
    work: &M,
    table: &[u8],
    text: &[u8],
) -> Result<Part, Unmade> {
    let mut lent = [0; TABLE];
    let mut front = [0; SCRIPT];
    let mut rows = table;
    let mut rest = text;
    let branches = read_whole::<_, 512>(&mut rows, &mut lent);
    let input = read_whole::<_, 8192>(&mut rest, &mut front);
    if branches.failed || input.failed {
        return Err(Unmade::NoMemory);
    }
    work.make_named(alloc, "x.s", &lent, branches, &front, input)
}

fn is_text(part: Result<Part, Unmade>, want: &str) -> bool {
    part.is_ok_and(|part| part.accepted && part.text.as_slice() == want.as_bytes())
}

#[test]
fn why_as_text(rt: HostRuntime) {
    let all = Explaining {
        base: 0,
        lent: false,
        line: None,
        headed: true,
    };
    let want = "x.s:\n1 word emitted\n2 word emitted\n3 not an instruction\n4 unknown mnemonic\n";
    assert!(rt; is_text(make(rt.alloc(), &all, b"", SOURCE), want));
    let one = Explaining {
        base: 0,
        lent: false,
        line: Some(4),
        headed: false,
    };
    assert!(rt; is_text(make(rt.alloc(), &one, b"", SOURCE), "unknown mnemonic\n"));
}

#[test]
fn why_as_json(rt: HostRuntime) {
    let one = ExplainingJson {
        base: 0,
        lent: false,
        line: Some(3),
    };
    let want = "{\"file\":\"x.s\",\"lines\":[{\"line\":3,\"verdict\":\"not an instruction\"}]}";
    assert!(rt; is_text(make(rt.alloc(), &one, b"", SOURCE), want));
    let all = ExplainingJson {
        base: 0,
        lent: false,
        line: None,
    };
    let want = "{\"file\":\"x.s\",\"lines\":[{\"line\":1,\"verdict\":\"word emitted\"}]}";
    assert!(rt; is_text(make(rt.alloc(), &all, b"", b"NOP"), want));
    assert_eq!(rt; files_joining().between, b",".as_slice());
}

#[test]
fn a_printout(rt: HostRuntime) {
    let work = Printing {
        base: 4096,
        lent: false,
        headed: true,
    };
    let want = "x.s:\n   1  00001000  4E71       NOP\n";
    assert!(rt; is_text(make(rt.alloc(), &work, b"", b"NOP"), want));
}

// A table that is refused comes before a script over the limit.
#[test]
fn what_stops_a_call(rt: HostRuntime) -> Result<(), Fail> {
    let alloc = rt.alloc();
    let mut long = Vec::new(alloc);
    for _ in 0..32769 {
        long.push(b' ')?;
    }
    for (lent, which, refusal) in [
        (true, Which::Table, Refusal::BadCommand(0)),
        (false, Which::Input, Refusal::LongSource(32769)),
    ] {
        let stop = Unmade::Stopped(Stop::Refused(which, refusal));
        let work = Printing {
            base: 0,
            lent,
            headed: false,
        };
        assert!(rt; make(alloc, &work, b"B", &long).is_err_and(|e| e == stop));
    }
    let work = ExplainingJson {
        base: 0,
        lent: false,
        line: Some(2),
    };
    let stop = Unmade::Stopped(Stop::Refused(Which::Input, Refusal::NoSuchLine(2)));
    assert!(rt; make(alloc, &work, b"", b"NOP").is_err_and(|e| e == stop));
    Ok(())
}
