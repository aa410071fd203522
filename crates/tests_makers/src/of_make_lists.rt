//! Each command on inputs whose answers are known: the examples of the C interface, and of the check of the command.
ghost use Rattle.std.specs.Prelude.{◌^◌, ◌<◌};

use answer::Refusal;
use make_lists::assembling::{Assembling, AssemblingJson, AssemblingManual};
use make_lists::checking::Checking;
use make_lists::moving::Moving;
use make_lists::tidying::Tidying;
use outcome::making::{Make, MakeNamed, Part};
use outcome::reading::{Noting, read_kept};
use outcome::{Stop, Unmade, Which};
use station::TABLE;
use std::alloc::AllocError;

const BEZEL: &[u8] =
    b"ORG $1000\nLIM: DC.L 4160\nGO: MOVEQ #3,D1\nMOVE.L LIM,D2\nCMP.L #4160,D2\nBNE GO\nNOP\nEND";

const P1: &[u8] =
    b"00001000 0000 0\n00001002 1040 0\n00001004 7203 0\n00001006 2478 0\n00001008 1000 1\n0000100A 0C82 0\n0000100C 1040 0\n0000100E 66F4 0\n00001010 4E71 0\n";

const P2: &[u8] =
    b"00003000 0000 0\n00003002 1040 0\n00003004 7203 0\n00003006 2478 0\n00003008 3000 1\n0000300A 0C82 0\n0000300C 1040 0\n0000300E 66F4 0\n00003010 4E71 0\n";

const NAMES: &[u8] = b"\x01BHS \x04\x01BLO \x05\0";

const WRONG_NAMES: &[u8] = b"\x01BHS \x04\x01BLO \x10\0";

// What a command makes of a table and an input.
fn made<M: Make<N>, const N: usize>(
    rt: &HostRuntime,
    work: &M,
    table: &[u8],
    input: &[u8],
) -> Result<Vec<u8>, Unmade>
    requires { N < 2 ^ 63 }
{
    let mut lent = [0; TABLE];
    let mut front = [0; N];
    let branches = read_kept::<_, 512>(&mut Noting::new(table), &mut lent).map_err(
        |_| Unmade::NoMemory,
    )?;
    let read = read_kept::<_, 8192>(&mut Noting::new(input), &mut front).map_err(
        |_| Unmade::NoMemory,
    )?;
    work.make(rt.alloc(), &lent, branches, &front, read)
}

// The same of an input that has a name.
fn row<M: MakeNamed<N>, const N: usize>(
    rt: &HostRuntime,
    work: &M,
    name: &str,
    table: &[u8],
    input: &[u8],
) -> Result<Part, Unmade>
    requires { N < 2 ^ 63 }
{
    let mut lent = [0; TABLE];
    let mut front = [0; N];
    let branches = read_kept::<_, 512>(&mut Noting::new(table), &mut lent).map_err(
        |_| Unmade::NoMemory,
    )?;
    let read = read_kept::<_, 8192>(&mut Noting::new(input), &mut front).map_err(
        |_| Unmade::NoMemory,
    )?;
    work.make_named(rt.alloc(), name, &lent, branches, &front, read)
}

fn is_text(made: &Result<Vec<u8>, Unmade>, text: &[u8]) -> bool {
    match made {
        Ok(made) => made.as_slice() == text,
        Err(_) => false,
    }
}

fn is_refused(made: &Result<Vec<u8>, Unmade>, which: Which, refusal: Refusal) -> bool {
    match made {
        Ok(_) => false,
        Err(e) => *e == Unmade::Stopped(Stop::Refused(which, refusal)),
    }
}

fn is_row(made: &Result<Part, Unmade>, text: &[u8], accepted: bool) -> bool {
    match made {
        Ok(part) => part.text.as_slice() == text && part.accepted == accepted,
        Err(_) => false,
    }
}

// A text so many times.
fn times(rt: &HostRuntime, text: &[u8], n: usize) -> Result<Vec<u8>, AllocError> {
    let mut all = Vec::new(rt.alloc());
    for _ in 0..n {
        all.extend_from_slice(text)?;
    }
    Ok(all)
}

const PLAIN: Assembling = Assembling {
    base: 0,
    lent: false,
};

const UNDER: Assembling = Assembling {
    base: 0,
    lent: true,
};

#[test]
fn lists_of_scripts(rt: HostRuntime) {
    let high = Assembling {
        base: 0x2000,
        lent: false,
    };
    assert!(rt; is_text(&made(&rt, &PLAIN, b"", BEZEL), P1));
    assert!(rt; is_text(&made(&rt, &high, b"", BEZEL), P2));
    assert!(rt; is_text(&made(&rt, &PLAIN, b"", b""), b""));
    let named = made(&rt, &UNDER, NAMES, b"A: BHS A\nBRA A\nBLO A");
    assert!(rt; is_text(&named, b"00000000 64FE 0\n00000004 65FA 0\n"));
    let json = AssemblingJson {
        base: 0x1000,
        lent: false,
    };
    assert!(rt;
        is_text(
            &made(&rt, &json, b"", b"NOP"),
            b"{\"list\":[{\"address\":4096,\"mark\":0,\"word\":20081}]}\n"
        )
    );
    let manual = AssemblingManual { base: 0x12340 };
    assert!(rt;
        is_text(
            &made(&rt, &manual, b"", b"X: MOVE.L X,D2\nBRA X"),
            b"00012340 2439 0\n00012342 0001 2\n00012344 2340 3\n00012346 60F8 0\n"
        )
    );
}

#[test]
fn refused_scripts(rt: HostRuntime) -> Result<(), AllocError> {
    let long = times(&rt, b";", 32773)?;
    for (script, refusal) in [
        (long.as_slice(), Refusal::LongSource(32773)),
        (b"NOP\n;\x80", Refusal::HighByte(5)),
        (b"NOP\nORG $40000000", Refusal::HighAddress(2)),
    ] {
        assert!(rt; is_refused(&made(&rt, &PLAIN, b"", script), Which::Input, refusal));
        assert!(rt; is_refused(&made(&rt, &UNDER, NAMES, script), Which::Input, refusal));
        // The table comes first.
        let wrong = made(&rt, &UNDER, WRONG_NAMES, script);
        assert!(rt; is_refused(&wrong, Which::Table, Refusal::BadCommand(6)));
    }
    let high = Assembling {
        base: 1 << 30,
        lent: false,
    };
    assert!(rt;
        is_refused(
            &made(&rt, &high, b"", BEZEL),
            Which::Input,
            Refusal::HighBase
        )
    );
    let manual = AssemblingManual { base: 0 };
    assert!(rt;
        is_refused(
            &made(&rt, &manual, b"", b"MOVE D0,D1"),
            Which::Input,
            Refusal::NoEncoding(1)
        )
    );
    assert!(rt;
        is_refused(
            &made(&rt, &manual, b"", &long),
            Which::Input,
            Refusal::LongSource(32773)
        )
    );
    Ok(())
}

// 4,095 bytes with 1,170 words.
#[test]
fn a_short_script_of_many_words(rt: HostRuntime) -> Result<(), AllocError> {
    let script = times(&rt, b"DC.B 1\n", 585)?;
    let list = made(&rt, &PLAIN, b"", &script);
    assert!(rt;
        matches!(&list, Ok(text) if text.len() == 18720 && text.ends_with(b"00000248 0000 0\n0000024A 0001 0\n"))
    );
    Ok(())
}

#[test]
fn moves_of_lists(rt: HostRuntime) -> Result<(), AllocError> {
    let there = Moving { distance: 0x2000 };
    let back = Moving { distance: -0x2000 };
    assert!(rt; is_text(&made(&rt, &there, b"", P1), P2));
    assert!(rt; is_text(&made(&rt, &back, b"", P2), P1));
    let far = Moving {
        distance: 1_073_737_714,
    };
    assert!(rt;
        is_refused(
            &made(&rt, &far, b"", P1),
            Which::Input,
            Refusal::OutsideAddress(8)
        )
    );
    let mark = made(&rt, &there, b"", b"00000000 0000 4\n");
    assert!(rt; is_refused(&mark, Which::Input, Refusal::BadMark(0)));
    let lower = made(&rt, &there, b"", b"00001000 4E71 0\n0000100a 4E71 0\n");
    assert!(rt; matches!(lower, Err(Unmade::Stopped(Stop::NotAList(2)))));
    // No line at the end, and a line more than any list has.
    let cut = made(&rt, &there, b"", b"00001000 4E71 0\n00001002 4E71 0");
    assert!(rt; matches!(cut, Err(Unmade::Stopped(Stop::NotAList(2)))));
    let mut full = times(&rt, b"00000000 4E71 0\n", 12288)?;
    let whole = made(&rt, &there, b"", &full);
    assert!(rt;
        matches!(&whole, Ok(text) if text.len() == full.len() && text.ends_with(b"00002000 4E71 0\n"))
    );
    full.extend_from_slice(b"00000000 4E71 0\n")?;
    let longer = made(&rt, &there, b"", &full);
    assert!(rt; matches!(longer, Err(Unmade::Stopped(Stop::NotAList(12289)))));
    Ok(())
}

#[test]
fn tidy_copies(rt: HostRuntime) -> Result<(), AllocError> {
    let copy = made(&rt, &Tidying, b"", b" NOP \n\n; a remark\n\tMOVE.W  D0,D1 ");
    assert!(rt; is_text(&copy, b"NOP\nMOVE.W D0,D1"));
    let high = made(&rt, &Tidying, b"", b"NOP\n;\x80");
    assert!(rt; is_refused(&high, Which::Input, Refusal::HighByte(5)));
    let long = times(&rt, b";", 32773)?;
    let refused = made(&rt, &Tidying, b"", &long);
    assert!(rt; is_refused(&refused, Which::Input, Refusal::LongSource(32773)));
    Ok(())
}

#[test]
fn rows_of_scripts(rt: HostRuntime) {
    let plain = Checking {
        base: 0,
        lent: false,
    };
    let under = Checking {
        base: 0,
        lent: true,
    };
    let accepted = row(&rt, &plain, "bezel.s", b"", BEZEL);
    assert!(rt; is_row(&accepted, b"bezel.s: accepted\n", true));
    let refused = row(&rt, &under, "x.s", NAMES, b"NOP\nORG $40000000");
    assert!(rt;
        is_row(
            &refused,
            b"x.s: refused 5 at line 2: address 2^30 or more after this line\n",
            false
        )
    );
    let stopped = row(&rt, &under, "x.s", WRONG_NAMES, BEZEL);
    assert!(rt;
        matches!(
            stopped,
            Err(Unmade::Stopped(Stop::Refused(Which::Table, Refusal::BadCommand(6))))
        )
    );
}
