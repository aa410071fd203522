//! Each line once, byte for byte: those of refusals and failures as the man page and the C command had them.
use answer::Refusal;
use diagnostic::reason::reason_of;
use diagnostic::said::{
    accepted_row, failed, failed_by, no_command, no_memory, not_a_command, not_a_list, not_a_sheet,
    refused, refused_row, stopped, wrong_use,
};
use diagnostic::words::{Counts, counted, refusals, words};
use outcome::{Stop, What, Which};
use std::alloc::AllocError;
use std::io::{Error, ErrorKind};

const SOURCE: &[u8] = b"START:\n ORG $40000000\n\tMOVE.W\n";

fn same(said: &[u8], expected: &[u8]) -> bool {
    said == expected
}

#[test]
fn refusals_are_said(rt: HostRuntime) -> Result<(), AllocError> {
    let at = refused(rt.alloc(), b"bezel.s", Refusal::HighAddress(2), SOURCE)?;
    assert!(rt;
        same(
            &at,
            b"lagvettu: bezel.s: refused 5 at line 2: address 2^30 or more after this line\nlagvettu:    2   ORG $40000000\n"
        )
    );
    let none = refused(rt.alloc(), b"bezel.s", Refusal::HighBase, SOURCE)?;
    assert!(rt; same(&none, b"lagvettu: bezel.s: refused 4: base 2^30 or more\n"));
    let byte = refused(rt.alloc(), b"-", Refusal::HighByte(22), SOURCE)?;
    assert!(rt;
        same(
            &byte,
            b"lagvettu: -: refused 2 at offset 22: a byte over 127\nlagvettu:    3  ?MOVE.W\n"
        )
    );
    let index = refused(
        rt.alloc(),
        b"l",
        Refusal::Misplaced(0),
        b"00001001 4E71 0\n",
    )?;
    assert!(rt;
        same(
            &index,
            b"lagvettu: l: refused 19 at index 0: a list address that is odd or above 16,382\nlagvettu:    1  00001001 4E71 0\n"
        )
    );
    let table = refused(rt.alloc(), b"t", Refusal::BadCommand(5), SOURCE)?;
    assert!(rt;
        same(
            &table,
            b"lagvettu: t: refused 16 at offset 5: a cut, missing or unknown command, a 17th row or a condition over 15\n"
        )
    );
    let past = refused(rt.alloc(), b"s", Refusal::NoSuchLine(9), SOURCE)?;
    assert!(rt;
        same(
            &past,
            b"lagvettu: s: refused 13 at line 9: no such line, or one that is never read\n"
        )
    );
    Ok(())
}

#[test]
fn long_lines_are_cut(rt: HostRuntime) -> Result<(), AllocError> {
    let text = refused(rt.alloc(), b"s", Refusal::NoEncoding(1), &[b'a'; 121])?;
    assert!(rt; text.len() == 89 + 16 + 120 + 1);
    Ok(())
}

#[test]
fn stops_are_said(rt: HostRuntime) -> Result<(), AllocError> {
    let alloc = rt.alloc();
    assert!(rt;
        same(
            not_a_list(alloc, b"x", 3)?.as_slice(),
            b"lagvettu: x: not a list: line 3\n"
        )
    );
    assert!(rt;
        same(
            not_a_sheet(alloc, b"x", 3)?.as_slice(),
            b"lagvettu: x: not a sheet: line 3\n"
        )
    );
    assert!(rt;
        same(
            stopped(alloc, b"x", Stop::NotAList(3), b"")?.as_slice(),
            b"lagvettu: x: not a list: line 3\n"
        )
    );
    assert!(rt;
        same(
            stopped(alloc, b"x", Stop::NotASheet(3), b"")?.as_slice(),
            b"lagvettu: x: not a sheet: line 3\n"
        )
    );
    let refused = Stop::Refused(Which::Input, Refusal::NoLabelNear);
    assert!(rt;
        same(
            stopped(alloc, b"x", refused, b"")?.as_slice(),
            b"lagvettu: x: refused 12: no label at or below the address\n"
        )
    );
    Ok(())
}

#[test]
fn failures_are_said(rt: HostRuntime) -> Result<(), AllocError> {
    let alloc = rt.alloc();
    assert!(rt;
        same(
            failed(alloc, What::Read, b"d", b"Is a directory")?.as_slice(),
            b"lagvettu: cannot read d: Is a directory\n"
        )
    );
    let missing = Error::from_raw_os_error(2);
    assert!(rt;
        same(
            failed_by(alloc, What::Open, b"none", &missing)?.as_slice(),
            b"lagvettu: cannot open none: No such file or directory\n"
        )
    );
    let whole = Error::from(ErrorKind::WriteZero);
    assert!(rt;
        same(
            failed_by(alloc, What::Write, b"standard output", &whole)?.as_slice(),
            b"lagvettu: cannot write standard output: write zero\n"
        )
    );
    assert!(rt; same(reason_of(b"a (os error b (os error 17)"), b"a (os error b"));
    assert!(rt; same(reason_of(b"none"), b"none"));
    assert!(rt; same(no_memory(), b"lagvettu: out of memory\n"));
    Ok(())
}

#[test]
fn wrong_use_is_said(rt: HostRuntime) -> Result<(), AllocError> {
    let alloc = rt.alloc();
    assert!(rt;
        same(
            wrong_use(alloc, b"list", b"no option -x")?.as_slice(),
            b"lagvettu: list: no option -x\nlagvettu: see lagvettu list --help\n"
        )
    );
    assert!(rt; same(no_command(), b"lagvettu: no command; see lagvettu --help\n"));
    assert!(rt;
        same(
            not_a_command(alloc, b"lst")?.as_slice(),
            b"lagvettu: no command lst; see lagvettu --help\n"
        )
    );
    Ok(())
}

#[test]
fn rows_of_check(rt: HostRuntime) -> Result<(), AllocError> {
    let alloc = rt.alloc();
    assert!(rt; same(accepted_row(alloc, b"a.s")?.as_slice(), b"a.s: accepted\n"));
    assert!(rt;
        same(
            refused_row(alloc, b"a.s", Refusal::ManySources)?.as_slice(),
            b"a.s: refused 20 at count 1000000: more than 1,000,000 sources\n"
        )
    );
    Ok(())
}

#[test]
fn words_of_refusals(rt: HostRuntime) {
    assert!(rt; same(words(Refusal::HighTotal), b"a total above 2^33"));
    assert!(rt; counted(Refusal::LongSource(0)) == Some(Counts::Length));
    assert!(rt;
        refusals().starts_with(b"   1  a source over 32,768 bytes\n   2  a byte over 127\n")
    );
    assert!(rt;
        refusals().ends_with(b"  20  more than 1,000,000 sources\n  21  a total above 2^33\n")
    );
}
