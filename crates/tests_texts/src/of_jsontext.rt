//! Each text byte for byte, as it was written by hand.
use explain::Verdict;
use jsontext::labels::{labels_text, nearest_text};
use jsontext::places::list_text;
use jsontext::runs::RunList;
use jsontext::totals::totals_text;
use jsontext::verdicts::{file_value, files_text};
use machine::{End, Flags, Ran, Status};
use nearest::Nearest;
use sheet::Totals;
use std::test::Fail;

#[test]
fn a_list(rt: HostRuntime) -> Result<(), Fail> {
    let alloc = rt.alloc();
    let addresses = [4096, 4294967294];
    let words = [20081, 65535];
    let marks = [0, 1];
    let text = list_text(alloc, &addresses, &words, &marks, 2)?;
    let want =
        "{\"list\":[{\"address\":4096,\"mark\":0,\"word\":20081},{\"address\":4294967294,\"mark\":1,\"word\":65535}]}\n";
    assert_eq!(rt; text.as_slice(), want.as_bytes());
    let none = list_text(alloc, &addresses, &words, &marks, 0)?;
    assert_eq!(rt; none.as_slice(), "{\"list\":[]}\n".as_bytes());
    Ok(())
}

#[test]
fn labels_and_the_nearest(rt: HostRuntime) -> Result<(), Fail> {
    let alloc = rt.alloc();
    let source = b" ORG $1000\nGO NOP\nLIM NOP\n";
    let text = labels_text(alloc, source, &[11, 18], &[2, 3], &[4096, 4098], &[2, 3])?;
    let want =
        "{\"labels\":[{\"address\":4096,\"line\":2,\"name\":\"GO\"},{\"address\":4098,\"line\":3,\"name\":\"LIM\"}]}\n";
    assert_eq!(rt; text.as_slice(), want.as_bytes());
    let near = Nearest {
        start: 18,
        length: 3,
        distance: 7,
    };
    let text = nearest_text(alloc, source, near)?;
    assert_eq!(rt;
        text.as_slice(),
        "{\"distance\":7,\"name\":\"LIM\"}\n".as_bytes()
    );
    Ok(())
}

// A quote and a byte below 32 in a name are escaped.
#[test]
fn names_are_escaped(rt: HostRuntime) -> Result<(), Fail> {
    let near = Nearest {
        start: 0,
        length: 4,
        distance: 0,
    };
    let text = nearest_text(rt.alloc(), b"A\"\\\x01", near)?;
    assert_eq!(rt;
        text.as_slice(),
        "{\"distance\":0,\"name\":\"A\\\"\\\\\\u0001\"}\n".as_bytes()
    );
    Ok(())
}

#[test]
fn verdicts_of_two_scripts(rt: HostRuntime) -> Result<(), Fail> {
    let alloc = rt.alloc();
    let mut files = Vec::new(alloc);
    files.push(file_value(
        alloc,
        "x.s",
        1,
        &[Verdict::NotInstruction, Verdict::Emitted],
    )?)?;
    files.push(file_value(alloc, "ö.s", 9, &[Verdict::OutOfReach])?)?;
    let text = files_text(alloc, files)?;
    let want =
        "{\"files\":[{\"file\":\"x.s\",\"lines\":[{\"line\":1,\"verdict\":\"not an instruction\"},\
         {\"line\":2,\"verdict\":\"word emitted\"}]},\
         {\"file\":\"ö.s\",\"lines\":[{\"line\":9,\"verdict\":\"displacement out of range\"}]}]}\n";
    assert_eq!(rt; text.as_slice(), want.as_bytes());
    Ok(())
}

#[test]
fn runs(rt: HostRuntime) -> Result<(), Fail> {
    let alloc = rt.alloc();
    let flags = Flags {
        x: false,
        n: true,
        z: false,
        v: false,
        c: true,
    };
    let ran = Ran {
        end: End::OnHalt,
        steps: 18446744073709551615,
        status: Status { flags, pc: 4098 },
    };
    let d = [7, 0, 0, 0, 0, 0, 0, 4294967295];
    let mut list = RunList::new(alloc)?;
    list.add(alloc, None, ran, &d)?;
    list.add(alloc, Some(12), ran, &d)?;
    let text = list.finish()?;
    let want = "{\"runs\":[{\"data_registers\":[7,0,0,0,0,0,0,4294967295],\
         \"end\":\"halt\",\"flags\":{\"carry\":true,\"extend\":false,\"negative\":true,\"overflow\":false,\"zero\":false},\
         \"program_counter\":4098,\"steps\":18446744073709551615},\
         {\"data_registers\":[7,0,0,0,0,0,0,4294967295],\
         \"end\":\"halt\",\"flags\":{\"carry\":true,\"extend\":false,\"negative\":true,\"overflow\":false,\"zero\":false},\
         \"program_counter\":4098,\"steps\":18446744073709551615,\"value\":12}]}\n";
    assert_eq!(rt; text.as_slice(), want.as_bytes());
    let none = RunList::new(alloc)?.finish()?;
    assert_eq!(rt; none.as_slice(), "{\"runs\":[]}\n".as_bytes());
    Ok(())
}

#[test]
fn a_sheet(rt: HostRuntime) -> Result<(), Fail> {
    let totals = Totals {
        skipped: 1,
        org: 2,
        label: 3,
        defined: 4,
        worded: 5,
        wordless: 6,
        ended: 7,
        words: 8,
        marked: 9,
        labels: 10,
        accepted: 11,
        refused: 12,
    };
    let text = totals_text(rt.alloc(), totals)?;
    let want = "{\"accepted\":11,\"data\":4,\"end\":7,\"label\":3,\"labels\":10,\"marked\":9,\
         \"org\":2,\"refused\":12,\"skipped\":1,\"word\":5,\"wordless\":6,\"words\":8}\n";
    assert_eq!(rt; text.as_slice(), want.as_bytes());
    Ok(())
}
