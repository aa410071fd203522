//! What is said and printed, byte for byte as it was by the command in C.
use asked::misusing::misuse;
use asked::printing::print;
use asked::refusing::refuse_names;
use asked::task::{Task, task_of};
use commandline::Wrong;
use outcome::output::Stream;
use outcome::{Outcome, status};
use std::alloc::{AllocError, Global};
use std::test::Fail;

fn words(alloc: Global, line: &str) -> Result<Vec<String>, AllocError> {
    line.split('|')
        .map(|word| String::from_str(alloc, word))
        .try_collect(alloc)
}

#[test]
fn wrong_use_is_said(rt: HostRuntime) -> Result<(), Fail> {
    let words = words(rt.alloc(), "list|-x\0")?;
    let mut said = Vec::new(rt.alloc());
    if let Task::Wrong(wrong) = task_of(rt.alloc(), &words)? {
        let outcome = misuse(&rt, rt.alloc(), &wrong, &mut said);
        assert_eq!(rt; status(&outcome), 2);
    }
    let text = "lagvettu: list: no option -x\nlagvettu: see lagvettu list --help\n";
    assert_eq!(rt; said.as_slice(), text.as_bytes());
    said.clear();
    let outcome = misuse(&rt, rt.alloc(), &Wrong::OutOfMemory, &mut said);
    assert_eq!(rt; status(&outcome), 3);
    assert_eq!(rt; said.as_slice(), b"lagvettu: out of memory\n".as_slice());
    Ok(())
}

#[test]
fn the_version_is_printed(rt: HostRuntime) -> Result<(), Fail> {
    let words = words(rt.alloc(), "assemble|--version")?;
    let mut out = Stream {
        clock: &rt,
        to: Vec::new(rt.alloc()),
    };
    let mut said = Vec::new(rt.alloc());
    if let Task::Print(text) = task_of(rt.alloc(), &words)? {
        let outcome = print(
            &rt,
            rt.alloc(),
            &text,
            "standard output",
            &mut out,
            &mut said,
        );
        assert!(rt; matches!(outcome, Outcome::Accepted));
    }
    assert_eq!(rt; out.to.as_slice(), b"lagvettu 1.0\n".as_slice());
    assert!(rt; said.is_empty());
    Ok(())
}

#[test]
fn names_that_are_no_text(rt: HostRuntime) -> Result<(), Fail> {
    for (line, want) in [
        (
            "check|a|b\0|c\0",
            "lagvettu: cannot open b: the name is not UTF-8\n",
        ),
        (
            "assemble|-o|b\0|a",
            "lagvettu: cannot write b: the name is not UTF-8\n",
        ),
        ("assemble|-o|b|a", ""),
    ] {
        let words = words(rt.alloc(), line)?;
        let mut said = Vec::new(rt.alloc());
        if let Task::Work(asked) = task_of(rt.alloc(), &words)? {
            let refused = refuse_names(&rt, rt.alloc(), &asked, &mut said);
            assert_eq!(rt; refused.is_some(), !want.is_empty());
        }
        assert_eq!(rt; said.as_slice(), want.as_bytes());
    }
    Ok(())
}
