//! Rows as Unicorn has them (crates/bench/stdout), their JSON, and what stops a call.
use answer::Refusal;
use make_runs::*;
use outcome::making::Make;
use outcome::{Stop, Unmade, Which};
use station::input::{Input, read_whole};
use station::{LIST, TABLE};
use std::alloc::Global;
use std::test::Fail;

const LISTED: &[u8] =
    b"00000004 FFFF 0\n00000000 6002 0\n00000002 4E72 0\n00000004 2014 0\n00000006 E580 0\n\
      00000008 4E72 0\n00000110 8000 0\n00000112 0000 0\n";

const A: [u32; 8] = [0x3FFC, 0x3FFE, 0x4000, 0x111, 0x110, 0x20, 0x114, 0x118];

fn running(tries: Option<Tries>) -> Running {
    Running {
        a: A,
        start: 0,
        limit: 128,
        tries,
    }
}

// What is made of a list's text.
fn make<M: Make<{ LIST }>>(alloc: Global, work: &M, text: &[u8]) -> Result<Vec<u8>, Unmade> {
    let mut front = [0; LIST];
    let mut rest = text;
    let input = read_whole::<_, 8192>(&mut rest, &mut front);
    let none = Input {
        total: 0,
        more: false,
        failed: false,
    };
    if input.failed {
        return Err(Unmade::NoMemory);
    }
    work.make(alloc, &[0; TABLE], none, &front, input)
}

#[test]
fn a_row_for_each_value(rt: HostRuntime) -> Result<(), Fail> {
    let tries = Tries {
        address: 0,
        from: 24576,
        to: 24578,
    };
    let text = make(rt.alloc(), &running(Some(tries)), LISTED);
    let want =
        "24576 word 0 00000000 00000000 00000000 00000000 00000000 00000000 00000000 00000000 00000000 00000\n\
         24577 access 1 00000003 00000000 00000000 00000000 00000000 00000000 00000000 00000000 00000000 00000\n\
         24578 halt 3 00000008 00000000 00000000 00000000 00000000 00000000 00000000 00000000 00000000 00110\n";
    assert!(rt; text.is_ok_and(|text| text.as_slice() == want.as_bytes()));
    Ok(())
}

#[test]
fn one_row(rt: HostRuntime) -> Result<(), Fail> {
    let text = make(rt.alloc(), &running(None), LISTED);
    let want =
        "halt 3 00000008 00000000 00000000 00000000 00000000 00000000 00000000 00000000 00000000 00110\n";
    assert!(rt; text.is_ok_and(|text| text.as_slice() == want.as_bytes()));
    Ok(())
}

#[test]
fn json(rt: HostRuntime) -> Result<(), Fail> {
    let tries = Some(Tries {
        address: 0,
        from: 24577,
        to: 24578,
    });
    let work = RunningJson {
        a: A,
        start: 0,
        limit: 128,
        tries,
    };
    let text = make(rt.alloc(), &work, LISTED);
    let want = "{\"runs\":[{\"data_registers\":[0,0,0,0,0,0,0,0],\"end\":\"access\",\
         \"flags\":{\"carry\":false,\"extend\":false,\"negative\":false,\"overflow\":false,\"zero\":false},\
         \"program_counter\":3,\"steps\":1,\"value\":24577},\
         {\"data_registers\":[0,0,0,0,0,0,0,0],\"end\":\"halt\",\
         \"flags\":{\"carry\":false,\"extend\":false,\"negative\":false,\"overflow\":true,\"zero\":true},\
         \"program_counter\":8,\"steps\":3,\"value\":24578}]}\n";
    assert!(rt; text.is_ok_and(|text| text.as_slice() == want.as_bytes()));
    Ok(())
}

// A list's refusal comes where no value is tried too.
#[test]
fn what_stops_a_call(rt: HostRuntime) {
    let tries = Tries {
        address: 0,
        from: 2,
        to: 1,
    };
    let odd = b"00000000 4E71 0\n00000001 4E71 0\n";
    let stop = Unmade::Stopped(Stop::Refused(Which::Input, Refusal::Misplaced(1)));
    assert!(rt; make(rt.alloc(), &running(Some(tries)), odd).is_err_and(|e| e == stop));
    assert!(rt; make(rt.alloc(), &running(None), odd).is_err_and(|e| e == stop));
    assert!(rt; make(rt.alloc(), &running(Some(tries)), LISTED).is_ok_and(|text| text.is_empty()));
    for (text, line) in [
        (b"00000000 4E71 0\n00000002 4e71 0\n".as_slice(), 2),
        (b"00000000 4E71 0".as_slice(), 1),
    ] {
        let stop = Unmade::Stopped(Stop::NotAList(line));
        assert!(rt; make(rt.alloc(), &running(None), text).is_err_and(|e| e == stop));
    }
}
