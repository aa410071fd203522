//! Each text byte for byte, as it was written by hand, and what is refused.
ghost use Rattle.std.specs.Prelude.{◌≡◌, false};

use answer::Refusal;
use make_labels::*;
use outcome::making::Make;
use outcome::{Stop, Unmade, Which};
use station::input::Input;
use station::{SCRIPT, TABLE};
use std::alloc::Global;

// Where a reader stands that has read so many bytes, to the end.
fn at_end(total: usize) -> Input
    ensures { result.failed ≡ false }
{
    Input {
        total,
        more: false,
        failed: false,
    }
}

// What the work makes of a script.
fn made<M: Make<{ SCRIPT }>>(alloc: Global, work: &M, script: &[u8]) -> Result<Vec<u8>, Unmade> {
    let mut front = [0u8; SCRIPT];
    let kept = script.len().min(SCRIPT);
    front[..kept].copy_from_slice(&script[..kept]);
    work.make(alloc, &[0; TABLE], at_end(0), &front, at_end(script.len()))
}

// Whether it makes the text.
fn makes<M: Make<{ SCRIPT }>>(alloc: Global, work: &M, script: &[u8], text: &str) -> bool {
    match made(alloc, work, script) {
        Ok(made) => made.as_slice() == text.as_bytes(),
        Err(_) => false,
    }
}

// Whether it refuses the script so.
fn refuses<M: Make<{ SCRIPT }>>(alloc: Global, work: &M, script: &[u8], refusal: Refusal) -> bool {
    let stopped = Unmade::Stopped(Stop::Refused(Which::Input, refusal));
    made(alloc, work, script).err() == Some(stopped)
}

const SOURCE: &[u8] = b"GO: NOP\n NOP\nLIM: NOP\n";

#[test]
fn labels(rt: HostRuntime) {
    let alloc = rt.alloc();
    let base = 0x1000;
    let lines = "GO 00001000 1\nLIM 00001004 3\n";
    assert!(rt; makes(alloc, &Symbols { base }, SOURCE, lines));
    let value =
        "{\"labels\":[{\"address\":4096,\"line\":1,\"name\":\"GO\"},{\"address\":4100,\"line\":3,\"name\":\"LIM\"}]}\n";
    assert!(rt; makes(alloc, &SymbolsJson { base }, SOURCE, value));
    assert!(rt; makes(alloc, &Symbols { base }, b"", ""));
    assert!(rt; makes(alloc, &SymbolsJson { base }, b"", "{\"labels\":[]}\n"));
}

#[test]
fn the_nearest_label(rt: HostRuntime) {
    let alloc = rt.alloc();
    let (base, address) = (0x1000, 0x1003);
    assert!(rt; makes(alloc, &NearestLabel { base, address }, SOURCE, "GO 3\n"));
    assert!(rt;
        makes(
            alloc,
            &NearestLabelJson { base, address },
            SOURCE,
            "{\"distance\":3,\"name\":\"GO\"}\n"
        )
    );
    let address = 0xfff;
    assert!(rt;
        refuses(
            alloc,
            &NearestLabel { base, address },
            SOURCE,
            Refusal::NoLabelNear
        )
    );
    assert!(rt;
        refuses(
            alloc,
            &NearestLabelJson { base, address },
            SOURCE,
            Refusal::NoLabelNear
        )
    );
}

// A refusal of a line, and one of a script of which only a front is kept.
#[test]
fn refused_scripts(rt: HostRuntime) {
    let alloc = rt.alloc();
    let (base, address) = (0x1000, 0x1003);
    let long = [b'\n'; SCRIPT + 1];
    let cases: [(&[u8], Refusal); 2] = [
        (&long, Refusal::LongSource(SCRIPT + 1)),
        (b"NOP\nORG $40000000", Refusal::HighAddress(2)),
    ];
    for (script, refusal) in cases {
        assert!(rt; refuses(alloc, &Symbols { base }, script, refusal));
        assert!(rt; refuses(alloc, &SymbolsJson { base }, script, refusal));
        assert!(rt; refuses(alloc, &NearestLabel { base, address }, script, refusal));
        assert!(rt; refuses(alloc, &NearestLabelJson { base, address }, script, refusal));
    }
}
