//! An instruction whose tail does not stand joined: by a normalised copy, in an array of one of three lengths.
// `encode_manual` has a copier of its own, and `explain` (form.rt) a third, with one array. One for both encoders, in `instruction`, was
// tried. Handing it a closure that reads the copy: a closure over `&Labels` tells its caller nothing of what it answers, and so the caller
// here got no proof. Handing it a reader by a trait: proved, and a call of `lagvettu_assemble` takes 7 in 1,000 instructions more.
ghost use Rattle.std.specs.Prelude.{◌≤◌, ◌≡◌, length, drop};
ghost use Rattle.rules.specs.Limits.{max_source};
ghost use Rattle.rules.specs.Text.{pieces, joined};
ghost use Rattle.rules.specs.Encode.{encode_operation};
ghost use Rattle.instruction.specs.Split.{operands_in};
ghost use Rattle.opcode.specs.Operation.{ruled};
ghost use Rattle.encode.specs.Code.{code_of};
ghost use Rattle.encode.specs.Near.{Near};
ghost use Rattle.encode.specs.Operations.{Conditioned};

use crate::{Code, encode_tail};
use label::Labels;
use opcode::mnemonic::Operation;

// The words of an operation, by a copy of the tail that starts at `at`.
fn encode_joined(
    labels: &Labels<'_>,
    address: u32,
    o: Operation,
    t: &[u8],
    at: usize,
    scratch: &mut [u8],
) -> Option<Code>
    requires near { Near labels.now.table address × Conditioned o }
    requires at_in_bounds { (at ≤ length t.now) × (length t.now ≤ length scratch.old) }
    ensures { result ≡ code_of (encode_operation labels.now.table address (ruled o) (operands_in (joined (pieces (drop at t.now))))) }
{
    let n = instruction::join_pieces(t, at, scratch);
    encode_tail(labels, address, o, &scratch[..n])
}

// The same, the copy in an array of its own: only so much is cleared as a text of this length may need.
fn encode_in<const ROOM: usize>(
    labels: &Labels<'_>,
    address: u32,
    o: Operation,
    t: &[u8],
    at: usize,
) -> Option<Code>
    requires near { Near labels.now.table address × Conditioned o }
    requires at_in_bounds { (at ≤ length t.now) × (length t.now ≤ ROOM) }
    requires room { ROOM ≤ max_source }
    ensures { result ≡ code_of (encode_operation labels.now.table address (ruled o) (operands_in (joined (pieces (drop at t.now))))) }
{
    let mut scratch = [0u8; ROOM];
    encode_joined(labels, address, o, t, at, &mut scratch)
}

// By the room that the copy takes. It is not inlined, so that its arrays are on the stack only where a tail is copied.
#[inline(never)]
pub fn encode_copied(
    labels: &Labels<'_>,
    address: u32,
    o: Operation,
    t: &[u8],
    at: usize,
) -> Option<Code>
    requires near { Near labels.now.table address × Conditioned o }
    requires at_in_bounds { (at ≤ length t.now) × (length t.now ≤ max_source) }
    ensures { result ≡ code_of (encode_operation labels.now.table address (ruled o) (operands_in (joined (pieces (drop at t.now))))) }
{
    match t.len() {
        0..=64 => encode_in::<64>(labels, address, o, t, at),
        65..=1024 => encode_in::<1024>(labels, address, o, t, at),
        _ => encode_in::<{ rules::MAX_SOURCE }>(labels, address, o, t, at),
    }
}
