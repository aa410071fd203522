//! An instruction whose tail does not stand joined: by a normalised copy, in an array of one of three lengths, so that little is
//! cleared for a short text.
// `encode` has a copier of its own, and says why the two are not one. This one serves sizes and words.
ghost use Rattle.std.specs.Prelude.{◌≤◌, length, drop};
ghost use Rattle.rules.specs.Limits.{max_source};
ghost use Rattle.rules.specs.Text.{pieces, joined};
ghost use Rattle.rules.specs.Assemble.{over};
ghost use Rattle.instruction.specs.Split.{operands_in};
ghost use Rattle.encode_manual.specs.Heads.{Conditioned, head_by, form_by};

use crate::reading::{Reader, read_tail};
use instruction::Suffix;
use opcode::mnemonic::Operation;

// What is made of an operation, by a copy of the tail that starts at `at`.
fn read_joined<R: Reader>(
    reader: &R,
    o: Operation,
    x: Suffix,
    t: &[u8],
    at: usize,
    scratch: &mut [u8],
) -> R::Read
    requires conditioned { Conditioned o }
    requires at { at ≤ length t.now }
    requires room { length t.now ≤ length scratch.old }
    ensures { R.reads reader.now (form_by (head_by x o) (operands_in (joined (pieces (drop at t.now))))) result }
{
    let n = instruction::join_pieces(t, at, scratch);
    read_tail(reader, o, x, &scratch[..n])
}

// By a copy in an array of N bytes.
fn read_within<R: Reader, const N: usize>(
    reader: &R,
    o: Operation,
    x: Suffix,
    t: &[u8],
    at: usize,
) -> R::Read
    requires conditioned { Conditioned o }
    requires at { at ≤ length t.now }
    requires room { length t.now ≤ N }
    requires few { N ≤ max_source }
    ensures { R.reads reader.now (form_by (head_by x o) (operands_in (joined (pieces (drop at t.now))))) result }
{
    let mut scratch = [0u8; N];
    read_joined(reader, o, x, t, at, &mut scratch)
}

// By the room that the copy takes. It is not inlined, so that its arrays are on the stack only where a tail is copied.
#[inline(never)]
pub fn read_copied<R: Reader>(reader: &R, o: Operation, x: Suffix, t: &[u8], at: usize) -> R::Read
    requires conditioned { Conditioned o }
    requires at { at ≤ length t.now }
    requires short { length t.now ≤ max_source }
    ensures { R.reads reader.now (form_by (head_by x o) (operands_in (joined (pieces (drop at t.now))))) result }
{
    match t.len() {
        0..=64 => read_within::<R, 64>(reader, o, x, t, at),
        65..=1024 => read_within::<R, 1024>(reader, o, x, t, at),
        _ => read_within::<R, { rules::MAX_SOURCE }>(reader, o, x, t, at),
    }
}
