#![tactic(auto)]

//! One instruction to its words, by value. The functions keep the names of the Rust original.
ghost use Rattle.std.specs.Prelude.{◌≡◌, ◌≤◌, length};
ghost use Rattle.std.specs.Option.{option_copied};
ghost use Rattle.rules.specs.Limits.{max_source};
ghost use Rattle.rules.specs.Line.{instruction_of};
ghost use Rattle.rules.specs.Encode.{encode_operation, encode_by};
ghost use Rattle.opcode.specs.Operation.{ruled};
ghost use Rattle.branches.specs.Branch.{names_in};
ghost use Rattle.instruction.specs.Split.{operands_in, operands_at};
ghost use Rattle.encode.specs.Code.{code_of};
ghost use Rattle.encode.specs.Near.{Near};
ghost use Rattle.encode.specs.Operations.{Conditioned, two_rows};

use branch::{encode_branch, encode_dbra};
use copied::encode_copied;
use form::{encode_cmp, encode_moveq, encode_muls, encode_quick, encode_registers, encode_tst};
use instruction::Operands;
use label::Labels;
use labelled::{encode_jump, encode_move, encode_movea};
use opcode::mnemonic::Operation;

mod form; // form.rt: registers and immediates
mod labelled; // labelled.rt: MOVE, MOVEA, JMP
mod branch; // branch.rt: branches and DBRA
mod copied; // copied.rt: an instruction by a copy of its tail

/// The words of an instruction.
#[derive(Clone, Copy, Debug, PartialEq, Eq, Hash)]
pub enum Code {
    /// One word.
    Word(u16),
    /// A word and a value.
    Value(u16, u16),
    /// A word and a label's address, modulo 65,536.
    Label(u16, u16),
}

// Forms of exactly two operands.
// Labels and address stand side by side: only the displacement of a branch or DBRA reads both. `explain` has a struct of the two, and `Near`
// in its clauses all the same.
#[tactic(auto, unfolding(crate::specs::Operations::two_rows))]
fn encode_two(labels: &Labels<'_>, address: u32, o: Operation, s: &[u8], t: &[u8]) -> Option<Code>
    requires { Near labels.now.table address }
    ensures { result ≡ code_of (two_rows labels.now.table address o s.now t.now) }
{
    match o {
        Operation::Moveq => encode_moveq(s, t),
        Operation::Move => encode_move(labels, s, t),
        Operation::Movea => encode_movea(labels, s, t),
        Operation::Muls => encode_muls(s, t),
        Operation::Subq => encode_quick(0x5180, s, t),
        Operation::Asl => encode_quick(0xE180, s, t),
        Operation::Dbra => encode_dbra(labels, address, s, t),
        Operation::Add => encode_registers(0xD040, s, t),
        Operation::Sub => encode_registers(0x9040, s, t),
        Operation::Cmp => encode_cmp(s, t),
        Operation::Tst
        | Operation::Nop
        | Operation::Simhalt
        | Operation::Jmp
        | Operation::Branch(_) => None,
    }
}

// The words of an operation, its operands `found` in `tail`: counts are exact, but a branch needs one or more and two forms take any.
fn encode_operation(
    labels: &Labels<'_>,
    address: u32,
    o: Operation,
    found: Operands,
    tail: &[u8],
) -> Option<Code>
    requires near { Near labels.now.table address × Conditioned o }
    requires found_value { found ≡ operands_at tail.now }
    ensures { result ≡ code_of (encode_operation labels.now.table address (ruled o) (operands_in tail.now)) }
{
    let s = &tail[found.first.start..found.first.end];
    match o {
        Operation::Nop => Some(Code::Word(0x4E71)),
        Operation::Simhalt => Some(Code::Word(0x4E72)),
        Operation::Branch(condition) => {
            if found.count == 0 {
                return None;
            }
            encode_branch(labels, address, condition, s)
        }
        Operation::Tst => {
            if found.count != 1 {
                return None;
            }
            encode_tst(s)
        }
        Operation::Jmp => {
            if found.count != 1 {
                return None;
            }
            encode_jump(labels, s)
        }
        _ => {
            if found.count != 2 {
                return None;
            }
            let t = &tail[found.second.start..found.second.end];
            encode_two(labels, address, o, s, t)
        }
    }
}

// The words of an operation, its operands cut from `tail`.
fn encode_tail(labels: &Labels<'_>, address: u32, o: Operation, tail: &[u8]) -> Option<Code>
    requires { Near labels.now.table address × Conditioned o }
    ensures { result ≡ code_of (encode_operation labels.now.table address (ruled o) (operands_in tail.now)) }
{
    let found = instruction::split_operands(tail);
    encode_operation(labels, address, o, found, tail)
}

/// The words of the instruction whose text is `t`, at `address`, by the names in use (`branches`); None where it has none.
// Its tail is copied only where it does not stand joined. Inlined into the loops that count and that put words.
#[inline(always)]
pub fn encode_instruction(
    names: Option<&[u8]>,
    labels: &Labels<'_>,
    address: u32,
    t: &[u8],
) -> Option<Code>
    requires { Near labels.now.table address × (length t.now ≤ max_source) }
    ensures { result ≡ code_of (encode_by (names_in (option_copied names.entry)) labels.now.table address (instruction_of t.now)) }
{
    let head = instruction::read_head(t);
    let o = branches::find_operation_by(names, &t[head.start..head.end])?;
    let start = text::skip_blanks(t, head.tail);
    if instruction::is_joined(t, start) {
        return encode_tail(labels, address, o, &t[start..]);
    }
    encode_copied(labels, address, o, t, head.tail)
}
