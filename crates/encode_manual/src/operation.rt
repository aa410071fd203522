//! The form of an operation with a suffix, by how many operands there are; none has more than two.
ghost use Rattle.std.specs.Prelude.{◌≡◌, [], ◌∷◌};
ghost use Rattle.instruction.specs.Split.{operands_in, operands_at};
ghost use Rattle.encode_manual.specs.Form.{Reads};
ghost use Rattle.encode_manual.specs.Heads.{Conditioned, head_by, form_by, manual_condition};

use crate::form::{
    Form, branch, compare, decrement, jump, move_long, multiply, point, quick, quick_move,
    registers, test,
};
use instruction::{Operands, Suffix};
use opcode::mnemonic::Operation;

// The manual's condition by that of the stations' call: BPL is 10 and BMI 11, not 8 and 9.
#[inline(always)]
fn manual_condition(c: u8) -> u8
    ensures { result ≡ manual_condition c }
{
    match c {
        8 => 10,
        9 => 11,
        _ => c,
    }
}

// No operand.
#[inline(always)]
fn bare<'t>(o: Operation, x: Suffix) -> Option<Form<'t>>
    ensures { Reads (form_by (head_by x o) []) result }
{
    match x {
        Suffix::None => match o {
            Operation::Nop => Some(Form::Word(0x4E71)),
            _ => None,
        },
        _ => None,
    }
}

// One.
#[inline(always)]
fn one<'t>(o: Operation, x: Suffix, s: &'t [u8]) -> Option<Form<'t>>
    requires { Conditioned o }
    ensures { Reads (form_by (head_by x o) (s.now ∷ [])) result }
{
    match x {
        Suffix::None => match o {
            Operation::Branch(c) => branch(manual_condition(c), s),
            Operation::Jmp => jump(s),
            _ => None,
        },
        Suffix::Long => match o {
            Operation::Tst => test(s),
            _ => None,
        },
        _ => None,
    }
}

// Two.
#[inline(always)]
fn two<'t>(o: Operation, x: Suffix, s: &'t [u8], t: &'t [u8]) -> Option<Form<'t>>
    ensures { Reads (form_by (head_by x o) (s.now ∷ t.now ∷ [])) result }
{
    match x {
        Suffix::None => match o {
            Operation::Moveq => quick_move(s, t),
            Operation::Dbra => decrement(s, t),
            _ => None,
        },
        Suffix::Word => match o {
            Operation::Move => registers(0x3000, s, t),
            Operation::Add => registers(0xD040, s, t),
            Operation::Sub => registers(0x9040, s, t),
            Operation::Cmp => registers(0xB040, s, t),
            Operation::Muls => multiply(s, t),
            _ => None,
        },
        Suffix::Long => match o {
            Operation::Move => move_long(s, t),
            Operation::Movea => point(s, t),
            Operation::Cmp => compare(s, t),
            Operation::Subq => quick(0x5180, s, t),
            Operation::Asl => quick(0xE180, s, t),
            _ => None,
        },
        _ => None,
    }
}

// The form of an operation, its operands `found` in `tail`.
#[inline(always)]
pub fn read_operands<'t>(
    o: Operation,
    x: Suffix,
    found: Operands,
    tail: &'t [u8],
) -> Option<Form<'t>>
    requires conditioned { Conditioned o }
    requires found_value { found ≡ operands_at tail.now }
    ensures { Reads (form_by (head_by x o) (operands_in tail.now)) result }
{
    let count = found.count;
    if count == 0 {
        return bare(o, x);
    }
    let s = &tail[found.first.start..found.first.end];
    if count == 1 {
        return one(o, x, s);
    }
    if count != 2 {
        return None;
    }
    two(o, x, s, &tail[found.second.start..found.second.end])
}
