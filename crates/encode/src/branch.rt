//! Branches and DBRA: the displacement, of a label in reach or as written.
ghost use Rattle.std.specs.Prelude.{◌≡◌, ◌<◌};
ghost use Rattle.std.specs.Result.{result_ok};
ghost use Rattle.rules.specs.Option.{bind};
ghost use Rattle.rules.specs.Label.{find};
ghost use Rattle.rules.specs.Encode.{reach, written_reading, written_signed, displacement, dbra_row, branch_row};
ghost use Rattle.encode.specs.Code.{code_of};
ghost use Rattle.encode.specs.Near.{Near};
ghost use Rattle.encode.specs.Displacement.{displacement_of, displacement_reading};

use crate::Code;
use label::Labels;
use numeral::Failure;
use numeral::signed::{low_byte, read_signed};
use opcode::register::parse_data_register;
use opcode::word::{branch_word, with_low};

// An operand starting with a sign, read as a signed number, or what failed in it; None without a sign.
// `encode_manual` and `explain` ask for the sign too: one function for the three would want a contract and an edit of its own for one `||`.
#[tactic(auto, using(crate::proofs::Readings::value_is), unfolding(rules::specs::Encode::written_signed, rules::specs::Encode::written_reading, rules::specs::Option::bind, rules::specs::Text::bytes))]
pub fn written_signed(t: &[u8]) -> Option<Result<i32, Failure>>
    ensures reading { result ≡ displacement_of (written_reading t.now) }
    ensures value { bind result result_ok ≡ written_signed t.now }
{
    if text::starts_with(t, b"+") || text::starts_with(t, b"-") {
        Some(read_signed(t, 10, 128))
    } else {
        None
    }
}

// From an instruction to the label that its operand names, if it is in reach.
#[tactic(auto, using(label::proofs::Rows::below_found), unfolding(rules::specs::Option::bind))]
pub fn label_reach(labels: &Labels<'_>, address: u32, t: &[u8]) -> Option<i32>
    requires { Near labels.now.table address }
    ensures { result ≡ bind (find t.now labels.now.table) (λ x. reach x address) }
{
    let target = labels.find(t)?;
    numeral::signed::displacement(target, address)
}

// A branch's displacement: of a label in reach, else as written; what failed in its number is passed on.
#[tactic(auto, unfolding(crate::specs::Displacement::displacement_reading, crate::specs::Displacement::reached, rules::specs::Encode::displacement, rules::specs::Option::bind, rules::specs::Option::or_else))]
pub fn parse_branch_displacement(
    labels: &Labels<'_>,
    address: u32,
    t: &[u8],
) -> Option<Result<i32, Failure>>
    requires { Near labels.now.table address }
    ensures reading { result ≡ displacement_of (displacement_reading labels.now.table address t.now) }
    ensures value { bind result result_ok ≡ displacement labels.now.table address t.now }
{
    match label_reach(labels, address, t) {
        Some(d) => Some(Ok(d)),
        None => written_signed(t),
    }
}

// The condition and the displacement in one word.
#[tactic(auto, unfolding(rules::specs::Encode::branch_row, rules::specs::Option::bind))]
pub fn encode_branch(labels: &Labels<'_>, address: u32, condition: u8, t: &[u8]) -> Option<Code>
    requires { Near labels.now.table address × (condition < 16) }
    ensures { result ≡ code_of (branch_row labels.now.table address condition t.now) }
{
    let d = parse_branch_displacement(labels, address, t)?.ok()?;
    Some(Code::Word(branch_word(condition, low_byte(d))))
}

// DBRA Dn,d: the displacement must be there, and is in no word.
#[tactic(auto, using(crate::proofs::Readings::data_below), unfolding(rules::specs::Encode::dbra_row, rules::specs::Option::bind))]
pub fn encode_dbra(labels: &Labels<'_>, address: u32, s: &[u8], t: &[u8]) -> Option<Code>
    requires { Near labels.now.table address }
    ensures { result ≡ code_of (dbra_row labels.now.table address s.now t.now) }
{
    let n = parse_data_register(s)?;
    parse_branch_displacement(labels, address, t)?.ok()?;
    Some(Code::Word(with_low(0x51C8, n)))
}
