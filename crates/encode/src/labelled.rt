//! Forms that look a label up: MOVE, MOVEA and JMP.
ghost use Rattle.std.specs.Prelude.{◌≡◌};
ghost use Rattle.std.specs.Option.{option_or};
ghost use Rattle.rules.specs.Encode.{registers_row, high_row, from_indirect, to_indirect, with_label, from_label, to_label, move_rows, movea_row, jumps, jump_row};
ghost use Rattle.encode.specs.Code.{code_of};

use crate::Code;
use crate::form::{
    encode_from_indirect, encode_immediate_high, encode_registers, encode_to_indirect,
};
use label::Labels;
use numeral::unsigned::{after_byte, looks_numeric, parse_u16};
use opcode::register::{parse_address_register, parse_data_register};
use opcode::word::{low_word, with_high, with_low};

// An opcode and the address of the label `name`.
#[tactic(auto, unfolding(rules::specs::Encode::with_label, rules::specs::Option::bind))]
pub fn with_label(labels: &Labels<'_>, opcode: u16, name: &[u8]) -> Option<Code>
    ensures { result ≡ code_of (with_label labels.now.table opcode name.now) }
{
    let address = labels.find(name)?;
    Some(Code::Label(opcode, low_word(address)))
}

// label,Dn.
#[tactic(auto, using(crate::proofs::Readings::data_below), unfolding(rules::specs::Encode::from_label, rules::specs::Option::bind))]
pub fn encode_from_label(labels: &Labels<'_>, s: &[u8], t: &[u8]) -> Option<Code>
    ensures { result ≡ code_of (from_label labels.now.table s.now t.now) }
{
    let n = parse_data_register(t)?;
    with_label(labels, with_high(0x2078, n), s)
}

// Dn,label.
#[tactic(auto, using(crate::proofs::Readings::data_below), unfolding(rules::specs::Encode::to_label, rules::specs::Option::bind))]
pub fn encode_to_label(labels: &Labels<'_>, s: &[u8], t: &[u8]) -> Option<Code>
    ensures { result ≡ code_of (to_label labels.now.table s.now t.now) }
{
    let n = parse_data_register(s)?;
    with_label(labels, with_low(0x23C0, n), t)
}

// MOVE's rows without a label, in their order.
fn encode_unlabelled(s: &[u8], t: &[u8]) -> Option<Code>
    ensures { result ≡ option_or (option_or (option_or (code_of (high_row 0x21FC s.now t.now)) (code_of (from_indirect s.now t.now))) (code_of (to_indirect s.now t.now))) (code_of (registers_row 0x3000 s.now t.now)) }
{
    encode_immediate_high(0x21FC, s, t)
        .or_else(|| encode_from_indirect(s, t))
        .or_else(|| encode_to_indirect(s, t))
        .or_else(|| encode_registers(0x3000, s, t))
}

// MOVE "tries in order". A closure over the labels has no clause, so these two are asked one after another.
#[tactic(auto, using(crate::proofs::Shaped::moved))]
pub fn encode_move(labels: &Labels<'_>, s: &[u8], t: &[u8]) -> Option<Code>
    ensures { result ≡ code_of (move_rows labels.now.table s.now t.now) }
{
    if let Some(code) = encode_unlabelled(s, t) {
        return Some(code);
    }
    if let Some(code) = encode_from_label(labels, s, t) {
        return Some(code);
    }
    encode_to_label(labels, s, t)
}

// #label,An: the name is all after `#`.
#[tactic(auto, using(crate::proofs::Readings::address_below), unfolding(rules::specs::Encode::movea_row, rules::specs::Option::bind, rules::specs::Text::bytes))]
pub fn encode_movea(labels: &Labels<'_>, s: &[u8], t: &[u8]) -> Option<Code>
    ensures { result ≡ code_of (movea_row labels.now.table s.now t.now) }
{
    let name = after_byte(s, b'#')?;
    let n = parse_address_register(t)?;
    with_label(labels, with_high(0x207C, n), name)
}

// Whether JMP has its operand: a number that is read where it looks like one, else a label.
#[tactic(auto, unfolding(rules::specs::Encode::jumps, rules::specs::Encode::is_some))]
fn jumps(labels: &Labels<'_>, t: &[u8]) -> bool
    ensures { result ≡ jumps labels.now.table t.now }
{
    if looks_numeric(t) {
        parse_u16(t).is_ok()
    } else {
        labels.find(t).is_some()
    }
}

// JMP: the operand decides whether there is a word, and not which.
#[tactic(auto, unfolding(rules::specs::Encode::jump_row))]
pub fn encode_jump(labels: &Labels<'_>, t: &[u8]) -> Option<Code>
    ensures { result ≡ code_of (jump_row labels.now.table t.now) }
{
    jumps(labels, t).then_some(Code::Word(0x4EF8))
}
