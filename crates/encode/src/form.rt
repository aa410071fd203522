//! Forms of registers and immediates, each by its row of the rules: an operand that can't be read yields no word.
// An immediate is taken apart by `let .. else`, the form that docs/FORMS.md names, and the value narrowed by `as`, which is
// proved to lose nothing: `try_from` would have a way out that is never taken.
ghost use Rattle.std.specs.Prelude.{◌≡◌, ◌/◌, ◌%◌};
ghost use Rattle.rules.specs.Encode.{registers_row, high_row, low_row, from_indirect, to_indirect, muls_rows, cmp_rows, moveq_row, quick_row, tst_row};
ghost use Rattle.encode.specs.Code.{code_of};

use crate::Code;
use numeral::signed::{low_byte, parse_immediate};
use numeral::unsigned::parse_immediate_u16;
use opcode::register::{parse_data_register, parse_indirect_register};
use opcode::word::{moveq_word, quick_word, with_high, with_low, with_registers};

// Dn,Dm.
#[tactic(auto, using(crate::proofs::Readings::data_below), unfolding(rules::specs::Encode::registers_row, rules::specs::Option::bind))]
pub fn encode_registers(opcode: u16, s: &[u8], t: &[u8]) -> Option<Code>
    requires { (opcode / 512 % 8 ≡ 0) × (opcode % 8 ≡ 0) }
    ensures { result ≡ code_of (registers_row opcode s.now t.now) }
{
    let n = parse_data_register(s)?;
    let m = parse_data_register(t)?;
    Some(Code::Word(with_registers(opcode, m, n)))
}

// #i8,Dn.
#[tactic(auto, using(crate::proofs::Readings::data_below, crate::proofs::Readings::imm8_none, crate::proofs::Readings::imm8_is), unfolding(rules::specs::Encode::moveq_row, rules::specs::Option::bind))]
pub fn encode_moveq(s: &[u8], t: &[u8]) -> Option<Code>
    ensures { result ≡ code_of (moveq_row s.now t.now) }
{
    let Some(Ok(v)) = parse_immediate(s) else {
        return None;
    };
    let n = parse_data_register(t)?;
    Some(Code::Word(moveq_word(n, low_byte(v))))
}

// SUBQ and ASL.
#[tactic(auto, using(crate::proofs::Readings::data_below, crate::proofs::Readings::imm8_none, crate::proofs::Readings::imm8_is, crate::proofs::Readings::low_three_of_byte), unfolding(rules::specs::Encode::quick_row, rules::specs::Option::bind))]
pub fn encode_quick(opcode: u16, s: &[u8], t: &[u8]) -> Option<Code>
    requires { (opcode / 512 % 8 ≡ 0) × (opcode % 8 ≡ 0) }
    ensures { result ≡ code_of (quick_row opcode s.now t.now) }
{
    let Some(Ok(v)) = parse_immediate(s) else {
        return None;
    };
    let n = parse_data_register(t)?;
    Some(Code::Word(quick_word(opcode, u16::from(low_byte(v)), n)))
}

// #u16,Dn with the register in bits 9 to 11.
// As below but for `with_high`: one function for both would take the word's maker as a closure, with a clause for it.
#[tactic(auto, using(crate::proofs::Readings::data_below, crate::proofs::Readings::imm16_none, crate::proofs::Readings::imm16_is, crate::proofs::Readings::imm16_below), unfolding(rules::specs::Encode::high_row, rules::specs::Option::bind))]
pub fn encode_immediate_high(opcode: u16, s: &[u8], t: &[u8]) -> Option<Code>
    requires { opcode / 512 % 8 ≡ 0 }
    ensures { result ≡ code_of (high_row opcode s.now t.now) }
{
    let Some(Ok(v)) = parse_immediate_u16(s) else {
        return None;
    };
    let n = parse_data_register(t)?;
    Some(Code::Value(with_high(opcode, n), v as u16))
}

// #u16,Dn with the register in bits 0 to 2.
#[tactic(auto, using(crate::proofs::Readings::data_below, crate::proofs::Readings::imm16_none, crate::proofs::Readings::imm16_is, crate::proofs::Readings::imm16_below), unfolding(rules::specs::Encode::low_row, rules::specs::Option::bind))]
pub fn encode_immediate_low(opcode: u16, s: &[u8], t: &[u8]) -> Option<Code>
    requires { opcode % 8 ≡ 0 }
    ensures { result ≡ code_of (low_row opcode s.now t.now) }
{
    let Some(Ok(v)) = parse_immediate_u16(s) else {
        return None;
    };
    let n = parse_data_register(t)?;
    Some(Code::Value(with_low(opcode, n), v as u16))
}

// (An),Dm.
#[tactic(auto, using(crate::proofs::Readings::data_below, crate::proofs::Readings::indirect_below), unfolding(rules::specs::Encode::from_indirect, rules::specs::Option::bind))]
pub fn encode_from_indirect(s: &[u8], t: &[u8]) -> Option<Code>
    ensures { result ≡ code_of (from_indirect s.now t.now) }
{
    let n = parse_indirect_register(s)?;
    let m = parse_data_register(t)?;
    Some(Code::Word(with_registers(0x2010, m, n)))
}

// Dn,(Am).
#[tactic(auto, using(crate::proofs::Readings::data_below, crate::proofs::Readings::indirect_below), unfolding(rules::specs::Encode::to_indirect, rules::specs::Option::bind))]
pub fn encode_to_indirect(s: &[u8], t: &[u8]) -> Option<Code>
    ensures { result ≡ code_of (to_indirect s.now t.now) }
{
    let n = parse_data_register(s)?;
    let m = parse_indirect_register(t)?;
    Some(Code::Word(with_registers(0x2080, m, n)))
}

// The immediate row, then the registers.
#[tactic(auto, using(crate::proofs::Shaped::tried, crate::proofs::Shaped::shaped_high), unfolding(rules::specs::Encode::muls_rows))]
pub fn encode_muls(s: &[u8], t: &[u8]) -> Option<Code>
    ensures { result ≡ code_of (muls_rows s.now t.now) }
{
    encode_immediate_high(0xC1FC, s, t).or_else(|| encode_registers(0xC1C0, s, t))
}

// The immediate row, whose register stands in the low bits, then the registers.
#[tactic(auto, using(crate::proofs::Shaped::tried, crate::proofs::Shaped::shaped_low), unfolding(rules::specs::Encode::cmp_rows))]
pub fn encode_cmp(s: &[u8], t: &[u8]) -> Option<Code>
    ensures { result ≡ code_of (cmp_rows s.now t.now) }
{
    encode_immediate_low(0x0C80, s, t).or_else(|| encode_registers(0xB040, s, t))
}

// Dn.
#[tactic(auto, using(crate::proofs::Readings::data_below), unfolding(rules::specs::Encode::tst_row, rules::specs::Option::bind))]
pub fn encode_tst(t: &[u8]) -> Option<Code>
    ensures { result ≡ code_of (tst_row t.now) }
{
    let n = parse_data_register(t)?;
    Some(Code::Word(with_low(0x4A80, n)))
}
