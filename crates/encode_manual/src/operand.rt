//! An operand as the manual's call reads it: a number, whatever failed where it can't be read; or other text.
// This crate alone asks so: `encode` takes an immediate apart by `let .. else`, and `explain` asks what failed, of each kind by its own
// reader.
ghost use Rattle.std.specs.Prelude.{◌≡◌};
ghost use Rattle.rules.specs.Number.{imm8, imm16};
ghost use Rattle.rules.specs.Forms.{kind_of, same_kind, text as other_kind};
ghost use Rattle.requests.specs.ManualCall.{imm32, number32};

use numeral::signed::parse_immediate;
use numeral::unsigned::{parse_immediate_u16, parse_immediate_u32, parse_u32};
use opcode::register::{OperandKind, kind_of};

// An immediate of 8 bits, with a sign.
#[inline(always)]
pub fn immediate8(s: &[u8]) -> Option<i32>
    ensures { result ≡ imm8 s.now }
{
    parse_immediate(s)?.ok()
}

// An immediate of 16 bits.
#[inline(always)]
pub fn immediate16(s: &[u8]) -> Option<u32>
    ensures { result ≡ imm16 s.now }
{
    parse_immediate_u16(s)?.ok()
}

// An immediate of 32 bits.
#[inline(always)]
pub fn immediate32(s: &[u8]) -> Option<u32>
    ensures { result ≡ imm32 s.now }
{
    parse_immediate_u32(s)?.ok()
}

// A number of 32 bits.
#[inline(always)]
pub fn number32(s: &[u8]) -> Option<u32>
    ensures { result ≡ number32 s.now }
{
    parse_u32(s).ok()
}

// "Other text": what names a label.
#[inline(always)]
pub fn is_other_text(s: &[u8]) -> bool
    ensures { result ≡ same_kind (kind_of s.now) other_kind }
{
    matches!(kind_of(s), OperandKind::Text)
}
