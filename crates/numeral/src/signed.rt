//! Signed numbers: read from text, as the displacement between two addresses, and their low bits.
ghost use Rattle.std.specs.Prelude.{◌≡◌, ◌^◌, ◌<◌, ◌≤◌, pos, neg_ℤ};
ghost use Rattle.rules.specs.Number.{signed_reading, by_prefix, reading8, immediate, modulo};
ghost use Rattle.rules.specs.Encode.{reach};
ghost use Rattle.numeral.specs.Number.{signed_of, signed_immediate_of};

use crate::Failure;
use crate::unsigned::{after_byte, hex_tail, read_digits, read_number};

// The negative of v. Each `as` of this file narrows, or changes the sign of, what is proved to fit.
fn negated(v: u32) -> i32
    requires { v ≤ 2 ^ 31 }
    ensures { result ≡ neg_ℤ (pos v) }
{
    (-i64::from(v)) as i32
}

/// A number with an optional sign, -bound to bound - 1.
#[tactic(auto, using(crate::proofs::Lead::negative_small, crate::proofs::Lead::negative_read, crate::proofs::Lead::negative_failed, crate::proofs::Lead::positive_small, crate::proofs::Lead::positive_read, crate::proofs::Lead::positive_failed))]
pub fn read_signed(t: &[u8], radix: u32, bound: u64) -> Result<i32, Failure>
    requires { (radix ≤ 16) × (0 < bound) × (bound ≤ 2 ^ 31) }
    ensures { result ≡ signed_of (signed_reading radix bound t.now) }
{
    match after_byte(t, b'-') {
        Some(digits) => Ok(negated(read_digits(digits, radix, bound + 1)?)),
        None => Ok(read_number(t, radix, bound)? as i32),
    }
}

// Hexadecimal after a prefix, else decimal. The arms of `read_prefixed` with another reader: why they are not one stands there.
#[tactic(auto, unfolding(rules::specs::Number::by_prefix))]
fn read_signed_prefixed(t: &[u8], bound: u64) -> Result<i32, Failure>
    requires { (0 < bound) × (bound ≤ 2 ^ 31) }
    ensures { result ≡ signed_of (by_prefix (λ x s. signed_reading x bound s) t.now) }
{
    match hex_tail(t) {
        Some(rest) => read_signed(rest, 16, bound),
        None => read_signed(t, 10, bound),
    }
}

/// An immediate of 8 bits, with a sign; None where the operand is no immediate.
#[tactic(auto, unfolding(rules::specs::Number::immediate, rules::specs::Number::reading8, rules::specs::Text::bytes))]
pub fn parse_immediate(t: &[u8]) -> Option<Result<i32, Failure>>
    ensures { result ≡ signed_immediate_of (immediate reading8 t.now) }
{
    Some(read_signed_prefixed(after_byte(t, b'#')?, 128))
}

/// From an instruction to a label, if a branch's byte can hold it.
#[tactic(auto, using(crate::proofs::Sign::difference, crate::proofs::Sign::difference_fits, crate::proofs::Sign::difference_read, crate::proofs::Sign::too_low, crate::proofs::Sign::too_high, crate::proofs::Sign::in_range, crate::proofs::Sign::within_range), unfolding(rules::specs::Encode::reach))]
pub fn displacement(label: u32, instruction: u32) -> Option<i32>
    requires { (label < 2 ^ 30) × (instruction < 2 ^ 30) }
    ensures { result ≡ reach label instruction }
{
    let d = label as i32 - (instruction + 2) as i32;
    if d < -128 || d > 127 {
        return None;
    }
    Some(d)
}

/// The lowest 8 bits.
#[tactic(auto, using(crate::proofs::Sign::euclid_byte, crate::proofs::Sign::byte_small))]
pub fn low_byte(v: i32) -> u8
    ensures { result ≡ modulo 256 v }
{
    v.rem_euclid(256) as u8
}
