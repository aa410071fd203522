//! Unsigned numbers: digits below a bound, with a plus sign, after a prefix, as an immediate.
ghost use Rattle.std.specs.Prelude.{◌≡◌, ◌^◌, ◌≤◌, ◌||◌, [], ◌∷◌};
ghost use Rattle.rules.specs.Number.{some_digits, ranged, below, unsigned_reading, hex_tail, by_prefix, reading32, reading16, immediate};
ghost use Rattle.std.specs.Option.{option_map};
ghost use Rattle.rules.specs.Text.{after};
ghost use Rattle.rules.specs.Encode.{all_digits, is_some};
ghost use Rattle.numeral.specs.Number.{failure_of, number_of, immediate_of, digits_only, past_bound, prefix_length};

use crate::Failure;
use crate::digit::digit_value;

/// One or more digits of the radix, their value below the bound; or what failed: no digits, a bad digit, or a value not below the bound.
// Their value is taken up to the first that is not below the bound, so that no number of digits overflows; the bytes after it are only
// looked at: so the loop is by place. `as` narrows a value below the bound.
#[tactic(auto, using(crate::proofs::Reading::empty, crate::proofs::Reading::begin, crate::proofs::Reading::end, crate::proofs::Reading::bad_digit_lem, crate::proofs::Reading::past, crate::proofs::Reading::step))]
pub fn read_digits(t: &[u8], radix: u32, bound: u64) -> Result<u32, Failure>
    requires { (radix ≤ 16) × (bound ≤ 2 ^ 32) }
    ensures { result ≡ number_of (ranged (below bound) (some_digits radix t.now)) }
{
    if t.is_empty() {
        return Err(Failure::NoDigits);
    }
    let r = u64::from(radix);
    let mut v: u64 = 0;
    for i in 0..t.len() {
        let d = u64::from(digit_value(t[i]));
        if d >= r {
            return Err(Failure::BadDigit);
        }
        v = v * r + d;
        if v >= bound {
            return Err(past_bound(&t[i + 1..], radix));
        }
    }
    Ok(v as u32)
}

// What failed where the value has left the type: a bad digit, however late, comes before a value out of range.
#[tactic(auto, unfolding(crate::specs::Number::past_bound))]
fn past_bound(rest: &[u8], radix: u32) -> Failure
    ensures { result ≡ failure_of (past_bound radix rest.now) }
{
    if all_digits(rest, radix) {
        Failure::OutOfRange
    } else {
        Failure::BadDigit
    }
}

// Whether all bytes are digits of the radix; so too where there is no byte.
#[tactic(auto, unfolding(crate::specs::Number::digits_only))]
fn all_digits(t: &[u8], radix: u32) -> bool
    ensures { result ≡ digits_only radix t.now }
{
    t.iter().all(|&b| u32::from(digit_value(b)) < radix)
}

/// What follows the byte `b` in front; None where another byte or none stands there.
#[tactic(auto, using(crate::proofs::Lead::found, crate::proofs::Lead::other, crate::proofs::Lead::no_byte))]
pub fn after_byte(t: &[u8], b: u8) -> Option<&[u8]>
    ensures { option_map (λ rest. rest.now) result ≡ after (b ∷ []) t.now }
{
    match t {
        [first, rest @ ..] if *first == b => Some(rest),
        _ => None,
    }
}

/// Digits after an optional plus sign; or what failed: no digits, a bad digit, or a value not below the bound.
#[tactic(auto, using(crate::proofs::Lead::digits_after), unfolding(rules::specs::Number::unsigned_reading))]
pub fn read_number(t: &[u8], radix: u32, bound: u64) -> Result<u32, Failure>
    requires { (radix ≤ 16) × (bound ≤ 2 ^ 32) }
    ensures { result ≡ number_of (unsigned_reading radix bound t.now) }
{
    read_digits(after_byte(t, b'+').unwrap_or(t), radix, bound)
}

/// How many bytes a hexadecimal prefix takes: 1 for `$`, 2 for `0x`, 0 where there is none.
// No Option: it is a length, and that of no prefix is 0.
#[tactic(auto, using(crate::proofs::Prefix::one, crate::proofs::Prefix::two, crate::proofs::Prefix::neither, crate::proofs::Prefix::no_byte, crate::proofs::Prefix::one_byte))]
pub fn prefix_length(t: &[u8]) -> usize
    ensures { result ≡ prefix_length t.now }
{
    match t {
        [b'$', ..] => 1,
        [b'0', b'x', ..] => 2,
        _ => 0,
    }
}

/// What follows a hexadecimal prefix; None where there is none.
#[tactic(auto, using(crate::proofs::Prefix::prefix_in, crate::proofs::Prefix::tail_plain, crate::proofs::Prefix::tail_hex))]
pub fn hex_tail(t: &[u8]) -> Option<&[u8]>
    ensures { option_map (λ rest. rest.now) result ≡ hex_tail t.now }
{
    match prefix_length(t) {
        0 => None,
        n => Some(&t[n..]),
    }
}

// Hexadecimal after a prefix, else decimal. Two calls, so that each loop over digits has its radix as a constant.
// `read_signed_prefixed` and `plain_number` of `sum` have these two arms too, with readers of their own: one function for the three would
// take the reader as a trait with its law, which is longer.
#[tactic(auto, unfolding(rules::specs::Number::by_prefix))]
fn read_prefixed(t: &[u8], bound: u64) -> Result<u32, Failure>
    requires { bound ≤ 2 ^ 32 }
    ensures { result ≡ number_of (by_prefix (λ x s. unsigned_reading x bound s) t.now) }
{
    match hex_tail(t) {
        Some(rest) => read_number(rest, 16, bound),
        None => read_number(t, 10, bound),
    }
}

/// A number of ORG or DC, 32 bits.
#[tactic(auto, unfolding(rules::specs::Number::reading32))]
pub fn parse_u32(t: &[u8]) -> Result<u32, Failure>
    ensures { result ≡ number_of (reading32 t.now) }
{
    read_prefixed(t, 1 << 32)
}

/// A number of 16 bits, as JMP has it.
// One reader's answer for all widths: who wants 16 bits narrows what is proved to fit.
#[tactic(auto, unfolding(rules::specs::Number::reading16))]
pub fn parse_u16(t: &[u8]) -> Result<u32, Failure>
    ensures { result ≡ number_of (reading16 t.now) }
{
    read_prefixed(t, 1 << 16)
}

/// An immediate of 16 bits; None where the operand is no immediate.
// A u32, as `parse_u16` answers.
#[tactic(auto, unfolding(rules::specs::Number::immediate, rules::specs::Text::bytes))]
pub fn parse_immediate_u16(t: &[u8]) -> Option<Result<u32, Failure>>
    ensures { result ≡ immediate_of (immediate reading16 t.now) }
{
    Some(parse_u16(after_byte(t, b'#')?))
}

/// An immediate of 32 bits; None where the operand is no immediate.
#[tactic(auto, unfolding(rules::specs::Number::immediate, rules::specs::Text::bytes))]
pub fn parse_immediate_u32(t: &[u8]) -> Option<Result<u32, Failure>>
    ensures { result ≡ immediate_of (immediate reading32 t.now) }
{
    Some(parse_u32(after_byte(t, b'#')?))
}

/// Whether JMP takes its operand for a number, and not for a label.
#[tactic(auto, using(crate::proofs::Prefix::unprefixed, crate::proofs::Prefix::prefixed, crate::proofs::Reading::decimal_digits), unfolding(rules::specs::Encode::is_some))]
pub fn looks_numeric(t: &[u8]) -> bool
    ensures { result ≡ (is_some (hex_tail t.now) || all_digits t.now) }
{
    prefix_length(t) != 0 || all_digits(t, 10)
}
