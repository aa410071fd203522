//! Numbers as words give them: decimal or hexadecimal, by what is asked for or a prefix.
ghost use Rattle.std.specs.Prelude.{◌≡◌, ◌+◌, ◌*◌, ◌≤◌, ◌^◌, SomeIff, IfSome, pos, neg_ℤ};
ghost use Rattle.rules.specs.Number.{value_of, unsigned_reading, without};
ghost use Rattle.cli_args.specs.Number.{address, decimal, digits_number, distance};

use numeral::digit::digit_value;
use numeral::unsigned::{after_byte, hex_tail, read_number};

// The value with one digit more, where it is at most `greatest`.
fn next_value(value: u64, digit: u64, radix: u64, greatest: u64) -> Option<u64>
    ensures { SomeIff result (value * radix + digit ≤ greatest) (value * radix + digit) }
{
    let next = value.checked_mul(radix)?.checked_add(digit)?;
    if next <= greatest { Some(next) } else { None }
}

// One or more digits of the radix.
#[tactic(auto, using(crate::proofs::Reading::empty, crate::proofs::Reading::begin, crate::proofs::Reading::end, crate::proofs::Reading::in_reach, crate::proofs::Reading::bad_digit, crate::proofs::Reading::past, crate::proofs::Reading::step))]
fn read_digits(digits: &[u8], radix: u64, greatest: u64) -> Option<u64>
    ensures value { result ≡ digits_number radix greatest digits.now }
    ensures fits { IfSome result (λ v. v ≤ greatest) }
{
    if digits.is_empty() {
        return None;
    }
    let mut value = 0;
    for i in 0..digits.len() {
        let digit = u64::from(digit_value(digits[i]));
        if digit >= radix {
            return None;
        }
        match next_value(value, digit, radix, greatest) {
            Some(next) => value = next,
            None => return None,
        }
    }
    Some(value)
}

/// A decimal number, or a hexadecimal one after `$` or `0x`; none where it is above `greatest`.
#[tactic(auto, unfolding(crate::specs::Number::decimal))]
pub fn read_decimal(word: &[u8], greatest: u64) -> Option<u64>
    ensures value { result ≡ decimal greatest word.now }
    ensures fits { IfSome result (λ v. v ≤ greatest) }
{
    match hex_tail(word) {
        Some(rest) => read_digits(rest, 16, greatest),
        None => read_digits(word, 10, greatest),
    }
}

// Hexadecimal digits, after a plus sign or not.
#[tactic(auto, using(crate::proofs::Reading::read_value, crate::proofs::Reading::failed_value))]
fn read_hexadecimal(digits: &[u8]) -> Option<u32>
    ensures { result ≡ value_of (unsigned_reading 16 (2 ^ 32) digits.now) }
{
    match read_number(digits, 16, 1 << 32) {
        Ok(number) => Some(number),
        Err(_) => None,
    }
}

/// A hexadecimal number of 32 bits, with or without `$` or `0x`, and then with or without a plus sign.
#[tactic(auto, unfolding(crate::specs::Number::address))]
pub fn read_address(word: &[u8]) -> Option<u32>
    ensures { result ≡ address word.now }
{
    match hex_tail(word) {
        Some(rest) => read_hexadecimal(rest),
        None => read_hexadecimal(word),
    }
}

// Without one plus sign in front.
#[tactic(auto, using(numeral::proofs::Lead::digits_after))]
fn unsigned(word: &[u8]) -> &[u8]
    ensures { result.now ≡ without 43 word.now }
{
    after_byte(word, b'+').unwrap_or(word)
}

// The negative of a value. Each `as` of this file narrows, or changes the sign of, what is proved to fit.
fn negated(value: u64) -> i32
    requires { value ≤ 2 ^ 31 }
    ensures { result ≡ neg_ℤ (pos value) }
{
    (-(value as i64)) as i32
}

/// A decimal number of 32 bits with a sign or without, or a hexadecimal one after `$` or `0x`, which follow the sign.
#[tactic(auto, unfolding(crate::specs::Number::distance))]
pub fn read_distance(word: &[u8]) -> Option<i32>
    ensures { result ≡ distance word.now }
{
    match after_byte(word, b'-') {
        Some(rest) => match read_decimal(rest, 0x8000_0000) {
            Some(value) => Some(negated(value)),
            None => None,
        },
        None => match read_decimal(unsigned(word), 0x7FFF_FFFF) {
            Some(value) => Some(value as i32),
            None => None,
        },
    }
}
