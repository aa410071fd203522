#![tactic(auto)]

//! Sums in square brackets: the readers of sums, products and atoms, which call each other, and what a text says as a number of DC.
ghost use Rattle.std.specs.Prelude.{◌≡◌, ℕ, ◌≤◌, ◌+◌, ◌^◌, length, drop, Some};
ghost use Rattle.std.specs.Option.{option_map};
ghost use Rattle.rules.specs.Number.{ranged, below};
ghost use Rattle.rules.specs.Line.{value_reading};
ghost use Rattle.rules.specs.Sum.{Parse, stepped, is_times, is_sign, is_operator, plain_number, number_first, paren_closed, atom_of, product_of, sum_of, exact_value, bracketed, sum_reading};
ghost use Rattle.numeral.specs.Number.{number_of};
ghost use Rattle.sum.specs.Sum.{step_of, Says};

use numeral::Failure;
use text::ByteTest;

// How deep parentheses nest at most.
const MAX_NESTING: usize = 16;

/// What was read from a place on: its worth, None where a number or a step in it is out of range, and where it ends. A reader answers
/// None where the text is malformed. What is out of range is read on, since a bad digit after it comes first.
#[derive(Clone, Copy, Debug, PartialEq, Eq)]
pub struct Front {
    pub worth: Option<u32>,
    pub end: usize,
}

// ---- Steps.

// One step between two values, exact.
#[tactic(auto, unfolding(rules::specs::Sum::sum_step, rules::specs::Sum::difference_step, rules::specs::Sum::product_step, rules::specs::Number::below))]
fn step(op: u8, x: u32, y: u32) -> Option<u32>
    ensures { result ≡ step_of op x y }
{
    match op {
        b'+' => x.checked_add(y),
        b'-' => x.checked_sub(y),
        _ => x.checked_mul(y),
    }
}

// One step: what is out of range stays so.
#[tactic(auto, unfolding(rules::specs::Sum::stepped))]
fn combined(op: u8, a: Option<u32>, b: Option<u32>) -> Option<u32>
    ensures { result ≡ stepped (step_of op) a b }
{
    step(op, a?, b?)
}

// ---- Bytes.

// The operator of a product.
#[tactic(auto, unfolding(rules::specs::Sum::is_times))]
fn is_times(b: u8) -> bool
    ensures { result ≡ is_times b }
{
    b == b'*'
}

// An operator of a sum.
#[tactic(auto, unfolding(rules::specs::Sum::is_sign))]
fn is_sign(b: u8) -> bool
    ensures { result ≡ is_sign b }
{
    b == b'+' || b == b'-'
}

// A byte that ends a number.
#[tactic(auto, unfolding(rules::specs::Sum::is_operator))]
fn is_operator(b: u8) -> bool
    ensures { result ≡ is_operator b }
{
    is_times(b) || is_sign(b) || b == b'(' || b == b')' || b == b']'
}

// ---- Numbers.

// The bytes that end a number; a type's name, and no value.
struct NumberEnd;

impl ByteTest for NumberEnd {
    ghost test = { is_operator };

    fn passes(b: u8) -> bool {
        is_operator(b)
    }
}

// A number without a sign. The arms of numeral's `read_prefixed` with another reader: why they are not one stands there.
#[tactic(auto, unfolding(rules::specs::Sum::plain_number, rules::specs::Number::by_prefix))]
fn plain_number(t: &[u8]) -> Result<u32, Failure>
    ensures { result ≡ number_of (ranged (below (2 ^ 32)) (plain_number t.now)) }
{
    match numeral::unsigned::hex_tail(t) {
        Some(rest) => numeral::unsigned::read_digits(rest, 16, 1 << 32),
        None => numeral::unsigned::read_digits(t, 10, 1 << 32),
    }
}

// A number in front: out of range is read on, anything else that fails is malformed.
fn read_number(t: &[u8], at: usize) -> Option<Front>
    requires { at ≤ length t.now }
    ensures { Says t.now at (number_first (drop at t.now)) result }
{
    let end = text::skip_to::<NumberEnd>(t, at);
    match plain_number(&t[at..end]) {
        Ok(v) => Some(Front {
            worth: Some(v),
            end,
        }),
        Err(Failure::OutOfRange) => Some(Front { worth: None, end }),
        // No one arm for both: the proof did not close.
        Err(Failure::NoDigits) => None,
        Err(Failure::BadDigit) => None,
    }
}

// ---- The readers of atoms, products and sums.

// What was read in parentheses, and the one that closes it.
#[tactic(auto, using(crate::proofs::Readers::unclosed, crate::proofs::Readers::other_byte, crate::proofs::Readers::shut))]
fn close_paren(t: &[u8], inner: Front) -> Option<Front>
    requires { inner.end ≤ length t.now }
    ensures { (at : ℕ) → (x : Parse) → Says t.now (at + 1) x (Some inner) → Says t.now at (paren_closed x) result }
{
    match &t[inner.end..] {
        [b')', ..] => Some(Front {
            worth: inner.worth,
            end: inner.end + 1,
        }),
        _ => None,
    }
}

// A number, or a sum in parentheses, of which so many more may be opened.
#[cycle(read_atom_read_product_read_sum)]
fn read_atom(t: &[u8], at: usize, depth: usize) -> Option<Front>
    requires { at ≤ length t.now }
    ensures { Says t.now at (atom_of depth (drop at t.now)) result }
{
    if at == t.len() {
        return None;
    }
    if t[at] != b'(' {
        return read_number(t, at);
    }
    if depth == 0 {
        return None;
    }
    close_paren(t, read_sum(t, at + 1, depth - 1)?)
}

// Atoms with `*` between them. One function for products and sums would call its items' reader through a closure, and a cycle of calls
// through one gets no proof.
#[cycle(read_atom_read_product_read_sum)]
fn read_product(t: &[u8], at: usize, depth: usize) -> Option<Front>
    requires { at ≤ length t.now }
    ensures { Says t.now at (product_of depth (drop at t.now)) result }
{
    let Front { mut worth, mut end } = read_atom(t, at, depth)?;
    // Each item says where the next operator stands.
    while end < t.len() {
        let op = t[end];
        if !is_times(op) {
            return Some(Front { worth, end });
        }
        let more = read_atom(t, end + 1, depth)?;
        worth = combined(op, worth, more.worth);
        end = more.end;
    }
    Some(Front { worth, end })
}

// Products with `+` or `-` between them.
#[cycle(read_atom_read_product_read_sum)]
fn read_sum(t: &[u8], at: usize, depth: usize) -> Option<Front>
    requires { at ≤ length t.now }
    ensures { Says t.now at (sum_of depth (drop at t.now)) result }
{
    let Front { mut worth, mut end } = read_product(t, at, depth)?;
    // Each item says where the next operator stands.
    while end < t.len() {
        let op = t[end];
        if !is_sign(op) {
            return Some(Front { worth, end });
        }
        let more = read_product(t, end + 1, depth)?;
        worth = combined(op, worth, more.worth);
        end = more.end;
    }
    Some(Front { worth, end })
}

// ---- The whole text.

// The worth of a whole text in brackets; None where it is malformed.
#[tactic(auto, using(crate::proofs::Readers::no_text, crate::proofs::Readers::no_bracket, crate::proofs::Readers::unread_sum, crate::proofs::Readers::not_last, crate::proofs::Readers::no_end, crate::proofs::Readers::all_read))]
fn read_bracketed(t: &[u8]) -> Option<Option<u32>>
    ensures { result ≡ option_map exact_value (bracketed t.now) }
{
    // A slice pattern, and no Option that `?` could take.
    let [b'[', ..] = t else {
        return None;
    };
    let sum = read_sum(t, 1, MAX_NESTING)?;
    match &t[sum.end..] {
        [b']'] => Some(sum.worth),
        _ => None,
    }
}

/// What a text says that starts with `[`: never that it has no digits.
#[tactic(auto, using(crate::proofs::Readers::sum_none, crate::proofs::Readers::sum_some), unfolding(rules::specs::Sum::sum_reading))]
pub fn parse_sum(t: &[u8]) -> Result<u32, Failure>
    ensures { result ≡ number_of (sum_reading t.now) }
{
    match read_bracketed(t) {
        Some(worth) => worth.ok_or(Failure::OutOfRange),
        None => Err(Failure::BadDigit),
    }
}

/// The value of a DC piece: a sum where `[` is first, else a number.
#[tactic(auto, using(crate::proofs::Values::value_none, crate::proofs::Values::value_sum, crate::proofs::Values::value_number))]
pub fn parse_value(t: &[u8]) -> Result<u32, Failure>
    ensures { result ≡ number_of (value_reading t.now) }
{
    match t {
        [b'[', ..] => parse_sum(t),
        _ => numeral::unsigned::parse_u32(t),
    }
}
