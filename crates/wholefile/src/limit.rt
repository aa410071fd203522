//! How large the system lets a file become, as it tells each process.
ghost use Rattle.std.specs.Prelude.{◌≡◌, option_map, option_copied};
ghost use Rattle.wholefile.specs.Limit.{head, after, behind, first_piece, number, limit_in};

use numeral::unsigned::read_digits;
use text::{skip_piece, starts_with, trimmed};

// What the line of this limit begins with.
const HEAD: &[u8] = b"Max file size";

// What follows the head, where the text begins with it.
#[tactic(auto, using(crate::proofs::Heads::starts_long), unfolding(rules::specs::Text::bytes))]
fn after_head(text: &[u8]) -> Option<&[u8]>
    ensures { option_copied result ≡ after head text.now }
{
    if starts_with(text, HEAD) {
        Some(&text[HEAD.len()..])
    } else {
        None
    }
}

// What follows the first place where the text has the head.
fn behind_head(text: &[u8]) -> Option<&[u8]>
    ensures { option_copied result ≡ behind head text.now }
{
    for i in 0..text.len() {
        match after_head(&text[i..]) {
            Some(rest) => return Some(rest),
            None => {}
        }
    }
    None
}

// What stands in front of the second blanks, or between the first ones.
fn first_piece(text: &[u8]) -> &[u8]
    ensures { result.now ≡ first_piece text.now }
{
    let rest = trimmed(text);
    &rest[..skip_piece(rest, 0)]
}

// A number of decimal digits, below 2^32.
fn number(word: &[u8]) -> Option<u32>
    ensures { result ≡ number word.now }
{
    match read_digits(word, 10, 1 << 32) {
        Ok(n) => Some(n),
        Err(_) => None,
    }
}

/// The limit that the text tells, in bytes; none where it tells none below 2^32.
pub fn limit_in(text: &[u8]) -> Option<u32>
    ensures { result ≡ limit_in text.now }
{
    match behind_head(text) {
        Some(rest) => number(first_piece(rest)),
        None => None,
    }
}
