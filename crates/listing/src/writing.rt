//! A list as text, a line for each word; and the line of a refusal.
ghost use Rattle.std.specs.Prelude.{◌≡◌, ◌+◌, ◌*◌, ◌<◌, ◌≤◌, length};
ghost use Rattle.rules.specs.Assemble.{place, over};
ghost use Rattle.rules.specs.Tally.{list_in};
ghost use Rattle.listing.specs.Listing.{digit_byte, digits_of, decimal_places, decimal, mark_byte, place_text, list_text, refused_text};
ghost use Rattle.text.specs.Spans.{over_from};

use crate::writer::Writer;

/// The bytes that a line takes.
pub const LINE: usize = 16;

// An upper-case digit.
#[tactic(auto, unfolding(crate::specs::Listing::digit_byte))]
fn digit_byte(d: u64) -> u8
    requires { d < 16 }
    ensures { result ≡ digit_byte d }
{
    // It is below 16, so the cast loses nothing.
    let d = d as u8;
    if d < 10 { b'0' + d } else { b'A' - 10 + d }
}

/// Puts the last `count` digits of n at an index, from the last one on.
pub fn write_digits(out: &mut [u8], at: usize, base: u64, count: usize, n: u64)
    requires { (0 < base) × (base ≤ 16) × (at + count ≤ length out.old) }
    ensures { out.new ≡ over_from at (digits_of base count n) out.old }
{
    let mut rest = n;
    // By index: after `iter_mut().rev()` nothing is known of the slice.
    for i in (0..count).rev() {
        out[at + i] = digit_byte(rest % base);
        rest /= base;
    }
}

/// Puts a text at an index.
pub fn write_bytes(out: &mut [u8], at: usize, text: &[u8])
    requires { at + length text.now ≤ length out.old }
    ensures { out.new ≡ over_from at text.now out.old }
{
    // By index, and no `copy_from_slice`: through a `Writer` the compiler does not know the two apart, and an archive would ask C for `memmove`.
    for i in 0..text.len() {
        out[at + i] = text[i];
    }
}

// A mark's digit.
#[tactic(auto, unfolding(crate::specs::Listing::mark_byte))]
pub(crate) fn mark_byte(mark: u8) -> u8
    ensures { result ≡ mark_byte mark }
{
    if mark < 10 { b'0' + mark } else { b'?' }
}

/// Puts the line of a word at an index.
// Over the slice and the index, as is the loop over it: with the writer passed on for each line, a list took twice the time.
pub fn write_place(out: &mut [u8], at: usize, address: u32, word: u16, mark: u8)
    requires { at + 16 ≤ length out.old }
    ensures { out.new ≡ over_from at (place_text (place address word mark)) out.old }
{
    write_digits(out, at, 16, 8, u64::from(address));
    out[at + 8] = b' ';
    write_digits(out, at + 9, 16, 4, u64::from(word));
    out[at + 13] = b' ';
    out[at + 14] = mark_byte(mark);
    out[at + 15] = b'\n';
}

// Puts the lines of the first `count` words at an index.
pub(crate) fn write_places(
    out: &mut [u8],
    at: usize,
    addresses: &[u32],
    words: &[u16],
    marks: &[u8],
    count: usize,
)
    requires lengths { (count ≤ length addresses.now) × (count ≤ length words.now) × (count ≤ length marks.now) }
    requires room { at + 16 * count ≤ length out.old }
    ensures { out.new ≡ over_from at (list_text (list_in count addresses.now words.now marks.now)) out.old }
{
    // One index for three slices: a `zip` of a `zip` is no plainer.
    for i in 0..count {
        write_place(out, at + LINE * i, addresses[i], words[i], marks[i]);
    }
}

/// Puts the text of a list at the front, and answers its length.
// The slices and `count` side by side, as C lends them.
pub fn write_list(
    addresses: &[u32],
    words: &[u16],
    marks: &[u8],
    count: usize,
    out: &mut [u8],
) -> usize
    requires { (count ≤ length addresses.now) × (count ≤ length words.now) × (count ≤ length marks.now) × (16 * count ≤ length out.old) }
    ensures { (result ≡ 16 * count) × (out.new ≡ over (list_text (list_in count addresses.now words.now marks.now)) out.old) }
{
    let mut text = Writer::new(out);
    text.push_list(addresses, words, marks, count);
    text.len
}

// How many digits a number has in decimal.
pub(crate) fn decimal_places(n: u64) -> usize
    ensures { (result ≡ decimal_places n) × (result ≤ 20) }
{
    let mut count = 1;
    let mut rest = n;
    // How often it divides is what is answered, so this is no `for`.
    while rest >= 10 {
        count += 1;
        rest /= 10;
    }
    count
}

/// Puts a number in decimal at an index, and answers the index after it.
pub fn write_decimal(out: &mut [u8], at: usize, n: u64) -> usize
    requires { at + 20 ≤ length out.old }
    ensures { (result ≡ at + length (decimal n)) × (result ≤ at + 20) × (out.new ≡ over_from at (decimal n) out.old) }
{
    let count = decimal_places(n);
    write_digits(out, at, 10, count, n);
    at + count
}

/// Puts the line of a refusal at the front, and answers its length.
pub fn write_refused(number: u8, place: usize, out: &mut [u8]) -> usize
    requires { 64 ≤ length out.old }
    ensures { (result ≡ length (refused_text number place)) × (result ≤ 64) × (out.new ≡ over (refused_text number place) out.old) }
{
    let mut text = Writer::new(out);
    text.push_refused(number, place);
    text.len
}
