//! The list of a text that `writing` writes, and of no other text.
ghost use Rattle.std.specs.Prelude.{◌≡◌, ◌*◌, ◌<◌, ◌≤◌, ◌^◌, length, IfOk, OnErr};
ghost use Rattle.rules.specs.Assemble.{slices, holding};
ghost use Rattle.listing.specs.Listing.{place_text};
ghost use Rattle.listing.specs.Reading.{digit_in, hex_in, place_in, is_line, read_list, places_in, room_in};
ghost use Rattle.listing.specs.Shown.{place_of};

use crate::writer::Writer;
use crate::writing::LINE;
use numeral::digit::digit_value;
use text::starts_with;

/// The first line that is no word's, or for which there is no room; lines from 1.
#[derive(Clone, Copy, Debug, PartialEq, Eq, Hash)]
pub struct BadLine {
    pub number: usize,
}

// The digit value of a byte, 0 for one that is no digit of the radix; a small letter is told apart where the line is written back.
#[tactic(auto, unfolding(crate::specs::Reading::digit_in))]
fn digit_in(b: u8, radix: u8) -> u8
    ensures { result ≡ digit_in radix b }
{
    let d = digit_value(b);
    if d < radix { d } else { 0 }
}

// The number in a few hexadecimal digits.
fn number_in(t: &[u8]) -> u32
    requires { length t.now ≤ 8 }
    ensures { (result ≡ hex_in 0 t.now) × (result < 16 ^ length t.now) }
{
    let mut v = 0;
    for &b in t {
        v = v * 16 + u32::from(digit_in(b, 16));
    }
    v
}

// What a line shows: a word, its address and its mark.
#[derive(Clone, Copy, Debug, PartialEq, Eq, Hash)]
struct Shown {
    address: u32,
    word: u16,
    mark: u8,
}

// What the front of a text shows, whatever stands there.
#[tactic(auto, unfolding(crate::specs::Reading::place_in))]
fn read_shown(t: &[u8]) -> Shown
    requires { 16 ≤ length t.now }
    ensures { place_of result ≡ place_in t.now }
{
    // Four digits are a word, so the cast loses nothing.
    let word = number_in(&t[9..13]) as u16;
    Shown {
        address: number_in(&t[..8]),
        word,
        mark: digit_in(t[14], 10),
    }
}

// The line that shows it.
fn line_of(shown: Shown) -> [u8; LINE]
    ensures { result ≡ place_text (place_of shown) }
{
    let mut line = [0u8; LINE];
    let mut written = Writer::new(&mut line);
    written.push_place(shown.address, shown.word, shown.mark);
    line
}

// Whether a text begins with a line: the one that the word it shows is written as.
#[tactic(auto, using(crate::proofs::Lines::no_line), unfolding(crate::specs::Reading::is_line))]
fn is_line(t: &[u8]) -> bool
    ensures { result ≡ is_line t.now }
{
    t.len() >= LINE && starts_with(t, &line_of(read_shown(t)))
}

// How many lines there are, if there is room for as many.
fn count_lines(t: &[u8], room: usize) -> Result<usize, BadLine>
    ensures { result ≡ read_list room t.now }
{
    // The number is what is answered, so this counts.
    for n in 0..room {
        let at = LINE * n;
        if at == t.len() {
            return Ok(n);
        }
        if !is_line(&t[at..]) {
            return Err(BadLine { number: n + 1 });
        }
    }
    if LINE * room < t.len() {
        return Err(BadLine { number: room + 1 });
    }
    Ok(room)
}

// Puts the words of the first `count` lines into the slices, which stand side by side, here and below, as C lends them.
fn fill(t: &[u8], count: usize, addresses: &mut [u32], words: &mut [u16], marks: &mut [u8])
    requires { (16 * count ≤ length t.now) × (count ≤ length addresses.old) × (count ≤ length words.old) × (count ≤ length marks.old) }
    ensures { slices addresses.new words.new marks.new ≡ holding (places_in count t.now) (slices addresses.old words.old marks.old) }
{
    // By index: after `iter_mut().zip(..)` nothing is known of the slices.
    for i in 0..count {
        let shown = read_shown(&t[LINE * i..]);
        addresses[i] = shown.address;
        words[i] = shown.word;
        marks[i] = shown.mark;
    }
}

/// Reads a list into the slices, once all lines are seen to be right, and answers how many words there are; or the first line that is
/// wrong, with nothing written.
pub fn read_list(
    t: &[u8],
    addresses: &mut [u32],
    words: &mut [u16],
    marks: &mut [u8],
) -> Result<usize, BadLine>
    ensures answer { result ≡ read_list (room_in (slices addresses.old words.old marks.old)) t.now }
    ensures filled { IfOk result (λ n. slices addresses.new words.new marks.new ≡ holding (places_in n t.now) (slices addresses.old words.old marks.old)) }
    ensures kept { OnErr result (slices addresses.new words.new marks.new ≡ slices addresses.old words.old marks.old) }
{
    let room = addresses.len().min(words.len().min(marks.len()));
    let count = count_lines(t, room)?;
    fill(t, count, addresses, words, marks);
    Ok(count)
}
