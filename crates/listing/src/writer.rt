//! A text that is put over the front of a lent slice, part after part.
ghost use Rattle.std.specs.Prelude.{◌≡◌, ◌+◌, ◌*◌, ◌<◌, ◌≤◌, ◌∷◌, [], length};
ghost use Rattle.rules.specs.Assemble.{place};
ghost use Rattle.rules.specs.Tally.{list_in};
ghost use Rattle.listing.specs.Listing.{digits_of, decimal, place_text, list_text, refused_text};
ghost use Rattle.listing.specs.Writer.{Begins, Adds};

use crate::writing::{LINE, decimal_places, write_bytes, write_digits, write_place, write_places};

/// A lent slice, and how many bytes of a text are put over its front. It has no model: with one a caller no longer learns what stands in
/// the slice that it lent. The slice is open to who writes in place after the text and counts it in `len`: a method that lends that rest
/// gets no proof, since it passes a `&mut` on through a field that is one.
// No `==`: it holds a `&mut`.
#[derive(Drop)]
pub struct Writer<'a> {
    pub out: &'a mut [u8],
    pub len: usize,
}

impl<'a> Writer<'a> {
    /// A writer into a slice, with nothing written.
    pub fn new(out: &'a mut [u8]) -> Self
        ensures { Begins out.entry result }
    {
        Writer { out, len: 0 }
    }

    /// Writes a byte.
    pub fn push(&mut self, byte: u8)
        requires { self.old.len < length self.old.out.now }
        ensures { Adds (byte ∷ []) self.old self.new }
    {
        self.out[self.len] = byte;
        self.len += 1;
    }

    /// Writes a text.
    pub fn push_bytes(&mut self, text: &[u8])
        requires { self.old.len + length text.now ≤ length self.old.out.now }
        ensures { Adds text.now self.old self.new }
    {
        write_bytes(self.out, self.len, text);
        self.len += text.len();
    }

    /// Writes the last `count` digits of a number.
    pub fn push_digits(&mut self, base: u64, count: usize, n: u64)
        requires base { (0 < base) × (base ≤ 16) }
        requires room { self.old.len + count ≤ length self.old.out.now }
        ensures text { Adds (digits_of base count n) self.old self.new }
        ensures len { self.new.len ≡ self.old.len + count }
    {
        write_digits(self.out, self.len, base, count, n);
        self.len += count;
    }

    /// Writes a number in decimal.
    pub fn push_decimal(&mut self, n: u64)
        requires { self.old.len + 20 ≤ length self.old.out.now }
        ensures text { Adds (decimal n) self.old self.new }
        ensures short { self.new.len ≤ self.old.len + 20 }
    {
        self.push_digits(10, decimal_places(n), n);
    }

    /// Writes the line of a word.
    pub fn push_place(&mut self, address: u32, word: u16, mark: u8)
        requires { self.old.len + 16 ≤ length self.old.out.now }
        ensures text { Adds (place_text (place address word mark)) self.old self.new }
        ensures len { self.new.len ≡ self.old.len + 16 }
    {
        write_place(self.out, self.len, address, word, mark);
        self.len += LINE;
    }

    /// Writes the text of a list.
    // The slices and `count` side by side, as C lends them.
    pub fn push_list(&mut self, addresses: &[u32], words: &[u16], marks: &[u8], count: usize)
        requires lengths { (count ≤ length addresses.now) × (count ≤ length words.now) × (count ≤ length marks.now) }
        requires room { self.old.len + 16 * count ≤ length self.old.out.now }
        ensures text { Adds (list_text (list_in count addresses.now words.now marks.now)) self.old self.new }
        ensures len { self.new.len ≡ self.old.len + 16 * count }
    {
        write_places(self.out, self.len, addresses, words, marks, count);
        self.len += LINE * count;
    }

    /// Writes the line of a refusal.
    pub fn push_refused(&mut self, number: u8, place: usize)
        requires { self.old.len + 64 ≤ length self.old.out.now }
        ensures text { Adds (refused_text number place) self.old self.new }
        ensures short { self.new.len ≤ self.old.len + 64 }
    {
        self.push_bytes(b"refused ");
        self.push_decimal(u64::from(number));
        self.push(b' ');
        // No `From` widens a `usize`.
        self.push_decimal(place as u64);
        self.push(b'\n');
    }
}
