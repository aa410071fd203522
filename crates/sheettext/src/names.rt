//! The names of files on standard input, one a line, taken out of chunks of any size.
ghost use Rattle.std.specs.Prelude.{◌≡◌, ◌+◌, min, eqb};
ghost use Rattle.text.specs.Pieces.{until};
ghost use Rattle.sheettext.specs.Names.{taken_of, name_after, held_on};

use station::input::keep;
use text::find_byte;

/// As much of a name as is kept: more than any file's has, so that what is kept of a longer one is no file's name either.
pub const NAME: usize = 4097;

/// What is taken from the front of a chunk.
// The flag stays beside the counts: a line that ends here uses and keeps bytes as well, so all three are told at once.
#[derive(Clone, Copy, Debug, PartialEq, Eq, Hash)]
pub struct Taken {
    /// How many bytes of the chunk.
    pub used: usize,
    /// How many bytes of the name are kept.
    pub held: usize,
    /// Byte 10 ended the name.
    pub whole: bool,
}

// How many bytes stand before the first byte 10.
#[tactic(auto, using(crate::proofs::Lines::line_end_is))]
fn line_end(t: &[u8]) -> usize
    ensures { result ≡ until (eqb 10) t.now }
{
    find_byte(t, b'\n').unwrap_or(t.len())
}

// How many bytes a line uses that ends before `end`: byte 10 too, where there is one.
fn used_by(end: usize, length: usize) -> usize
    ensures { result ≡ min length (end + 1) }
{
    length.min(end.saturating_add(1))
}

// How many bytes of a name are kept after `more` bytes.
fn held_after(held: usize, more: usize) -> usize
    ensures { result ≡ min 4097 (held + more) }
{
    NAME.min(held.saturating_add(more))
}

/// Takes the bytes of a name up to byte 10 or the chunk's end, and keeps them after those that are held, as far as there is room.
pub fn take_name(chunk: &[u8], name: &mut [u8; NAME], held: usize) -> Taken
    ensures value { result ≡ taken_of held chunk.now }
    ensures name_after { name.new ≡ name_after held chunk.now name.old }
{
    let end = line_end(chunk);
    keep(name, held, &chunk[..end]);
    Taken {
        used: used_by(end, chunk.len()),
        held: held_after(held, end),
        whole: end < chunk.len(),
    }
}

/// How many bytes are kept of the name that goes on: none after one that is whole.
#[tactic(auto, unfolding(crate::specs::Names::held_on))]
pub fn held_on(taken: Taken) -> usize
    ensures { result ≡ held_on taken }
{
    if taken.whole { 0 } else { taken.held }
}
