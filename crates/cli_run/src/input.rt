//! A text that was read.
ghost use Rattle.std.specs.Prelude.{◌≡◌, ℕ, length, take};
ghost use Rattle.rules.specs.Text.{Text};
ghost use Rattle.cli_run.specs.Input.{IsOf};

/// The bytes that are kept of a script.
pub const SCRIPT: usize = 32768;

/// The bytes that are kept of a list: one more than the longest has.
pub const LIST: usize = 196609;

/// The bytes that are kept of a branch table: as many as the longest has.
pub const TABLE: usize = 97;

/// What was read of a file: all of it, or the front that is kept and how many bytes there are.
#[derive(Clone, Copy)]
pub enum Contents<'a> {
    Whole(&'a [u8]),
    TooLong(&'a [u8], usize),
}

impl<'a> Contents<'a> {
    /// What is kept.
    pub fn front(self) -> &'a [u8]
        ensures { (n : ℕ) (b : Text) → IsOf n b self.entry → result.now ≡ take n b }
    {
        match self {
            Contents::Whole(text) => text,
            Contents::TooLong(front, _) => front,
        }
    }
}

/// A file's name, and what was read of it.
#[derive(Clone, Copy)]
pub struct Input<'a> {
    pub name: &'a str,
    pub contents: Contents<'a>,
}

/// A file of so many bytes, whose front is in a buffer.
pub fn input_of<'a>(name: &'a str, front: &'a [u8], total: usize) -> Input<'a>
    ensures name { result.name.now ≡ name.now }
    ensures contents { (b : Text) → total ≡ length b → take (length front.now) b ≡ take total front.now → IsOf (length front.now) b result.contents }
{
    let contents = if total <= front.len() {
        Contents::Whole(&front[..total])
    } else {
        Contents::TooLong(front, total)
    };
    Input { name, contents }
}
