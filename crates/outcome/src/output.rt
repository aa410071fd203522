//! Where a text goes.
ghost use Rattle.std.specs.Prelude.{Result, ⊤};
ghost use Rattle.std.specs.declared.io.Error.{Error};
ghost use Rattle.rules.specs.Text.{Text};
ghost use Rattle.outcome.specs.Outcome.{Left};

use crate::writing::write_whole;
use std::io::{Error, Write};
use std::rt::Clock;

/// A stream, or a file as a whole.
pub trait Output {
    // What stands before and after, the text that is put, and the answer.
    ghost puts: { Self → Self → Text → Result ⊤ Error → Type 0 };

    /// Puts a text; where that fails nothing more is put.
    fn put(&mut self, text: &[u8]) -> Result<(), Error>
        ensures { puts self.old self.new text.now result };
}

/// A writer that is waited for where it takes nothing now.
#[derive(Drop)]
pub struct Stream<'a, C, W> {
    pub clock: &'a C,
    pub to: W,
}

impl<'a, C: Clock, W: Write> Output for Stream<'a, C, W> {
    ghost puts = { λ old new text result. Left (W.contents old.to) (W.contents new.to) text result };

    fn put(&mut self, text: &[u8]) -> Result<(), Error> {
        write_whole(self.clock, &mut self.to, text)
    }
}
