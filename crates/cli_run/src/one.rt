//! A command on one input.
ghost use Rattle.std.specs.Prelude.{◌≡◌, ℕ, Option};
ghost use Rattle.cli_error.specs.Answered.{Made};
ghost use Rattle.cli_error.specs.Gives.{Makes};
ghost use Rattle.cli_run.specs.Input.{Named, OfBoth};

use crate::input::Input;
use cli_error::Failure;
use std::alloc::Global;

/// A command on one input, and a branch table if one is named.
pub trait One {
    // How many bytes are kept of the input.
    ghost kept: { ℕ };

    // What is made of the table and the input.
    ghost made: { Self → Option Named → Named → Made };

    /// How many bytes are kept of the input.
    fn kept() -> usize
        ensures { result ≡ kept };

    /// Makes the text of what was read.
    fn make<'a>(
        &self,
        alloc: Global,
        table: Option<Input<'a>>,
        input: Input<'a>,
    ) -> Result<Vec<u8>, Failure<'a>>
        ensures { OfBoth kept table.entry input.entry (λ t b. Makes (made self.now t b) result) };
}
