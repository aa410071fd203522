//! A command on several inputs, of which one is in memory at a time.
ghost use Rattle.std.specs.Prelude.{◌≡◌, [], ℕ, IfErr, OnOk};
ghost use Rattle.rules.specs.Text.{Text};
ghost use Rattle.cli_error.specs.declared.What.{What};
ghost use Rattle.cli_error.specs.Gives.{Gives};
ghost use Rattle.cli_run.specs.Input.{OfInput};
ghost use Rattle.cli_run.specs.Items.{Rest, rest_of, Settles, EndsUnread};

use crate::input::Input;
use cli_error::Answer;
use std::alloc::Global;

/// A command on several inputs: each is added in its turn.
pub trait Several {
    // How many bytes are kept of each.
    ghost kept: { ℕ };

    // What the whole call answers, as a function of the inputs that are left.
    ghost answers: { Self → Rest → Type 0 };

    /// How many bytes are kept of each input.
    fn kept() -> usize
        ensures { result ≡ kept };

    /// Adds an input that was read; or answers, if the call ends with it.
    fn add(&mut self, alloc: Global, input: Input<'_>) -> Result<(), Answer>
        ensures goes_on { (f : Rest) → answers self.old f → OfInput kept input.entry (λ b. OnOk result (answers self.new (rest_of f b))) }
        ensures ends { (f : Rest) → answers self.old f → OfInput kept input.entry (λ b. IfErr result (Settles (rest_of f b))) };

    /// Answers when no input is left.
    fn finish(self, alloc: Global) -> Answer
        ensures { (f : Rest) → answers self f → Gives (f []) result };

    // An input that is not read ends the call.
    ghost unread_ends: { (s : Self) (f : Rest) (name : Text) (what : What) (reason : Text) → answers s f → EndsUnread f name what reason };
}
