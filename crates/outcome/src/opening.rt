//! Where inputs come from.
ghost use Rattle.std.specs.Prelude.{◌≡◌, ℕ, List, None, IfOk, option_map};
ghost use Rattle.std.specs.declared.option.Option.{Option};
ghost use Rattle.rules.specs.Text.{Text};

use std::io::{Error, Read};

/// Files by their names, and standard input, which has none.
pub trait Opening {
    type Reader: Read + Drop;

    // What the file of a name holds, and standard input where there is no name, as far as that is known.
    ghost holds: { Self → Option Text → Option (List ℕ) } = { λ _ _. None };

    /// Opens the file of a name, or standard input.
    fn open(&self, name: Option<&str>) -> Result<Self::Reader, Error>
        ensures { IfOk result (λ r. Self.Reader.remaining r ≡ holds self.now (option_map (λ s. s.now) name.entry)) };
}
