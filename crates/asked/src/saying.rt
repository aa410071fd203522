//! A text on standard error. Where that fails there is nowhere left to say so.
ghost use Rattle.std.specs.Prelude.{◌≡◌, IfOk, OnErr};
ghost use Rattle.rules.specs.Text.{Text};
ghost use Rattle.asked.specs.Said.{Says};

use diagnostic::said::no_memory;
use outcome::writing::write_whole;
use std::alloc::AllocError;
use std::io::Write;
use std::rt::Clock;

/// Says a text, or that there was no memory to make it.
pub fn say<C: Clock, E: Write>(clock: &C, errors: &mut E, text: Result<Vec<u8>, AllocError>)
    ensures { (s : Text) → IfOk text (λ t. t.items ≡ s) → Says (E.contents errors.old) (E.contents errors.new) s }
{
    let _ = match text {
        Ok(text) => write_whole(clock, errors, text.as_slice()),
        Err(_) => write_whole(clock, errors, no_memory()),
    };
}
