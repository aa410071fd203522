//! Help and the version, on standard output.
ghost use Rattle.std.specs.Prelude.{◌≡◌};
ghost use Rattle.outcome.specs.Made.{made};
ghost use Rattle.outcome.specs.Outcome.{Ended};
ghost use Rattle.asked.specs.Printing.{SaysFailure};

use crate::saying::say;
use diagnostic::said::failed_by;
use outcome::output::Output;
use outcome::{Outcome, What};
use std::alloc::Global;
use std::io::Write;
use std::rt::Clock;

/// How standard output is named in what is said.
pub const OUTPUT: &str = "standard output";

/// Puts a text; where that fails it says so of the output that is named so.
pub fn print<C: Clock, O: Output, E: Write>(
    clock: &C,
    alloc: Global,
    text: &[u8],
    name: &str,
    out: &mut O,
    errors: &mut E,
) -> Outcome
    ensures printed { Ended (made text.now) (λ s r. O.puts out.old out.new s r) (out.new ≡ out.old) result }
    ensures said { SaysFailure name.now (E.contents errors.old) (E.contents errors.new) result }
{
    match out.put(text) {
        Ok(()) => Outcome::Accepted,
        Err(error) => {
            say(
                clock,
                errors,
                failed_by(alloc, What::Write, name.as_bytes(), &error),
            );
            Outcome::Failed(What::Write, None, error)
        }
    }
}
