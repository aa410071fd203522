//! Wrong use: what is said, and what the call comes to.
ghost use Rattle.std.specs.Prelude.{◌≡◌, map, IfSome, string_bytes};
ghost use Rattle.asked.specs.Misusing.{misused, Misuses};

use crate::saying::say;
use crate::wrong::wrong_text;
use commandline::Wrong;
use outcome::Outcome;
use std::alloc::Global;
use std::io::Write;
use std::rt::Clock;

// What wrong words come to.
fn misused(wrong: &Wrong) -> Outcome
    ensures { result ≡ misused wrong.now }
{
    match wrong {
        Wrong::OutOfMemory => Outcome::NoMemory,
        _ => Outcome::WrongUse,
    }
}

/// Says what is wrong with the words.
pub fn misuse<C: Clock, E: Write>(
    clock: &C,
    alloc: Global,
    wrong: &Wrong,
    errors: &mut E,
) -> Outcome
    ensures { Misuses wrong.now (E.contents errors.old) (E.contents errors.new) result }
{
    say(clock, errors, wrong_text(alloc, wrong));
    misused(wrong)
}
