//! What is said of a file that cannot be read or added.
ghost use Rattle.std.specs.Prelude.{◌≡◌, IfErr, OnOk};
ghost use Rattle.make_sheet.specs.Reading.{Telling};

use diagnostic::said::{failed_by, stopped};
use outcome::Outcome;
use serving::telling::say;
use std::alloc::{AllocError, Global};
use std::io::Write;

/// Says what a call comes to, of the file that is named so.
#[tactic(auto, using(serving::proofs::Silent::accepted_silent, serving::proofs::Silent::not_all_silent, serving::proofs::Silent::wrong_use_silent, crate::proofs::Saying::stop_said))]
pub(crate) fn tell<E: Write>(alloc: Global, name: &[u8], outcome: Outcome, errors: &mut E)
    ensures { Telling (E.contents errors.old) (E.contents errors.new) name.now outcome }
{
    match outcome {
        Outcome::Stopped(stop) => say(stopped(alloc, name, stop, &[]), errors),
        Outcome::Failed(what, _, why) => say(failed_by(alloc, what, name, &why), errors),
        Outcome::NoMemory => say(Err(AllocError), errors),
        Outcome::Accepted | Outcome::NotAll | Outcome::WrongUse => {}
    }
}

/// The same where there is no value.
pub(crate) fn told<T, E: Write>(
    alloc: Global,
    name: &[u8],
    done: Result<T, Outcome>,
    errors: &mut E,
) -> Result<T, Outcome>
    ensures same { result ≡ done }
    ensures silent { OnOk result (errors.new ≡ errors.old) }
    ensures said { IfErr result (λ o. Telling (E.contents errors.old) (E.contents errors.new) name.now o) }
{
    match done {
        Ok(value) => Ok(value),
        Err(outcome) => {
            tell(alloc, name, outcome, errors);
            Err(outcome)
        }
    }
}
