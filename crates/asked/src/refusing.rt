//! Names that are no UTF-8: the system's files are opened by text, so such a name names none.
ghost use Rattle.std.specs.Prelude.{◌≡◌, IfOk};
ghost use Rattle.diagnostic.specs.Said.{failed_text};
ghost use Rattle.asked.specs.Names.{shown};
ghost use Rattle.asked.specs.Refusing.{reason, Unnamed, NamesRefused};

use crate::naming::{shown, unread, unwritten};
use crate::saying::say;
use commandline::Asked;
use diagnostic::said::failed;
use outcome::{Outcome, What, Which};
use std::alloc::{AllocError, Global};
use std::io::{Error, ErrorKind, Write};
use std::rt::Clock;

// Why such a name names no file.
const REASON: &str = "the name is not UTF-8";

// What is said of such a name.
fn no_name(alloc: Global, what: What, name: &str) -> Result<Vec<u8>, AllocError>
    ensures { IfOk result (λ t. t.items ≡ failed_text what (shown name.now) reason) }
{
    failed(alloc, what, shown(name.as_bytes()), REASON.as_bytes())
}

// Says it of a name, by which a file would have been opened or written.
fn refuse_name<C: Clock, E: Write>(
    clock: &C,
    alloc: Global,
    what: What,
    which: Option<Which>,
    name: &str,
    errors: &mut E,
) -> Outcome
    ensures { Unnamed what which name.now (E.contents errors.old) (E.contents errors.new) result }
{
    say(clock, errors, no_name(alloc, what, name));
    Outcome::Failed(what, which, Error::new(ErrorKind::InvalidInput, REASON))
}

/// Says it of the first of the files to be read that has such a name, or else of the output; none where all are names.
pub fn refuse_names<C: Clock, E: Write>(
    clock: &C,
    alloc: Global,
    asked: &Asked<'_>,
    errors: &mut E,
) -> Option<Outcome>
    ensures { NamesRefused asked.now (E.contents errors.old) (E.contents errors.new) result }
{
    match unread(asked) {
        Some(name) => {
            let which = Some(Which::Input);
            Some(refuse_name(clock, alloc, What::Open, which, name, errors))
        }
        None => match unwritten(asked) {
            Some(name) => Some(refuse_name(clock, alloc, What::Write, None, name, errors)),
            None => None,
        },
    }
}
