//! Whether a script is accepted, as `check` prints it.
ghost use Rattle.std.specs.Prelude.{◌≡◌, true, false, IfOk, MatchResult};
ghost use Rattle.answer.specs.Refusal.{number_of, place_of};
ghost use Rattle.outcome.specs.Made.{made};
ghost use Rattle.outcome.specs.Outcome.{NotMade};
ghost use Rattle.diagnostic.specs.Said.{accepted_row};
ghost use Rattle.make_lists.specs.Listed.{list_of};
ghost use Rattle.make_lists.specs.Checked.{row_of, refused_by, is_accepted};

use crate::assembling::assemble_input;
use crate::listed::Unlisted;
use answer::Refusal;
use diagnostic::said::{accepted_row, refused_row};
use outcome::making::{MakeNamed, Part};
use outcome::{Stop, Unmade, Which, of_which};
use station::input::Input;
use station::{SCRIPT, TABLE};
use std::alloc::{AllocError, Global};

/// Whether a script is accepted at a base, under a branch table where one is lent.
#[derive(Clone, Copy, Debug, PartialEq, Eq, Hash)]
pub struct Checking {
    pub base: u32,
    pub lent: bool,
}

// The row of a script that is accepted.
fn accepted(alloc: Global, name: &[u8]) -> Result<Part, AllocError>
    ensures { IfOk result (λ p. (p.text.items ≡ accepted_row name.now) × (p.accepted ≡ true)) }
{
    let text = accepted_row(alloc, name)?;
    Ok(Part {
        text,
        accepted: true,
    })
}

// The row of one that is refused; a branch table that is refused stops the call.
fn refused(alloc: Global, name: &[u8], refusal: Refusal) -> Result<Part, Unmade>
    ensures { MatchResult result (λ p. (refused_by name.now (number_of refusal) (place_of refusal) ≡ made p.text.items) × (p.accepted ≡ false)) (NotMade (refused_by name.now (number_of refusal) (place_of refusal))) }
{
    let which = of_which(refusal);
    if let Which::Table = which {
        return Err(Unmade::Stopped(Stop::Refused(which, refusal)));
    }
    match refused_row(alloc, name, refusal) {
        Ok(text) => Ok(Part {
            text,
            accepted: false,
        }),
        Err(_) => Err(Unmade::NoMemory),
    }
}

impl MakeNamed<{ SCRIPT }> for Checking {
    ghost promised = { λ work name t s. row_of name (list_of work.lent work.base t s) };

    ghost accepts = { λ work t s. is_accepted (list_of work.lent work.base t s) };

    fn make_named(
        &self,
        alloc: Global,
        name: &str,
        table: &[u8; TABLE],
        branches: Input,
        front: &[u8; SCRIPT],
        input: Input,
    ) -> Result<Part, Unmade> {
        match assemble_input(alloc, self.base, self.lent, table, branches, front, input) {
            Ok(_) => accepted(alloc, name.as_bytes()).map_err(|_| Unmade::NoMemory),
            Err(Unlisted::Refused(refusal)) => refused(alloc, name.as_bytes(), refusal),
            Err(Unlisted::NoMemory) => Err(Unmade::NoMemory),
        }
    }
}
