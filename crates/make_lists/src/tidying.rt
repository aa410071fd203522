//! The tidy copy of a script, as `tidy` prints it.
ghost use Rattle.rules.specs.Text.{Text};
ghost use Rattle.station.specs.Reads.{Reads};
ghost use Rattle.outcome.specs.Made.{told_text};
ghost use Rattle.make_lists.specs.Tidied.{tidied, CopyIs};

use crate::listed::Unlisted;
use answer::Refusal;
use outcome::Unmade;
use outcome::making::Make;
use rules::MAX_SOURCE;
use station::input::Input;
use station::{SCRIPT, TABLE};
use std::alloc::Global;
use tidied::tidy_copy;

/// The tidy copy of a script.
#[derive(Clone, Copy, Debug, PartialEq, Eq, Hash)]
pub struct Tidying;

// The copy of a script, which is never longer than the script.
fn tidy_script(alloc: Global, source: &[u8]) -> Result<Vec<u8>, Unlisted>
    ensures { CopyIs (tidied source.now) result }
{
    let mut copy = vec![in alloc; 0u8; source.len()]?;
    let length = tidy_copy(source, &mut copy)?;
    copy.truncate(length);
    Ok(copy)
}

// The same of a script of which the front is kept.
fn tidy_input(alloc: Global, front: &[u8; SCRIPT], input: Input) -> Result<Vec<u8>, Unlisted>
    ensures { (s : Text) → Reads s front.now input → CopyIs (tidied s) result }
{
    if MAX_SOURCE < input.total {
        return Err(Unlisted::Refused(Refusal::LongSource(input.total)));
    }
    tidy_script(alloc, &front[..input.total])
}

impl Make<{ SCRIPT }> for Tidying {
    ghost promised = { λ work t s. told_text (tidied s) };

    fn make(
        &self,
        alloc: Global,
        _table: &[u8; TABLE],
        _branches: Input,
        front: &[u8; SCRIPT],
        input: Input,
    ) -> Result<Vec<u8>, Unmade> {
        Ok(tidy_input(alloc, front, input)?)
    }
}
