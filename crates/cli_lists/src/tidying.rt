//! `tidy`: the tidy copy of a script.
ghost use Rattle.std.specs.Prelude.{◌≡◌};
ghost use Rattle.rules.specs.Text.{Text};
ghost use Rattle.cli_run.specs.Input.{IsOf};
ghost use Rattle.cli_lists.specs.Tidied.{tidied, copied, CopyIs};

use answer::Refusal;
use cli_error::Failure;
use cli_run::blame::input_failure;
use cli_run::input::{Contents, Input, SCRIPT};
use cli_run::one::One;
use std::alloc::{AllocError, Global};
use tidied::tidy_copy;

// The copy of a script, which is never longer than the script; or its refusal.
fn tidy_script(alloc: Global, source: &[u8]) -> Result<Result<Vec<u8>, Refusal>, AllocError>
    ensures { CopyIs (tidied source.now) result }
{
    let mut copy = vec![in alloc; 0u8; source.len()]?;
    match tidy_copy(source, &mut copy) {
        Ok(length) => {
            copy.truncate(length);
            Ok(Ok(copy))
        }
        Err(refusal) => Ok(Err(refusal)),
    }
}

// The same of what was read.
fn tidy_contents(
    alloc: Global,
    contents: Contents<'_>,
) -> Result<Result<Vec<u8>, Refusal>, AllocError>
    ensures { (s : Text) → IsOf 32768 s contents.entry → CopyIs (tidied s) result }
{
    match contents {
        Contents::Whole(source) => tidy_script(alloc, source),
        Contents::TooLong(_, total) => Ok(Err(Refusal::LongSource(total))),
    }
}

/// The tidy copy of a script.
#[derive(Clone, Copy)]
pub struct Tidying;

impl One for Tidying {
    ghost kept = { 32768 };

    ghost made = { λ s t b. copied b };

    fn kept() -> usize
        ensures { result ≡ 32768 }
    {
        SCRIPT
    }

    fn make<'a>(
        &self,
        alloc: Global,
        _table: Option<Input<'a>>,
        input: Input<'a>,
    ) -> Result<Vec<u8>, Failure<'a>> {
        match tidy_contents(alloc, input.contents) {
            Ok(Ok(copy)) => Ok(copy),
            Ok(Err(refusal)) => Err(input_failure(input, refusal)),
            Err(_) => Err(Failure::NoMemory),
        }
    }
}
