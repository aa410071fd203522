//! Trying the examples of a page.
ghost use Rattle.std.specs.Prelude.{◌≡◌, ◌++◌, map, IfOk, OnOk};
ghost use Rattle.rules.specs.Text.{Text};
ghost use Rattle.pages.specs.Page.{shown};
ghost use Rattle.pages.specs.Called.{Gives};
ghost use Rattle.pages.specs.Tried.{failure, failing, Tried};

use crate::Example;
use crate::calling::call;
use crate::texts::holds;
use std::alloc::{AllocError, Global};
use std::rt::Clock;

/// An example that does not hold: its line, and what came instead.
#[derive(Drop)]
pub struct Failed<'a> {
    pub line: &'a [u8],
    pub got: Vec<u8>,
}

// Tells of an example that does not hold.
#[tactic(auto, using(crate::proofs::Tries::held, crate::proofs::Tries::failed))]
fn judge<'a>(
    alloc: Global,
    example: &Example<'a>,
    got: Vec<u8>,
    failures: &mut Vec<Failed<'a>>,
) -> Result<(), AllocError>
    ensures { OnOk result (map (λ f. failure f) failures.new.items ≡ map (λ f. failure f) failures.old.items ++ failing (shown example.now) got.items) }
{
    if holds(alloc, example, &got)? {
        return Ok(());
    }
    failures.push(Failed {
        line: example.line,
        got,
    })?;
    Ok(())
}

// Tries an example.
fn try_one<'a, C: Clock>(
    clock: &C,
    alloc: Global,
    example: &Example<'a>,
    failures: &mut Vec<Failed<'a>>,
) -> Result<(), AllocError>
    ensures { OnOk result ((got : Text) × Gives (shown example.now) got × (map (λ f. failure f) failures.new.items ≡ map (λ f. failure f) failures.old.items ++ failing (shown example.now) got)) }
{
    let got = call(clock, alloc, example)?;
    judge(alloc, example, got, failures)?;
    Ok(())
}

/// Tries each example, and answers those that do not hold.
#[tactic(auto, using(crate::proofs::Tries::last))]
pub fn try_examples<'a, C: Clock>(
    clock: &C,
    alloc: Global,
    examples: &[Example<'a>],
) -> Result<Vec<Failed<'a>>, AllocError>
    ensures { IfOk result (λ v. Tried (map (λ e. shown e) examples.now) (map (λ f. failure f) v.items)) }
{
    let mut failures = Vec::new(alloc);
    for k in 0..examples.len() {
        try_one(clock, alloc, &examples[k], &mut failures)?;
    }
    Ok(failures)
}
