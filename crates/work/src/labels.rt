//! The commands that tell labels: `symbols` and `nearest`.
ghost use Rattle.std.specs.Prelude.{◌≡◌};
ghost use Rattle.work.specs.Calls.{One};
ghost use Rattle.work.specs.Labels.{telling_labels, telling_nearest};

use crate::calls::one;
use commandline::Asked;
use make_labels::{NearestLabel, NearestLabelJson, Symbols, SymbolsJson};
use outcome::Outcome;
use outcome::opening::Opening;
use outcome::output::Output;
use std::alloc::Global;
use std::io::Write;

/// The labels of a script.
#[inline(never)]
pub(crate) fn symbols<F: Opening, O: Output, E: Write>(
    alloc: Global,
    files: &F,
    asked: &Asked<'_>,
    output: &str,
    out: &mut O,
    errors: &mut E,
) -> Outcome
    ensures { One (telling_labels asked.now) 32768 (λ n. F.holds files.now n) asked.now output.now (λ s r. O.puts out.old out.new s r) (out.new ≡ out.old) (E.contents errors.old) (E.contents errors.new) result }
{
    let base = asked.base;
    if asked.json {
        one(
            alloc,
            files,
            &SymbolsJson { base },
            asked,
            output,
            out,
            errors,
        )
    } else {
        one(alloc, files, &Symbols { base }, asked, output, out, errors)
    }
}

/// The nearest label at or below an address.
#[inline(never)]
pub(crate) fn nearest<F: Opening, O: Output, E: Write>(
    alloc: Global,
    files: &F,
    asked: &Asked<'_>,
    output: &str,
    out: &mut O,
    errors: &mut E,
) -> Outcome
    ensures { One (telling_nearest asked.now) 32768 (λ n. F.holds files.now n) asked.now output.now (λ s r. O.puts out.old out.new s r) (out.new ≡ out.old) (E.contents errors.old) (E.contents errors.new) result }
{
    let base = asked.base;
    let address = asked.address;
    if asked.json {
        one(
            alloc,
            files,
            &NearestLabelJson { base, address },
            asked,
            output,
            out,
            errors,
        )
    } else {
        one(
            alloc,
            files,
            &NearestLabel { base, address },
            asked,
            output,
            out,
            errors,
        )
    }
}
