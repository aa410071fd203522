//! The commands that answer a list, or what it comes to: `assemble`, `manual`, `move`, `tidy` and `check`.
ghost use Rattle.std.specs.Prelude.{◌≡◌, []};
ghost use Rattle.outcome.specs.declared.making.Joining.{Joining};
ghost use Rattle.work.specs.Calls.{Joins, One, Each};
ghost use Rattle.work.specs.Lists.{assembling, assembling_manual, moving, tidying, checking, is_good};

use crate::calls::{each, one, plain};
use commandline::Asked;
use make_lists::assembling::{Assembling, AssemblingJson, AssemblingManual};
use make_lists::checking::Checking;
use make_lists::moving::Moving;
use make_lists::tidying::Tidying;
use outcome::Outcome;
use outcome::opening::Opening;
use outcome::output::Output;
use std::alloc::Global;
use std::io::Write;
use std::rt::Clock;

/// The list of a script.
#[inline(never)]
pub(crate) fn assemble<F: Opening, O: Output, E: Write>(
    alloc: Global,
    files: &F,
    asked: &Asked<'_>,
    output: &str,
    out: &mut O,
    errors: &mut E,
) -> Outcome
    ensures { One (assembling asked.now) 32768 (λ n. F.holds files.now n) asked.now output.now (λ s r. O.puts out.old out.new s r) (out.new ≡ out.old) (E.contents errors.old) (E.contents errors.new) result }
{
    let base = asked.base;
    let lent = asked.branches.is_some();
    if asked.json {
        one(
            alloc,
            files,
            &AssemblingJson { base, lent },
            asked,
            output,
            out,
            errors,
        )
    } else {
        one(
            alloc,
            files,
            &Assembling { base, lent },
            asked,
            output,
            out,
            errors,
        )
    }
}

/// The same by the manual's own words.
#[inline(never)]
pub(crate) fn manual<F: Opening, O: Output, E: Write>(
    alloc: Global,
    files: &F,
    asked: &Asked<'_>,
    output: &str,
    out: &mut O,
    errors: &mut E,
) -> Outcome
    ensures { One (assembling_manual asked.now) 32768 (λ n. F.holds files.now n) asked.now output.now (λ s r. O.puts out.old out.new s r) (out.new ≡ out.old) (E.contents errors.old) (E.contents errors.new) result }
{
    let base = asked.base;
    one(
        alloc,
        files,
        &AssemblingManual { base },
        asked,
        output,
        out,
        errors,
    )
}

// By which distance.
fn moving_of(asked: &Asked<'_>) -> Moving
    ensures { result.distance ≡ asked.now.distance }
{
    Moving {
        distance: asked.distance,
    }
}

/// A list, moved.
#[inline(never)]
pub(crate) fn move_list<F: Opening, O: Output, E: Write>(
    alloc: Global,
    files: &F,
    asked: &Asked<'_>,
    output: &str,
    out: &mut O,
    errors: &mut E,
) -> Outcome
    ensures { One (moving asked.now) 196609 (λ n. F.holds files.now n) asked.now output.now (λ s r. O.puts out.old out.new s r) (out.new ≡ out.old) (E.contents errors.old) (E.contents errors.new) result }
{
    let work = moving_of(asked);
    one(alloc, files, &work, asked, output, out, errors)
}

/// The tidy copy of a script.
#[inline(never)]
pub(crate) fn tidy<F: Opening, O: Output, E: Write>(
    alloc: Global,
    files: &F,
    asked: &Asked<'_>,
    output: &str,
    out: &mut O,
    errors: &mut E,
) -> Outcome
    ensures { One (tidying) 32768 (λ n. F.holds files.now n) asked.now output.now (λ s r. O.puts out.old out.new s r) (out.new ≡ out.old) (E.contents errors.old) (E.contents errors.new) result }
{
    one(alloc, files, &Tidying, asked, output, out, errors)
}

/// Of each script whether it is accepted.
#[inline(never)]
pub(crate) fn check<C: Clock, F: Opening, O: Output, E: Write>(
    clock: &C,
    alloc: Global,
    files: &F,
    asked: &Asked<'_>,
    output: &str,
    out: &mut O,
    errors: &mut E,
) -> Outcome
    ensures { (j : Joining) × Joins j [] [] [] × Each (checking asked.now) (is_good asked.now) 32768 j (λ n. F.holds files.now n) asked.now output.now (λ s r. O.puts out.old out.new s r) (out.new ≡ out.old) (E.contents errors.old) (E.contents errors.new) result }
{
    let base = asked.base;
    let lent = asked.branches.is_some();
    let joining = plain();
    each(
        clock,
        alloc,
        files,
        &Checking { base, lent },
        joining,
        asked,
        output,
        out,
        errors,
    )
}
