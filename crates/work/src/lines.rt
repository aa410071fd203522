//! The commands that tell of a script's lines: `why` and `list`.
ghost use Rattle.std.specs.Prelude.{◌≡◌, [], true, false};
ghost use Rattle.outcome.specs.declared.making.Joining.{Joining};
ghost use Rattle.work.specs.Calls.{Joins, Each};
ghost use Rattle.work.specs.Lines.{is_headed, explaining_of, explaining_json_of, printing_of, explaining_by, explaining, printing, JoinsFiles, JoinsBy};

use crate::calls::{each, plain};
use commandline::Asked;
use make_lines::why::files_joining;
use make_lines::{Explaining, ExplainingJson, Printing};
use outcome::Outcome;
use outcome::opening::Opening;
use outcome::output::Output;
use std::alloc::Global;
use std::io::Write;
use std::rt::Clock;

// Whether a line with its name stands in front of each script's text: where there are several.
fn is_headed(asked: &Asked<'_>) -> bool
    ensures { result ≡ is_headed asked.now }
{
    1 < asked.files.len()
}

// The line that is asked for.
fn line_of(asked: &Asked<'_>) -> Option<usize>
    ensures { result ≡ asked.now.line }
{
    match asked.line {
        Some(line) => Some(line as usize),
        None => None,
    }
}

// The work of `why`.
fn explaining_of(asked: &Asked<'_>) -> Explaining
    ensures { result ≡ explaining_of asked.now }
{
    Explaining {
        base: asked.base,
        lent: asked.branches.is_some(),
        line: line_of(asked),
        headed: is_headed(asked),
    }
}

// The work of `why --json`.
fn explaining_json_of(asked: &Asked<'_>) -> ExplainingJson
    ensures { result ≡ explaining_json_of asked.now }
{
    ExplainingJson {
        base: asked.base,
        lent: asked.branches.is_some(),
        line: line_of(asked),
    }
}

// The work of `list`.
fn printing_of(asked: &Asked<'_>) -> Printing
    ensures { result ≡ printing_of asked.now }
{
    Printing {
        base: asked.base,
        lent: asked.branches.is_some(),
        headed: is_headed(asked),
    }
}

// The verdicts as text.
fn why_text<C: Clock, F: Opening, O: Output, E: Write>(
    clock: &C,
    alloc: Global,
    files: &F,
    asked: &Asked<'_>,
    output: &str,
    out: &mut O,
    errors: &mut E,
) -> Outcome
    ensures { (j : Joining) × Joins j [] [] [] × Each (explaining_by asked.now false) (λ a b. true) 32768 j (λ n. F.holds files.now n) asked.now output.now (λ s r. O.puts out.old out.new s r) (out.new ≡ out.old) (E.contents errors.old) (E.contents errors.new) result }
{
    let work = explaining_of(asked);
    let joining = plain();
    each(
        clock, alloc, files, &work, joining, asked, output, out, errors,
    )
}

// The verdicts as JSON.
fn why_json<C: Clock, F: Opening, O: Output, E: Write>(
    clock: &C,
    alloc: Global,
    files: &F,
    asked: &Asked<'_>,
    output: &str,
    out: &mut O,
    errors: &mut E,
) -> Outcome
    ensures { (j : Joining) × JoinsFiles j × Each (explaining_by asked.now true) (λ a b. true) 32768 j (λ n. F.holds files.now n) asked.now output.now (λ s r. O.puts out.old out.new s r) (out.new ≡ out.old) (E.contents errors.old) (E.contents errors.new) result }
{
    let work = explaining_json_of(asked);
    let joining = files_joining();
    each(
        clock, alloc, files, &work, joining, asked, output, out, errors,
    )
}

/// Of each line of scripts whether it has a word, and if not why.
#[inline(never)]
pub(crate) fn why<C: Clock, F: Opening, O: Output, E: Write>(
    clock: &C,
    alloc: Global,
    files: &F,
    asked: &Asked<'_>,
    output: &str,
    out: &mut O,
    errors: &mut E,
) -> Outcome
    ensures { (j : Joining) × JoinsBy asked.now.json j × Each (explaining asked.now) (λ a b. true) 32768 j (λ n. F.holds files.now n) asked.now output.now (λ s r. O.puts out.old out.new s r) (out.new ≡ out.old) (E.contents errors.old) (E.contents errors.new) result }
{
    if asked.json {
        why_json(clock, alloc, files, asked, output, out, errors)
    } else {
        why_text(clock, alloc, files, asked, output, out, errors)
    }
}

/// Scripts for people.
#[inline(never)]
pub(crate) fn list<C: Clock, F: Opening, O: Output, E: Write>(
    clock: &C,
    alloc: Global,
    files: &F,
    asked: &Asked<'_>,
    output: &str,
    out: &mut O,
    errors: &mut E,
) -> Outcome
    ensures { (j : Joining) × Joins j [] [] [] × Each (printing asked.now) (λ a b. true) 32768 j (λ n. F.holds files.now n) asked.now output.now (λ s r. O.puts out.old out.new s r) (out.new ≡ out.old) (E.contents errors.old) (E.contents errors.new) result }
{
    let work = printing_of(asked);
    let joining = plain();
    each(
        clock, alloc, files, &work, joining, asked, output, out, errors,
    )
}
