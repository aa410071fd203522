//! `run`.
ghost use Rattle.std.specs.Prelude.{◌≡◌, option_map};
ghost use Rattle.work.specs.Calls.{One};
ghost use Rattle.work.specs.Runs.{running, same_tries};

use crate::calls::one;
use commandline::Asked;
use make_runs::{Running, RunningJson, Tries};
use outcome::Outcome;
use outcome::opening::Opening;
use outcome::output::Output;
use std::alloc::Global;
use std::io::Write;

// The threshold that is asked for.
fn tries_of(tries: Option<commandline::Tries>) -> Option<Tries>
    ensures { result ≡ option_map same_tries tries }
{
    match tries {
        Some(tries) => Some(Tries {
            address: tries.address,
            from: tries.from,
            to: tries.to,
        }),
        None => None,
    }
}

/// How runs of a list end.
#[inline(never)]
pub(crate) fn run<F: Opening, O: Output, E: Write>(
    alloc: Global,
    files: &F,
    asked: &Asked<'_>,
    output: &str,
    out: &mut O,
    errors: &mut E,
) -> Outcome
    ensures { One (running asked.now) 196609 (λ n. F.holds files.now n) asked.now output.now (λ s r. O.puts out.old out.new s r) (out.new ≡ out.old) (E.contents errors.old) (E.contents errors.new) result }
{
    let a = asked.a;
    let start = asked.address;
    let limit = asked.limit;
    let tries = tries_of(asked.tries);
    if asked.json {
        one(
            alloc,
            files,
            &RunningJson {
                a,
                start,
                limit,
                tries,
            },
            asked,
            output,
            out,
            errors,
        )
    } else {
        one(
            alloc,
            files,
            &Running {
                a,
                start,
                limit,
                tries,
            },
            asked,
            output,
            out,
            errors,
        )
    }
}
