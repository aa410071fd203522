//! The commands.
ghost use Rattle.std.specs.Prelude.{◌≡◌};
ghost use Rattle.work.specs.Performed.{Performs};

use crate::labels::{nearest, symbols};
use crate::lines::{list, why};
use crate::lists::{assemble, check, manual, move_list, tidy};
use crate::runs::run;
use crate::sheets::sheet;
use commandline::{Asked, Command};
use outcome::Outcome;
use outcome::opening::Opening;
use outcome::output::Output;
use std::alloc::Global;
use std::io::Write;
use std::rt::Clock;

/// The work of the command that is asked for.
// None of these is inlined: each has its input's front on the stack, and a frame is touched page by page (docs/SPEED.md).
pub(crate) fn perform<C: Clock, F: Opening, O: Output, E: Write>(
    clock: &C,
    alloc: Global,
    files: &F,
    asked: &Asked<'_>,
    output: &str,
    out: &mut O,
    errors: &mut E,
) -> Outcome
    ensures { Performs asked.now.command (λ n. F.holds files.now n) asked.now output.now (λ s r. O.puts out.old out.new s r) (out.new ≡ out.old) (E.contents errors.old) (E.contents errors.new) result }
{
    match asked.command {
        Command::Assemble => assemble(alloc, files, asked, output, out, errors),
        Command::Manual => manual(alloc, files, asked, output, out, errors),
        Command::Move => move_list(alloc, files, asked, output, out, errors),
        Command::Symbols => symbols(alloc, files, asked, output, out, errors),
        Command::Nearest => nearest(alloc, files, asked, output, out, errors),
        Command::Tidy => tidy(alloc, files, asked, output, out, errors),
        Command::Run => run(alloc, files, asked, output, out, errors),
        Command::Sheet => sheet(alloc, files, asked, output, out, errors),
        Command::Check => check(clock, alloc, files, asked, output, out, errors),
        Command::Why => why(clock, alloc, files, asked, output, out, errors),
        Command::List => list(clock, alloc, files, asked, output, out, errors),
    }
}
