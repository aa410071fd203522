//! The command, from its words to what it comes to.
ghost use Rattle.std.specs.Prelude.{◌≡◌, map, string_bytes};
ghost use Rattle.std.specs.Process.{exit_status};
ghost use Rattle.diagnostic.specs.Said.{no_memory_text};
ghost use Rattle.outcome.specs.declared.Outcome.TheVariants.{NoMemory};
ghost use Rattle.asked.specs.Said.{Says};
ghost use Rattle.work.specs.Ran.{DoesWork, Does, Runs, Ran};
ghost use Rattle.outcome.specs.Outcome.{status};
ghost use Rattle.outcome.specs.declared.Outcome.{Outcome};

use crate::placing::{Ended, work_at};
use asked::misusing::misuse;
use asked::printing::{OUTPUT, print};
use asked::refusing::refuse_names;
use asked::saying::say;
use asked::task::{Task, task_of};
use commandline::Asked;
use commandline::words::words_of;
use console::Arguments;
use outcome::opening::Opening;
use outcome::output::Output;
use outcome::{Outcome, status};
use std::alloc::{AllocError, Global};
use std::io::Write;
use std::process::ExitCode;
use std::rt::Clock;
use wholefile::disk::Disk;

// The work that is asked for, where each name is one.
fn do_work<C: Clock, F: Opening, D: Disk, O: Output, E: Write>(
    clock: &C,
    alloc: Global,
    files: &F,
    asked: &Asked<'_>,
    disk: D,
    out: &mut O,
    errors: &mut E,
) -> Ended<D>
    ensures { DoesWork (λ n. F.holds files.now n) asked.now disk result.disk (λ d. D.settled d) (λ d. D.stays d) (λ d. D.known d) (λ s r. O.puts out.old out.new s r) (out.new ≡ out.old) (E.contents errors.old) (E.contents errors.new) result.outcome }
{
    match refuse_names(clock, alloc, asked, errors) {
        Some(outcome) => Ended { outcome, disk },
        None => work_at(clock, alloc, files, asked, disk, out, errors),
    }
}

// What the words ask for.
fn do_task<C: Clock, F: Opening, D: Disk, O: Output, E: Write>(
    clock: &C,
    alloc: Global,
    files: &F,
    task: &Task<'_>,
    disk: D,
    out: &mut O,
    errors: &mut E,
) -> Ended<D>
    ensures { Does task.now (λ n. F.holds files.now n) disk result.disk (λ d. D.settled d) (λ d. D.stays d) (λ d. D.known d) (λ s r. O.puts out.old out.new s r) (out.new ≡ out.old) (E.contents errors.old) (E.contents errors.new) result.outcome }
{
    match task {
        Task::Print(text) => {
            let outcome = print(clock, alloc, text.as_slice(), OUTPUT, out, errors);
            Ended { outcome, disk }
        }
        Task::Work(asked) => do_work(clock, alloc, files, asked, disk, out, errors),
        Task::Wrong(wrong) => {
            let outcome = misuse(clock, alloc, wrong, errors);
            Ended { outcome, disk }
        }
    }
}

// That there is no memory for the words.
fn no_room<C: Clock, E: Write>(clock: &C, errors: &mut E) -> Outcome
    ensures { (result ≡ NoMemory) × Says (E.contents errors.old) (E.contents errors.new) no_memory_text }
{
    say(clock, errors, Err(AllocError));
    Outcome::NoMemory
}

// The command of these words.
fn run_words<C: Clock, F: Opening, D: Disk, O: Output, E: Write>(
    clock: &C,
    alloc: Global,
    words: &[String],
    files: &F,
    disk: D,
    out: &mut O,
    errors: &mut E,
) -> Ended<D>
    ensures { Runs (map (λ w. string_bytes w) words.now) (λ n. F.holds files.now n) disk result.disk (λ d. D.settled d) (λ d. D.stays d) (λ d. D.known d) (λ s r. O.puts out.old out.new s r) (out.new ≡ out.old) (E.contents errors.old) (E.contents errors.new) result.outcome }
{
    match task_of(alloc, words) {
        Ok(task) => do_task(clock, alloc, files, &task, disk, out, errors),
        Err(_) => Ended {
            outcome: no_room(clock, errors),
            disk,
        },
    }
}

/// The command: its words are read, and what they ask is done. `out` is standard output.
pub fn run<A: Arguments, C: Clock, F: Opening, D: Disk, O: Output, E: Write>(
    arguments: &A,
    clock: &C,
    alloc: Global,
    files: &F,
    disk: D,
    out: &mut O,
    errors: &mut E,
) -> Ended<D>
    ensures { Ran (A.known arguments.now) (λ n. F.holds files.now n) disk result.disk (λ d. D.settled d) (λ d. D.stays d) (λ d. D.known d) (λ s r. O.puts out.old out.new s r) (out.new ≡ out.old) (E.contents errors.old) (E.contents errors.new) result.outcome }
{
    match words_of(alloc, arguments) {
        Ok(words) => run_words(clock, alloc, words.as_slice(), files, disk, out, errors),
        Err(_) => Ended {
            outcome: no_room(clock, errors),
            disk,
        },
    }
}

// How a process ends with what a call came to.
fn exit_code(outcome: &Outcome) -> ExitCode
    ensures { exit_status result ≡ status outcome.now }
{
    ExitCode::from(status(outcome))
}

/// The command, and how the process ends.
pub fn call<A: Arguments, C: Clock, F: Opening, D: Disk + Drop, O: Output, E: Write>(
    arguments: &A,
    clock: &C,
    alloc: Global,
    files: &F,
    disk: D,
    out: &mut O,
    errors: &mut E,
) -> ExitCode
    ensures { (o : Outcome) × (after : D) × Ran (A.known arguments.now) (λ n. F.holds files.now n) disk after (λ d. D.settled d) (λ d. D.stays d) (λ d. D.known d) (λ s r. O.puts out.old out.new s r) (out.new ≡ out.old) (E.contents errors.old) (E.contents errors.new) o × (exit_status result ≡ status o) }
{
    let ended = run(arguments, clock, alloc, files, disk, out, errors);
    exit_code(&ended.outcome)
}
