#![tactic(auto)]

//! Adds up a plant's scripts on one sheet. It reads the names of files on standard input, one a line, and prints a line for each total on
//! standard output: `skipped`, `org`, `label`, `data`, `word`, `wordless`, `end`, `words`, `marked`, `labels`, `accepted`, `refused`, then
//! `mean` with words and accepted scripts. Each `-t SHEET` names a file that holds such a sheet, to which is added.
//!   `refused 20 1000000` if there are more than 1,000,000 scripts, `refused 21 0` if a sheet has a total above 2^33;
//!   `not a sheet: line N` if such a file is none.
//! A file that cannot be read to its end is said with its name on standard error, and no sheet is printed: no script is left out in
//! silence. There too it says if the names cannot be read to their end, and prints nothing then; if standard output does not take all
//! that it prints; or if its arguments are others: it reads nothing then.
ghost use Rattle.std.specs.Prelude.{false, ◌++◌, take};
ghost use Rattle.rules.specs.Text.{Text};
ghost use Rattle.sheettext.specs.Steps.{Outcome, outcome};
ghost use Rattle.sheettext.specs.Files.{FileAdded, Adding, NamesAdded};

use console::{ARGUMENT, SMALL_CHUNK, argument, argument_count};
use file::read_script;
use sheettext::arguments::{is_whole, no_argument, with_argument};
use sheettext::files::{UNREAD, is_read, unread_text, with_file};
use sheettext::names::{NAME, held_on, take_name};
use sheettext::{SHEET, Step, ended, no_sources, step_text};
use station::SCRIPT;
use station::failure::{SAID, failure_text};
use station::input::{Input, after_read, start};
use std::io::Read;

// Goes on with the file whose name is in the first bytes, a sheet or a script, if it is due. One that cannot be read is said.
// `due` and `sheet` are flags, as the specs (`FileAdded`) take them. `name` and `size` stand side by side and are cut here once: `Fed`
// does not say that what it holds is within the name.
fn add_file(
    rt: &HostRuntime,
    step: Step,
    due: bool,
    name: &[u8],
    size: usize,
    sheet: bool,
    script: &mut [u8; SCRIPT],
) -> Step
    ensures { FileAdded (take size name.now) due sheet (outcome step) (outcome result) }
{
    if !is_read(step, due) {
        return step;
    }
    let n = size.min(name.len());
    let input = read_script(rt, &name[..n], script);
    let mut said = [0u8; UNREAD];
    let length = unread_text(&name[..n], input, &mut said);
    let _ = rt.stderr().write_all(&said[..length]);
    with_file(step, sheet, script, input)
}

// Where the program stands in the names: the step so far, and how many bytes of the next name are held.
#[derive(Clone, Copy, Debug, PartialEq, Eq, Hash)]
struct Fed {
    held: usize,
    step: Step,
}

// Goes on with a chunk of the names: each that ends there is a script's.
fn add_chunk(
    rt: &HostRuntime,
    fed: Fed,
    chunk: &[u8],
    name: &mut [u8; NAME],
    script: &mut [u8; SCRIPT],
) -> Fed
    ensures { (o : Outcome) (t : Text) → Adding o t name.old fed.held (outcome fed.step) → Adding o (t ++ chunk.now) name.new result.held (outcome result.step) }
{
    let mut held = fed.held;
    let mut step = fed.step;
    let mut at = 0;
    // Each turn takes as many bytes as a name has.
    while at < chunk.len() {
        let taken = take_name(&chunk[at..], name, held);
        step = add_file(rt, step, taken.whole, name, taken.held, false, script);
        held = held_on(taken);
        at += taken.used;
    }
    Fed { held, step }
}

// How the names ended, and what their scripts come to.
#[derive(Clone, Copy, Debug, PartialEq, Eq, Hash)]
struct Named {
    input: Input,
    step: Step,
}

// Reads the names on standard input to their end, and adds their scripts.
fn add_names(rt: &HostRuntime, first: Step, script: &mut [u8; SCRIPT]) -> Named
    ensures { NamesAdded (outcome first) (outcome result.step) result.input }
{
    let mut name = [0u8; NAME];
    let mut fed = Fed {
        held: 0,
        step: first,
    };
    let mut stdin = rt.stdin();
    let mut input = start();
    // Where the reads end only each read tells: no iterator has them.
    while input.more {
        let mut chunk = [0u8; SMALL_CHUNK];
        let got = stdin.read(&mut chunk).ok();
        fed = add_chunk(rt, fed, &chunk[..got.unwrap_or(0)], &mut name, script);
        input = after_read(input, got);
    }
    let held = fed.held;
    let last = fed.step;
    let step = add_file(rt, last, 0 < held, &name, held, false, script);
    Named { input, step }
}

fn main(rt: HostRuntime) {
    let arguments = argument_count(&rt);
    let mut given = no_argument();
    // An argument is asked for by its place, here and below.
    for k in 1..arguments {
        let mut text = [0u8; ARGUMENT];
        let size = argument(&rt, k, &mut text);
        given = with_argument(given, &text[..size]);
    }
    if !is_whole(given) {
        let _ = rt.stderr().write_all(
            b"usage: plantsheet [-t SHEET].. < NAMES, the names of script files, one a line\n",
        );
        return;
    }
    let mut script = [0u8; SCRIPT];
    let mut step = no_sources();
    given = no_argument();
    for k in 1..arguments {
        let mut path = [0u8; ARGUMENT];
        let size = argument(&rt, k, &mut path);
        step = add_file(&rt, step, given.due, &path, size, true, &mut script);
        given = with_argument(given, &path[..size]);
    }
    let named = add_names(&rt, step, &mut script);
    let input = named.input;
    let last = named.step;
    let mut out = [0u8; SHEET];
    let size = step_text(ended(last, input), &mut out);
    let written = rt.stdout().write_all(&out[..size]).is_ok();
    let mut said = [0u8; SAID];
    let length = failure_text(b"plantsheet", input, written, &mut said);
    let _ = rt.stderr().write_all(&said[..length]);
}
