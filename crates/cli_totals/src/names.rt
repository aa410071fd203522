//! The scripts that the input names, one a line: each is added as soon as its name is whole.
ghost use Rattle.std.specs.Prelude.{◌≡◌, ◌^◌, ◌-◌, ◌++◌, [], IfOk, IfErr};
ghost use Rattle.rules.specs.Text.{Text};
ghost use Rattle.sheet.specs.Totals.{said};
ghost use Rattle.cli_error.specs.Answered.{failure_of};
ghost use Rattle.cli_error.specs.Gives.{Gives};
ghost use Rattle.cli_io.specs.World.{name_of, Takes};
ghost use Rattle.cli_io.specs.Answers.{Answers};
ghost use Rattle.cli_io.specs.Tabled.{NotRead};
ghost use Rattle.cli_totals.specs.Sheeted.{no_end};
ghost use Rattle.cli_totals.specs.Steps.{Holds, name_if, ScriptAddedIf, AnswersLast, AnswersNames, AnswersInput, Feeds};

use crate::Sheets;
use crate::adding::{KEPT, add_script};
use crate::totalling::answer_totals;
use cli_error::{Answer, Failure, What};
use cli_io::host::Host;
use cli_io::reading::{input_name, unread};
use sheet::Totals;
use sheettext::names::{NAME, held_on, take_name};
use std::alloc::Global;

// What a read of the names asks for.
const CHUNK: usize = 8192;

// Adds the script of a name, if the name is whole.
fn add_if<H: Host>(
    host: &mut H,
    whole: bool,
    name: &[u8],
    totals: Totals,
    front: &mut [u8; KEPT],
) -> Result<Totals, Answer>
    ensures { ScriptAddedIf H.world whole name.now (said totals) host.old host.new result }
{
    if !whole {
        return Ok(totals);
    }
    add_script(host, name, totals, front)
}

// Where the names stand: how many bytes of the next one are held, and the totals so far.
#[derive(Clone, Copy)]
pub(crate) struct Fed {
    held: usize,
    totals: Totals,
}

// Goes on with a chunk of the names: the script of each that ends there is added.
fn add_chunk<H: Host>(
    host: &mut H,
    fed: Fed,
    chunk: &[u8],
    name: &mut [u8; NAME],
    front: &mut [u8; KEPT],
) -> Result<Fed, Answer>
    ensures { (rest : Text) → Holds rest name.old fed.held → Feeds H.world (rest ++ chunk.now) fed host.old host.new name.new result }
{
    let mut held = fed.held;
    let mut totals = fed.totals;
    let mut at = 0;
    // Each turn takes as many bytes as a name has.
    while at < chunk.len() {
        let taken = take_name(&chunk[at..], name, held);
        let whole = &name[..taken.held];
        match add_if(host, taken.whole, whole, totals, front) {
            Ok(sum) => totals = sum,
            Err(answer) => return Err(answer),
        }
        held = held_on(taken);
        at += taken.used;
    }
    Ok(Fed { held, totals })
}

// Opens the input.
fn open_input<H: Host>(host: &mut H, file: Option<&str>) -> Result<H::Stream, Answer>
    ensures named { IfOk result (λ s. H.named s ≡ name_of file.entry) }
    ensures opened { IfOk result (λ s. H.world.opens host.old host.new (name_of file.entry)) }
    ensures unread { IfErr result (NotRead H.world host.old host.new (name_of file.entry)) }
{
    let alloc = host.alloc();
    match host.open(file) {
        Ok(stream) => Ok(stream),
        Err(error) => Err(unread(alloc, input_name(file), &error)),
    }
}

// Reads a chunk of the names.
fn read_chunk<H: Host>(
    host: &mut H,
    file: Option<&str>,
    stream: &mut H::Stream,
    chunk: &mut [u8; CHUNK],
) -> Result<usize, Answer>
    requires { H.named stream.old ≡ name_of file }
    ensures same { H.named stream.new ≡ name_of file.entry }
    ensures taken { IfOk result (Takes (H.world.takes host.old host.new (name_of file.entry)) chunk.new) }
    ensures unread { IfErr result (NotRead H.world host.old host.new (name_of file.entry)) }
{
    let alloc = host.alloc();
    match host.take(stream, chunk) {
        Ok(n) => Ok(n),
        Err(error) => Err(unread(alloc, input_name(file), &error)),
    }
}

// The answer at the end of the names, of which the last is held.
fn answer_last<H: Host>(
    host: &mut H,
    json: bool,
    name: &[u8],
    totals: Totals,
    front: &mut [u8; KEPT],
) -> Answer
    ensures { Answers (AnswersLast H.world json (name_if name.now) (said totals)) host.old host.new result }
{
    match add_if(host, 0 < name.len(), name, totals, front) {
        Ok(sum) => answer_totals(host.alloc(), sum, json),
        Err(answer) => answer,
    }
}

// The answer to names that do not end.
fn answer_no_end(alloc: Global, file: Option<&str>) -> Answer
    ensures { Gives (failure_of (no_end (name_of file.entry))) result }
{
    Answer::failed(
        alloc,
        Failure::Failed(What::Read, input_name(file), b"file too large"),
    )
}

// The answer to the names of an input that is open.
fn answer_names<H: Host>(
    host: &mut H,
    args: &Sheets<'_>,
    stream: &mut H::Stream,
    totals: Totals,
    front: &mut [u8; KEPT],
) -> Answer
    requires { H.named stream.old ≡ name_of args.now.file }
    ensures { Answers (AnswersNames H.world args.now.json (name_of args.now.file) (2 ^ 64 - 1) [] (said totals)) host.old host.new result }
{
    let mut name = [0u8; NAME];
    let mut chunk = [0u8; CHUNK];
    let mut fed = Fed { held: 0, totals };
    for _ in 0..u64::MAX {
        match read_chunk(host, args.file, stream, &mut chunk) {
            Ok(n) => {
                let held = fed.held;
                if n == 0 {
                    return answer_last(host, args.json, &name[..held], fed.totals, front);
                }
                match add_chunk(host, fed, &chunk[..n], &mut name, front) {
                    Ok(next) => fed = next,
                    Err(answer) => return answer,
                }
            }
            Err(answer) => return answer,
        }
    }
    answer_no_end(host.alloc(), args.file)
}

/// The answer to the scripts that the input names, after totals.
pub(crate) fn answer_input<H: Host>(
    host: &mut H,
    args: &Sheets<'_>,
    totals: Totals,
    front: &mut [u8; KEPT],
) -> Answer
    ensures { Answers (AnswersInput H.world args.now.json (name_of args.now.file) (said totals)) host.old host.new result }
{
    match open_input(host, args.file) {
        Ok(mut stream) => answer_names(host, args, &mut stream, totals, front),
        Err(answer) => answer,
    }
}
