//! A call on several files, of which one is in memory at a time.
ghost use Rattle.std.specs.Prelude.{◌≡◌, ◌∷◌, List, length, map, IfOk, IfErr, OnOk};
ghost use Rattle.cli_run.specs.Items.{Rest};
ghost use Rattle.cli_run.specs.From.{from_of};
ghost use Rattle.cli_io.specs.Answers.{Answers, Folds, AnswersEach};
ghost use Rattle.cli_io.specs.Added.{from_name, SourceRead, SourceNotRead, GoesOn, Stops};

use crate::host::Host;
use crate::reading::{input_name, read_file};
use cli_error::Answer;
use cli_run::input::{Input, input_of};
use cli_run::several::Several;
use cli_run::source::Source;

// Reads what FILE names; standard input has no bytes left where it was read before.
fn read_source<H: Host>(host: &mut H, source: Source<'_>, front: &mut [u8]) -> Result<usize, Answer>
    ensures read { IfOk result (SourceRead H.world host.old host.new (from_of source.entry) front.new) }
    ensures unread { IfErr result (SourceNotRead H.world host.old host.new (from_of source.entry)) }
{
    match source {
        Source::Standard => read_file(host, None, front),
        Source::File(name) => read_file(host, Some(name), front),
        Source::Again => Ok(0),
    }
}

// How it is called.
fn source_name(source: Source<'_>) -> &str
    ensures { result.now ≡ from_name (from_of source.entry) }
{
    match source {
        Source::File(name) => name,
        Source::Standard | Source::Again => "standard input",
    }
}

// Reads a file and adds it; or answers, if the call ends with it.
fn add_source<H: Host, S: Several>(
    host: &mut H,
    work: &mut S,
    source: Source<'_>,
    front: &mut [u8],
) -> Result<(), Answer>
    requires { length front.old ≡ S.kept }
    ensures goes_on { (f : Rest) → S.answers work.old f → OnOk result (GoesOn H.world (S.answers work.new) f (from_of source.entry) host.old host.new) }
    ensures stops { (f : Rest) → S.answers work.old f → IfErr result (Stops H.world f (from_of source.entry) host.old host.new) }
{
    match read_source(host, source, front) {
        Ok(total) => work.add(host.alloc(), input_of(source_name(source), front, total)),
        Err(answer) => Err(answer),
    }
}

/// Adds the files in their order.
pub fn add_sources<H: Host, S: Several + Drop>(
    host: &mut H,
    mut work: S,
    sources: &[Source<'_>],
    front: &mut [u8],
) -> Answer
    requires { length front.old ≡ S.kept }
    ensures { (f : Rest) → S.answers work f → Answers (Folds H.world f (map from_of sources.now)) host.old host.new result }
{
    for source in sources {
        match add_source(host, &mut work, *source, front) {
            Ok(()) => {}
            Err(answer) => return answer,
        }
    }
    work.finish(host.alloc())
}
