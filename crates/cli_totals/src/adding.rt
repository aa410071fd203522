//! One file, a sheet or a script: it is read, and added to totals.
ghost use Rattle.std.specs.Prelude.{◌≡◌};
ghost use Rattle.sheet.specs.Totals.{said, answered};
ghost use Rattle.cli_error.specs.Answered.{failure_of};
ghost use Rattle.cli_error.specs.Gives.{Gives};
ghost use Rattle.cli_run.specs.Input.{OfInput};
ghost use Rattle.cli_totals.specs.Series.{sum_of, with_file};
ghost use Rattle.cli_totals.specs.Sheeted.{bad_name};
ghost use Rattle.cli_totals.specs.Steps.{IsMade, FileAdded};
ghost use Rattle.cli_totals.specs.declared.adding.Kind.TheVariants.{Sheet, Script};

use answer::Refusal;
use cli_error::message::failure_message;
use cli_error::{Answer, Failure, Status, What};
use cli_io::host::Host;
use cli_io::reading::read_file;
use cli_run::input::{Input, SCRIPT, input_of};
use sheet::{Totals, add_sheet, add_source};
use sheettext::back::read_sheet;
use std::alloc::Global;

/// The bytes that are kept of a file: one more than the longest script has, so that what is kept of a longer one is too long as well.
pub const KEPT: usize = 32769;

/// What a file is.
#[derive(Clone, Copy)]
pub enum Kind {
    /// Totals as text, which are added.
    Sheet,
    /// A script, whose totals are added.
    Script,
}

// An answer to the file of a name. A refusal speaks of no line.
fn sum_of<'a>(name: &'a str, sum: Result<Totals, Refusal>) -> Result<Totals, Failure<'a>>
    ensures { IsMade (sum_of name.now (answered sum)) result }
{
    match sum {
        Ok(totals) => Ok(totals),
        Err(refusal) => Err(Failure::Refused(name, refusal, &[])),
    }
}

// The totals with those of a sheet.
fn with_sheet<'a>(totals: Totals, input: Input<'a>) -> Result<Totals, Failure<'a>>
    ensures { OfInput 32769 input.entry (λ b. IsMade (with_file Sheet (said totals) b) result) }
{
    let kept = input.contents.front();
    match read_sheet(&kept[..kept.len().min(SCRIPT)]) {
        Ok(sheet) => sum_of(input.name, add_sheet(totals, sheet)),
        Err(line) => Err(Failure::NotASheet(input.name, line.number)),
    }
}

// The totals with a script more.
fn with_script<'a>(totals: Totals, input: Input<'a>) -> Result<Totals, Failure<'a>>
    ensures { OfInput 32769 input.entry (λ b. IsMade (with_file Script (said totals) b) result) }
{
    sum_of(input.name, add_source(totals, input.contents.front()))
}

// The totals with those of a file.
fn with_file<'a>(kind: Kind, totals: Totals, input: Input<'a>) -> Result<Totals, Failure<'a>>
    ensures { OfInput 32769 input.entry (λ b. IsMade (with_file kind (said totals) b) result) }
{
    match kind {
        Kind::Sheet => with_sheet(totals, input),
        Kind::Script => with_script(totals, input),
    }
}

/// Reads the file of a name and adds it; or answers, if the call ends with it.
pub(crate) fn add_file<H: Host>(
    host: &mut H,
    kind: Kind,
    name: &str,
    totals: Totals,
    front: &mut [u8; KEPT],
) -> Result<Totals, Answer>
    ensures { FileAdded H.world kind name.now (said totals) host.old host.new result }
{
    match read_file(host, Some(name), front) {
        Ok(total) => match with_file(kind, totals, input_of(name, front, total)) {
            Ok(sum) => Ok(sum),
            Err(failure) => Err(Answer::failed(host.alloc(), failure)),
        },
        Err(answer) => Err(answer),
    }
}

// The answer to a call that names a script by bytes that are not UTF-8.
fn answer_bad_name(alloc: Global, name: &[u8]) -> Answer
    ensures { Gives (failure_of (bad_name name.now)) result }
{
    match failure_message(alloc, What::Open, name, b"the name is not UTF-8") {
        Ok(text) => Answer::Failure(text, Status::Failed),
        Err(_) => Answer::NoMemory,
    }
}

/// Reads the script of a name and adds it; or answers, if the call ends with it.
pub(crate) fn add_script<H: Host>(
    host: &mut H,
    name: &[u8],
    totals: Totals,
    front: &mut [u8; KEPT],
) -> Result<Totals, Answer>
    ensures { FileAdded H.world Script name.now (said totals) host.old host.new result }
{
    match str::from_utf8(name) {
        Ok(text) => add_file(host, Kind::Script, text, totals, front),
        Err(_) => Err(answer_bad_name(host.alloc(), name)),
    }
}
