#![tactic(auto)]

//! What `plantsheet` prints, and what a step of it comes to: a script or a sheet that was read is added to the totals.
//! There is no heap: a text is put at the front of a slice that is lent.
ghost use Rattle.std.specs.Prelude.{◌≡◌, ◌≤◌, length as len, take};
ghost use Rattle.rules.specs.Text.{Text};
ghost use Rattle.requests.specs.Sheet.{no_totals, add_source};
ghost use Rattle.station.specs.Printed.{Printed};
ghost use Rattle.station.specs.Reads.{Reads};
ghost use Rattle.sheet.specs.Totals.{said, answered};
ghost use Rattle.sheettext.specs.Steps.{summed, outcome, outcome_by, outcome_of, over_long, script_step, unless_unread, sheet_answer, sheet_step, step_text};
ghost use Rattle.sheettext.specs.Back.{sheet_in};

use answer::Refusal;
use back::read_sheet;
use listing::reading::BadLine;
use listing::writer::Writer;
use listing::writing::write_refused;
use rows::{push_part, write_sheet};
use rules::MAX_SOURCE;
use sheet::{NO_TOTALS, Totals, add_sheet, add_source};
use station::SCRIPT;
use station::input::Input;
use station::refused::Refused;

pub mod rows; // rows.rt: a sheet's text, row by row
pub mod back; // back.rt: a sheet read back from its text
pub mod arguments; // arguments.rt: what the arguments say
pub mod names; // names.rt: names taken out of chunks
pub mod files; // files.rt: one file after another

/// Room for a sheet's text, which has at most 377 bytes.
pub const SHEET: usize = 512;

/// Why there is no going on; a refusal is one of a source or a sheet, or whatever else has a number and a place.
// No `Result` or `Option` in it: the three reasons are alike, and `Step` is the `Result` over them.
#[derive(Clone, Copy, Debug, PartialEq, Eq, Hash)]
pub enum Stop<R = Refusal> {
    /// By 20 or 21 where a source or a sheet was added.
    Refused(R),
    /// A text that is no sheet's: its first wrong line.
    Wrong(BadLine),
    /// A file that cannot be read to its end.
    Unread,
}

/// What a step comes to: totals to go on with, or why there is no going on.
pub type Step<R = Refusal> = Result<Totals, Stop<R>>;

/// Before the first source.
pub fn no_sources() -> Step
    ensures { outcome result ≡ summed no_totals }
{
    Ok(NO_TOTALS)
}

// An answer as a step.
#[tactic(auto, unfolding(crate::specs::Steps::outcome_of))]
fn step_of(added: Result<Totals, Refusal>) -> Step
    ensures { outcome result ≡ outcome_of (answered added) }
{
    added.map_err(Stop::Refused)
}

// ---- A script.

// The totals with a script more.
fn add_bytes(totals: Totals, bytes: &[u8]) -> Step
    ensures { outcome result ≡ outcome_of (add_source (said totals) bytes.now) }
{
    step_of(add_source(totals, bytes))
}

// The totals with a script more that is over the limit: whatever its bytes, it is refused.
fn add_long(totals: Totals) -> Step
    ensures { outcome result ≡ outcome_of (add_source (said totals) over_long) }
{
    let long = [0u8; MAX_SOURCE + 1];
    step_of(add_source(totals, &long))
}

/// The totals with a script more that was read chunk by chunk.
pub fn add_script(totals: Totals, script: &[u8; SCRIPT], input: Input) -> Step
    ensures result_value { outcome result ≡ script_step (said totals) input script.now }
    ensures script_value { (t : Text) → Reads t script.now input → script_step (said totals) input script.now ≡ unless_unread input (outcome_of (add_source (said totals) t)) }
{
    if input.failed {
        return Err(Stop::Unread);
    }
    let total = input.total;
    if MAX_SOURCE < total {
        return add_long(totals);
    }
    add_bytes(totals, &script[..total])
}

// ---- A sheet.

// The totals with those of the sheet in a text.
fn add_text(totals: Totals, bytes: &[u8]) -> Step
    requires { len bytes.now ≤ 32768 }
    ensures { outcome result ≡ sheet_answer (said totals) (sheet_in bytes.now) }
{
    let sheet = read_sheet(bytes).map_err(Stop::Wrong)?;
    step_of(add_sheet(totals, sheet))
}

/// The totals with those of a sheet's text that was read chunk by chunk; it is judged by its first 32,768 bytes, for no sheet has more.
pub fn add_sheet_text(totals: Totals, script: &[u8; SCRIPT], input: Input) -> Step
    ensures result_value { outcome result ≡ sheet_step (said totals) input script.now }
    ensures script_value { (t : Text) → Reads t script.now input → sheet_step (said totals) input script.now ≡ unless_unread input (sheet_answer (said totals) (sheet_in (take 32768 t))) }
{
    if input.failed {
        return Err(Stop::Unread);
    }
    let total = input.total;
    if SCRIPT < total {
        return add_text(totals, script);
    }
    add_text(totals, &script[..total])
}

// ---- What is printed.

/// The step at the end of the names: nothing is printed if they could not be read to it.
pub fn ended<R: Refused>(step: Step<R>, input: Input) -> Step<R>
    ensures { outcome_by R.number R.place result ≡ unless_unread input (outcome_by R.number R.place step) }
{
    if input.failed {
        return Err(Stop::Unread);
    }
    step
}

/// Puts the text of a step at the front, and answers its length: a sheet, or the line of a refusal or of a wrong line; nothing for a
/// file that was not read.
pub fn step_text<R: Refused>(step: Step<R>, out: &mut [u8; SHEET]) -> usize
    ensures { Printed (step_text (outcome_by R.number R.place step)) result out.old out.new }
{
    match step {
        Ok(totals) => write_sheet(totals, out),
        Err(Stop::Refused(refusal)) => write_refused(refusal.number(), refusal.place(), out),
        Err(Stop::Wrong(line)) => {
            let mut text = Writer::new(out);
            // By `as`: `u64` has no `From<usize>`.
            push_part(b"not a sheet: line ", line.number as u64, b'\n', &mut text);
            text.len
        }
        Err(Stop::Unread) => 0,
    }
}
