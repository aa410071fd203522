//! One file after another: when one is read, what it comes to, and what is said if it cannot be read.
ghost use Rattle.std.specs.Prelude.{◌≡◌, ◌&&◌, false};
ghost use Rattle.rules.specs.Text.{Text};
ghost use Rattle.station.specs.Printed.{Printed};
ghost use Rattle.station.specs.Reads.{Reads};
ghost use Rattle.sheet.specs.Totals.{said};
ghost use Rattle.sheettext.specs.Steps.{summed, outcome, outcome_by};
ghost use Rattle.sheettext.specs.Files.{goes_on, file_step, with_file, unread_text};

use crate::names::NAME;
use crate::{Step, Stop, add_script, add_sheet_text};
use listing::writer::Writer;
use sheet::Totals;
use station::SCRIPT;
use station::input::Input;
use station::refused::Refused;

/// Room for what is said of a file: 24 bytes, as much of its name as is kept, and byte 10.
pub const UNREAD: usize = NAME + 25;

/// Whether a file that may be due is read: not after a step from which there is no going on.
// Each caller tells by a test of its own whether a file is `due`; the specs (`FileAdded`) take the same flag.
#[tactic(auto, unfolding(crate::specs::Files::goes_on))]
pub fn is_read<R: Refused>(step: Step<R>, due: bool) -> bool
    ensures { result ≡ (goes_on (outcome_by R.number R.place step) && due) }
{
    step.is_ok() && due
}

// The totals with those of a file more, a sheet or a script.
// Two kinds of file by a flag, here and below; the specs (`file_step`, `with_file`) take the same one.
fn add_read(totals: Totals, sheet: bool, script: &[u8; SCRIPT], input: Input) -> Step
    ensures result_value { outcome result ≡ file_step sheet input script.now (summed (said totals)) }
    ensures result_value_2 { (t : Text) → (input.failed ≡ false → Reads t script.now input) → outcome result ≡ with_file sheet input t (summed (said totals)) }
{
    if sheet {
        add_sheet_text(totals, script, input)
    } else {
        add_script(totals, script, input)
    }
}

// A step whose refusal, if it has one, is told as the caller's own are.
fn step_as<R: Refused>(step: Step) -> Step<R>
    ensures { outcome_by R.number R.place result ≡ outcome step }
{
    match step {
        Ok(totals) => Ok(totals),
        Err(Stop::Refused(refusal)) => Err(Stop::Refused(R::from_refusal(refusal))),
        Err(Stop::Wrong(line)) => Err(Stop::Wrong(line)),
        Err(Stop::Unread) => Err(Stop::Unread),
    }
}

/// A step with a file more that was read chunk by chunk, a sheet or a script.
pub fn with_file<R: Refused>(
    step: Step<R>,
    sheet: bool,
    script: &[u8; SCRIPT],
    input: Input,
) -> Step<R>
    ensures result_value { outcome_by R.number R.place result ≡ file_step sheet input script.now (outcome_by R.number R.place step) }
    ensures result_value_2 { (t : Text) → (input.failed ≡ false → Reads t script.now input) → outcome_by R.number R.place result ≡ with_file sheet input t (outcome_by R.number R.place step) }
{
    step_as(add_read(step?, sheet, script, input))
}

/// Puts what is said of a file at the front, and answers its length: nothing if it was read to its end.
pub fn unread_text(name: &[u8], input: Input, out: &mut [u8; UNREAD]) -> usize
    ensures { Printed (unread_text name.now input) result out.old out.new }
{
    if !input.failed {
        return 0;
    }
    let mut text = Writer::new(out);
    text.push_bytes(b"plantsheet: cannot read ");
    text.push_bytes(&name[..name.len().min(NAME)]);
    text.push(b'\n');
    text.len
}
