#![tactic(auto)]

//! What `tidy` prints for a script that was read chunk by chunk, its tidy copy, and what it says of a script that is refused; and
//! the answer of a call as a text. There is no heap: a text is put at the front of a slice that is lent.
ghost use Rattle.std.specs.Prelude.{◌≡◌};
ghost use Rattle.rules.specs.Text.{Text};
ghost use Rattle.station.specs.Station.{unless_failed, input_text};
ghost use Rattle.station.specs.Printed.{Printed};
ghost use Rattle.station.specs.Reads.{Reads};
ghost use Rattle.tidytext.specs.Tidy.{copy_text, refusal_text, copy_input_text, tidied_text};

use answer::Refusal;
use rules::MAX_SOURCE;
use source::check_source;
use station::failure::SAID;
use station::input::Input;
use station::{SCRIPT, TEXT, write_refusal};
use tidied::tidy_copy;

// Puts the copy of a script at the front, and answers its length: nothing if it is refused.
fn write_copy(script: &[u8], out: &mut [u8; SCRIPT]) -> usize
    ensures { Printed (copy_text script.now) result out.old out.new }
{
    tidy_copy(script, out).unwrap_or(0)
}

/// Puts what is printed for an input that is a script at the front, and answers its length: nothing if it was not read whole.
pub fn copy_text(script: &[u8; SCRIPT], input: Input, out: &mut [u8; SCRIPT]) -> usize
    ensures printed { Printed (copy_input_text input script.now) result out.old out.new }
    ensures script_value { (t : Text) → Reads t script.now input → copy_input_text input script.now ≡ unless_failed input (copy_text t) }
{
    if input.failed {
        return 0;
    }
    let total = input.total;
    if MAX_SOURCE < total {
        return 0;
    }
    write_copy(&script[..total], out)
}

// Puts the line of a script's refusal at the front, and answers its length: nothing if it is not refused.
fn write_checked(script: &[u8], out: &mut [u8; SAID]) -> usize
    ensures { Printed (refusal_text script.now) result out.old out.new }
{
    match check_source(script) {
        Ok(_) => 0,
        Err(refusal) => write_refusal(refusal, out),
    }
}

// One function with `station::script_text` would take what writes the text as a closure, with its clauses, and the array's size: no
// plainer than the tests.
/// Puts what is said of an input that is a script at the front, and answers its length: nothing if it was not read whole.
pub fn refusal_text(script: &[u8; SCRIPT], input: Input, out: &mut [u8; SAID]) -> usize
    ensures printed { Printed (input_text refusal_text input script.now) result out.old out.new }
    ensures script_value { (t : Text) → Reads t script.now input → input_text refusal_text input script.now ≡ unless_failed input (refusal_text t) }
{
    if input.failed {
        return 0;
    }
    let total = input.total;
    if MAX_SOURCE < total {
        return write_refusal(Refusal::LongSource(total), out);
    }
    write_checked(&script[..total], out)
}

/// Puts the copy of a source, with so much room lent, or the line of a refusal at the front, and answers its length.
pub fn write_tidied(source: &[u8], room: usize, out: &mut [u8; TEXT]) -> usize
    ensures { Printed (tidied_text room source.now) result out.old out.new }
{
    // No copy is longer than a script.
    let size = room.min(SCRIPT);
    match tidy_copy(source, &mut out[..size]) {
        Ok(n) => n,
        Err(refusal) => write_refusal(refusal, out),
    }
}
