#![tactic(auto)]

//! What the programs at the station print: texts put into an array, for a script or a list that was read chunk by chunk.
//! A program's `main` only reads, calls and writes. A text stands at the front of what a caller lends, since there is no heap, and its
//! length is the answer, which C is told apart from the bytes.
pub mod arguments; // arguments.rt: what a program is told
pub mod failure; // failure.rt: what a program says on standard error
pub mod input; // input.rt: reading to the end, of which the front is kept
pub mod refused; // refused.rt: a refusal by its number and its place

ghost use Rattle.std.specs.Prelude.{◌≡◌, ◌≤◌, min, length, take};
ghost use Rattle.rules.specs.Text.{Text};
ghost use Rattle.rules.specs.Assemble.{slices};
ghost use Rattle.answer.specs.Refusal.{number_of, place_of};
ghost use Rattle.listing.specs.Listing.{refused_text};
ghost use Rattle.station.specs.Station.{answer_text, script_text, wrong_line_text, moved_text, unless_failed, input_text, list_input_text};
ghost use Rattle.station.specs.Printed.{Printed};
ghost use Rattle.station.specs.Reads.{Reads};
ghost use Rattle.station.specs.Refused.{answer_by};

use answer::Refusal;
use assemble::assemble;
use input::Input;
use listing::reading::read_list;
use listing::writer::Writer;
use listing::writing::{LINE, write_list, write_refused};
use refused::Refused;
use relocate::relocate;
use rules::MAX_SOURCE;

/// The places of the longest list there is: three for each line of a source, by the manual's call.
pub const PLACES: usize = 12288;

/// The bytes of its text.
pub const TEXT: usize = LINE * PLACES;

/// As much of a script as has to be kept: over the limit only its length counts.
pub const SCRIPT: usize = MAX_SOURCE;

/// As much of a list's text as has to be kept: a byte more than the longest has, so that a line too many is seen.
pub const LIST: usize = TEXT + 1;

/// As much of a branch table as has to be kept: 16 rows of six bytes, and the byte that ends them.
pub const TABLE: usize = 97;

/// Puts the line of a refusal at the front, and answers its length.
pub fn write_refusal(refusal: Refusal, out: &mut [u8]) -> usize
    requires { 64 ≤ length out.old }
    ensures { Printed (refused_text (number_of refusal) (place_of refusal)) result out.old out.new }
{
    write_refused(refusal.number(), refusal.place(), out)
}

/// Puts the text for an answer, a list or the line of a refusal, at the front, and answers its length.
// The slices side by side, as C lends them.
pub fn write_answer<R: Refused>(
    answer: Result<usize, R>,
    addresses: &[u32; PLACES],
    words: &[u16; PLACES],
    marks: &[u8; PLACES],
    out: &mut [u8; TEXT],
) -> usize
    ensures { Printed (answer_text (answer_by R.number R.place answer) (slices addresses.now words.now marks.now)) result out.old out.new }
{
    match answer {
        Ok(n) => write_list(addresses, words, marks, n.min(PLACES), out),
        Err(refusal) => write_refused(refusal.number(), refusal.place(), out),
    }
}

// Puts the text for a script at the front, and answers its length. `mantext` and `branchtext` do the same by other calls, with a base or
// names: what these have in common is `write_answer`.
fn assemble_text(script: &[u8], out: &mut [u8; TEXT]) -> usize
    ensures { Printed (script_text script.now) result out.old out.new }
{
    let mut addresses = [0u32; PLACES];
    let mut words = [0u16; PLACES];
    let mut marks = [0u8; PLACES];
    let answer = assemble(script, 0, &mut addresses, &mut words, &mut marks);
    write_answer(answer, &addresses, &words, &marks, out)
}

/// Puts what is printed for an input that is a script at the front, and answers its length: nothing if it was not read whole.
// The other crates of texts do the same by a call of their own, with other arguments: as a closure it would need clauses as long as this.
#[tactic(auto, using(crate::proofs::Printed::printed_none, crate::proofs::Script::script_refuses_long, crate::proofs::ScriptInput::front_is_enough), unfolding(crate::specs::Station::input_text, crate::specs::Station::unless_failed))]
pub fn script_text(script: &[u8; SCRIPT], input: Input, out: &mut [u8; TEXT]) -> usize
    ensures printed { Printed (input_text script_text input script.now) result out.old out.new }
    ensures script_value { (t : Text) → Reads t script.now input → input_text script_text input script.now ≡ unless_failed input (script_text t) }
{
    if input.failed {
        return 0;
    }
    let total = input.total;
    if MAX_SOURCE < total {
        return write_refusal(Refusal::LongSource(total), out);
    }
    assemble_text(&script[..total], out)
}

/// Puts the line for a text that is no list's at the front, and answers its length.
pub fn write_wrong_line(n: usize, out: &mut [u8; TEXT]) -> usize
    ensures { Printed (wrong_line_text n) result out.old out.new }
{
    let mut text = Writer::new(out);
    text.push_bytes(b"not a list: line ");
    // `u64` has no `From<usize>`.
    text.push_decimal(n as u64);
    text.push(b'\n');
    text.len
}

// Puts the text for a move of the list in a text at the front, and answers its length.
fn move_text(list: &[u8], distance: i32, out: &mut [u8; TEXT]) -> usize
    ensures { Printed (moved_text distance list.now) result out.old out.new }
{
    let mut addresses = [0u32; PLACES];
    let mut words = [0u16; PLACES];
    let mut marks = [0u8; PLACES];
    match read_list(list, &mut addresses, &mut words, &mut marks) {
        Ok(n) => {
            let answer = relocate(&mut addresses, &mut words, &marks, n, distance);
            write_answer(answer, &addresses, &words, &marks, out)
        }
        Err(line) => write_wrong_line(line.number, out),
    }
}

/// Puts what is printed for an input that is a list at the front, and answers its length: nothing if it was not read whole.
pub fn list_text(list: &[u8; LIST], input: Input, distance: i32, out: &mut [u8; TEXT]) -> usize
    ensures printed { Printed (list_input_text distance input list.now) result out.old out.new }
    ensures list_value { (t : Text) → Reads t list.now input → list_input_text distance input list.now ≡ unless_failed input (moved_text distance t) }
{
    if input.failed {
        return 0;
    }
    move_text(&list[..input.total.min(LIST)], distance, out)
}
