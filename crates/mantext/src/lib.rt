#![tactic(auto)]

//! What `manlist` prints for a script that was read chunk by chunk: its list by the manual's own words. There is no heap: a text
//! is put at the front of a slice that is lent.
ghost use Rattle.std.specs.Prelude.{◌≡◌};
ghost use Rattle.rules.specs.Text.{Text};
ghost use Rattle.station.specs.Station.{unless_failed, input_text};
ghost use Rattle.station.specs.Printed.{Printed};
ghost use Rattle.station.specs.Reads.{Reads};
ghost use Rattle.mantext.specs.Manlist.{manual_text};

use answer::Refusal;
use assemble::assemble_manual;
use rules::MAX_SOURCE;
use station::input::Input;
use station::{PLACES, SCRIPT, TEXT, write_answer, write_refusal};

/// Puts the text for a source at a base, its list or its refusal, at the front, and answers its length.
// As `station`'s `assemble_text`, by another call: what both have in common is `write_answer`.
pub fn write_manual(source: &[u8], base: u32, out: &mut [u8; TEXT]) -> usize
    ensures { Printed (manual_text base source.now) result out.old out.new }
{
    let mut addresses = [0u32; PLACES];
    let mut words = [0u16; PLACES];
    let mut marks = [0u8; PLACES];
    let answer = assemble_manual(source, base, &mut addresses, &mut words, &mut marks);
    write_answer(answer, &addresses, &words, &marks, out)
}

/// Puts what is printed for an input that is a script at the front, and answers its length: nothing if it was not read whole.
// As `station`'s `script_text`, by a call of its own: why, stands there.
#[tactic(auto, using(station::proofs::Printed::printed_none, crate::proofs::Listed::manual_refuses_long, station::proofs::ScriptInput::front_is_enough), unfolding(station::specs::Station::input_text, station::specs::Station::unless_failed))]
pub fn manual_text(script: &[u8; SCRIPT], input: Input, out: &mut [u8; TEXT]) -> usize
    ensures printed { Printed (input_text (manual_text 0) input script.now) result out.old out.new }
    ensures script_value { (t : Text) → Reads t script.now input → input_text (manual_text 0) input script.now ≡ unless_failed input (manual_text 0 t) }
{
    if input.failed {
        return 0;
    }
    let total = input.total;
    if MAX_SOURCE < total {
        return write_refusal(Refusal::LongSource(total), out);
    }
    write_manual(&script[..total], 0, out)
}
