//! What a program says on standard error.
ghost use Rattle.std.specs.Prelude.{◌++◌, ◌≤◌, length, take};
ghost use Rattle.station.specs.Station.{failure_text, tabled_failure_text};
ghost use Rattle.station.specs.Printed.{Printed};

use crate::input::Input;
use listing::writer::Writer;

/// Room for what is said.
pub const SAID: usize = 128;

// As much of a program's name as is said.
const NAME: usize = 32;

// Puts a program's name and the words after it at the front, and answers their length.
fn write_said(name: &[u8], words: &[u8], out: &mut [u8; SAID]) -> usize
    requires { length words.now ≤ 96 }
    ensures { Printed (take 32 name.now ++ words.now) result out.old out.new }
{
    let mut text = Writer::new(out);
    text.push_bytes(&name[..name.len().min(NAME)]);
    text.push_bytes(words);
    text.len
}

/// Puts what a program says at its end at the front, and answers its length: nothing if all was read and written.
// `written`, here and below, is what standard output did, and picks no step.
#[tactic(auto, using(crate::proofs::Printed::printed_none), unfolding(crate::specs::Station::failure_text, rules::specs::Text::bytes))]
pub fn failure_text(name: &[u8], input: Input, written: bool, out: &mut [u8; SAID]) -> usize
    ensures { Printed (failure_text name.now input written) result out.old out.new }
{
    if input.failed {
        return write_said(name, b": the input cannot be read to its end\n", out);
    }
    if !written {
        return write_said(name, b": the output is not whole\n", out);
    }
    0
}

/// The same of a program that may read a branch table before its input.
#[tactic(auto, unfolding(crate::specs::Station::tabled_failure_text, rules::specs::Text::bytes))]
pub fn tabled_failure_text(
    name: &[u8],
    table: Input,
    input: Input,
    written: bool,
    out: &mut [u8; SAID],
) -> usize
    ensures { Printed (tabled_failure_text name.now table input written) result out.old out.new }
{
    if table.failed {
        return write_said(name, b": the branch table cannot be read to its end\n", out);
    }
    failure_text(name, input, written, out)
}
