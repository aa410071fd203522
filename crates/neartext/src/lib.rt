#![tactic(auto)]

//! What `nearlabel` prints for a script that was read chunk by chunk: the label nearest to an address; and what its arguments ask.
//! There is no heap: a text is put at the front of a slice that is lent.
ghost use Rattle.std.specs.Prelude.{◌≡◌, ◌+◌, ◌≤◌, length as len};
ghost use Rattle.rules.specs.Text.{Text};
ghost use Rattle.requests.specs.Nearest.{nearest};
ghost use Rattle.listing.specs.Writer.{Adds};
ghost use Rattle.station.specs.Station.{unless_failed, input_text};
ghost use Rattle.station.specs.Printed.{Printed};
ghost use Rattle.station.specs.Puts.{Puts, texts};
ghost use Rattle.station.specs.Reads.{Reads};
ghost use Rattle.neartext.specs.NearLabel.{label_text, nearest_line, near_text, asked_at, asked_by};

use answer::Refusal;
use listing::writer::Writer;
use nearest::nearest_label;
use numeral::Failure;
use rules::MAX_SOURCE;
use station::arguments::hexadecimal;
use station::input::Input;
use station::{SCRIPT, TEXT, write_refusal};

/// What the arguments ask for: the label near an address, the script at a base.
#[derive(Clone, Copy, Debug, PartialEq, Eq, Hash)]
pub struct Asked {
    pub address: u32,
    pub base: u32,
}

// What an address and a base ask, if both are read.
fn asked_at(address: Result<u32, Failure>, base: Result<u32, Failure>) -> Option<Asked>
    ensures { result ≡ asked_at address base }
{
    Some(Asked {
        address: address.ok()?,
        base: base.ok()?,
    })
}

/// What an address asks, or an address and a base; `count` is that of the arguments with the program's own name. `None` where they
/// are others, or are no such numbers.
#[tactic(auto, unfolding(crate::specs::NearLabel::asked_by))]
pub fn asked_by(count: usize, address: &[u8], base: &[u8]) -> Option<Asked>
    ensures { result ≡ asked_by count address.now base.now }
{
    match count {
        2 => asked_at(hexadecimal(address), Ok(0)),
        3 => asked_at(hexadecimal(address), hexadecimal(base)),
        _ => None,
    }
}

/// As many bytes as the line of a label takes at most.
pub const NEAR: usize = MAX_SOURCE + 22;

// Writes a label's line.
fn push_label(name: &[u8], distance: u32, text: &mut Writer<'_>)
    requires { text.old.len + len name.now + 22 ≤ len text.old.out.now }
    ensures { Adds (label_text name.now distance) text.old text.new }
{
    text.push_bytes(name);
    text.push(b' ');
    text.push_decimal(u64::from(distance));
    text.push(b'\n');
}

// Puts the line of the label near an address at the front, and answers its length; or refuses the script, and puts nothing.
fn put_nearest(source: &[u8], base: u32, address: u32, out: &mut [u8]) -> Result<usize, Refusal>
    requires { len source.now + 22 ≤ len out.old }
    ensures { Puts (texts (nearest_line source.now) (nearest base source.now address)) result out.old out.new }
{
    let label = nearest_label(source, base, address)?;
    let end = label.start + label.length;
    let name = &source[label.start..end];
    let mut text = Writer::new(out);
    push_label(name, label.distance, &mut text);
    Ok(text.len)
}

/// The same for a source of any length.
pub fn put_near(source: &[u8], base: u32, address: u32, out: &mut [u8]) -> Result<usize, Refusal>
    requires { 32790 ≤ len out.old }
    ensures { Puts (texts (nearest_line source.now) (nearest base source.now address)) result out.old out.new }
{
    let length = source.len();
    if MAX_SOURCE < length {
        return Err(Refusal::LongSource(length));
    }
    put_nearest(source, base, address, out)
}

/// Puts the line of the label near an address, or that of the refusal, at the front, and answers its length.
pub fn write_near(source: &[u8], base: u32, address: u32, out: &mut [u8; TEXT]) -> usize
    ensures { Printed (near_text base address source.now) result out.old out.new }
{
    match put_near(source, base, address, out) {
        Ok(n) => n,
        Err(refusal) => write_refusal(refusal, out),
    }
}

/// Puts what is printed for an input that is a script at the front, and answers its length: nothing if it was not read whole.
// As `station`'s `script_text`, by a call of its own: why, stands there.
#[tactic(auto, using(station::proofs::Printed::printed_none, crate::proofs::Told::near_refuses_long, station::proofs::ScriptInput::front_is_enough), unfolding(station::specs::Station::input_text, station::specs::Station::unless_failed))]
pub fn near_text(
    script: &[u8; SCRIPT],
    input: Input,
    base: u32,
    address: u32,
    out: &mut [u8; TEXT],
) -> usize
    ensures printed { Printed (input_text (near_text base address) input script.now) result out.old out.new }
    ensures script_value { (t : Text) → Reads t script.now input → input_text (near_text base address) input script.now ≡ unless_failed input (near_text base address t) }
{
    if input.failed {
        return 0;
    }
    let total = input.total;
    if MAX_SOURCE < total {
        return write_refusal(Refusal::LongSource(total), out);
    }
    write_near(&script[..total], base, address, out)
}
