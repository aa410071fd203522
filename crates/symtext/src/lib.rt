#![tactic(auto)]

//! What `symlist` prints for a script that was read chunk by chunk: the labels with their addresses and lines. There is no heap:
//! a text is put at the front of a slice that is lent.
ghost use Rattle.std.specs.Prelude.{◌≡◌, ◌+◌, ◌≤◌, length as len};
ghost use mathlib.Core.List.{flat_map};
ghost use Rattle.rules.specs.Text.{Text};
ghost use Rattle.requests.specs.Symbols.{rows, symbols};
ghost use Rattle.listing.specs.Writer.{Adds};
ghost use Rattle.station.specs.Station.{unless_failed, input_text};
ghost use Rattle.station.specs.Printed.{Printed};
ghost use Rattle.station.specs.Puts.{Puts, texts};
ghost use Rattle.station.specs.Reads.{Reads};
ghost use Rattle.symtext.specs.Symlist.{line_text, symbol_text, symbols_text};
ghost use Rattle.symtext.specs.Rows.{rows_text, RowsFit};

use answer::Refusal;
use listing::writer::Writer;
use rules::{MAX_LABELS, MAX_SOURCE};
use station::input::Input;
use station::{SCRIPT, TEXT, write_refusal};
use symbols::list_symbols;

/// As many bytes as the labels' lines take at most, with those that the last number might.
pub const SYMBOLS: usize = MAX_SOURCE + 15 * MAX_LABELS + 20;

// Writes a label's line.
fn push_line(name: &[u8], address: u32, line: u32, text: &mut Writer<'_>)
    requires { text.old.len + len name.now + 31 ≤ len text.old.out.now }
    ensures { Adds (line_text name.now address line) text.old text.new }
{
    text.push_bytes(name);
    text.push(b' ');
    text.push_digits(16, 8, u64::from(address));
    text.push(b' ');
    text.push_decimal(u64::from(line));
    text.push(b'\n');
}

// Writes the lines of rows.
fn push_lines(
    source: &[u8],
    starts: &[u32],
    lengths: &[u32],
    addresses: &[u32],
    lines: &[u32],
    text: &mut Writer<'_>,
)
    requires fits { RowsFit source.now (rows starts.now lengths.now addresses.now lines.now) }
    requires room { text.old.len + 36628 ≤ len text.old.out.now }
    ensures { Adds (rows_text source.now (rows starts.now lengths.now addresses.now lines.now)) text.old text.new }
{
    // A row stands at one index of four slices.
    for k in 0..starts.len() {
        // `usize` has no `From<u32>`.
        let start = starts[k] as usize;
        let end = start + lengths[k] as usize;
        push_line(&source[start..end], addresses[k], lines[k], text);
    }
}

/// Puts the lines of a source's labels at the front, and answers their length; or refuses the source, and puts nothing.
pub fn put_symbols(source: &[u8], base: u32, out: &mut [u8]) -> Result<usize, Refusal>
    requires { 36628 ≤ len out.old }
    ensures { Puts (texts (flat_map symbol_text) (symbols base source.now)) result out.old out.new }
{
    let mut starts = [0u32; MAX_LABELS];
    let mut lengths = [0u32; MAX_LABELS];
    let mut addresses = [0u32; MAX_LABELS];
    let mut lines = [0u32; MAX_LABELS];
    let count = list_symbols(
        source,
        base,
        &mut starts,
        &mut lengths,
        &mut addresses,
        &mut lines,
    )?;
    let mut text = Writer::new(out);
    push_lines(
        source,
        &starts[..count],
        &lengths[..count],
        &addresses[..count],
        &lines[..count],
        &mut text,
    );
    Ok(text.len)
}

/// Puts the lines of a source's labels, or that of its refusal, at the front, and answers their length.
pub fn write_symbols(source: &[u8], base: u32, out: &mut [u8; TEXT]) -> usize
    ensures { Printed (symbols_text base source.now) result out.old out.new }
{
    match put_symbols(source, base, out) {
        Ok(n) => n,
        Err(refusal) => write_refusal(refusal, out),
    }
}

/// Puts what is printed for an input that is a script at the front, and answers its length: nothing if it was not read whole.
// As `station`'s `script_text`, by a call of its own: why, stands there.
#[tactic(auto, using(station::proofs::Printed::printed_none, crate::proofs::Told::symbols_refuse_long, station::proofs::ScriptInput::front_is_enough), unfolding(station::specs::Station::input_text, station::specs::Station::unless_failed))]
pub fn symbols_text(script: &[u8; SCRIPT], input: Input, out: &mut [u8; TEXT]) -> usize
    ensures printed { Printed (input_text (symbols_text 0) input script.now) result out.old out.new }
    ensures script_value { (t : Text) → Reads t script.now input → input_text (symbols_text 0) input script.now ≡ unless_failed input (symbols_text 0 t) }
{
    if input.failed {
        return 0;
    }
    let total = input.total;
    if MAX_SOURCE < total {
        return write_refusal(Refusal::LongSource(total), out);
    }
    write_symbols(&script[..total], 0, out)
}
