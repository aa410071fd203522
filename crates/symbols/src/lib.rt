#![tactic(auto)]

//! The labels of a source with their lines: the first pass, then one walk over the labels in the order in which they start.
ghost use Rattle.std.specs.Prelude.{◌≡◌, ◌≤◌, Option, length, nat_eq, count_by};
ghost use Rattle.std.specs.Bool.{OnFalse};
ghost use Rattle.std.specs.Option.{option_map};
ghost use Rattle.rules.specs.Label.{Label};
ghost use Rattle.requests.specs.Symbols.{rows, in_order, short_rows, holding_rows, symbols_answer, symbols_rows};
ghost use Rattle.text.specs.Breaks.{breaks};
ghost use Rattle.answer.specs.Refusal.{answer_of};
ghost use Rattle.label.specs.Numbers.{numbers_of};
ghost use Rattle.symbols.specs.Symbols.{earlier_of, next_in, WriteRowsNeeds};

use answer::Refusal;
use label::{Labels, Row};

// Of two rows the one that starts first, where `row` counts only if it starts at `from` or later.
fn earlier_row(row: Row, best: Option<Row>, from: usize) -> Option<Row>
    ensures { (l : Label) (o : Option Label) → row ≡ numbers_of l → best ≡ option_map numbers_of o → result ≡ option_map numbers_of (earlier_of from l o) }
{
    if row.start < from {
        return best;
    }
    // Without a best row this one is it: no None to hand on.
    let Some(other) = best else {
        return Some(row);
    };
    if row.start < other.start {
        return Some(row);
    }
    best
}

// Of the labels that start at `from` or later the one that starts first, by one walk, as a row is read by its number. `nearest` walks
// so too: one walk for both would want a trait and a type for each, which is more than the loop.
fn next_row(labels: &Labels<'_>, from: usize) -> Option<Row>
    ensures { result ≡ option_map numbers_of (next_in from labels.now.table) }
{
    let mut best = None;
    for k in (0..labels.len()).rev() {
        best = earlier_row(labels.row(k), best, from);
    }
    best
}

// How many bytes 10 a text has.
#[tactic(auto, using(crate::proofs::Counting::breaks_counted))]
fn count_breaks(s: &[u8]) -> usize
    ensures { result ≡ breaks s.now }
{
    count_newlines(s)
}

// The same, promised in std's words, as the chain's own promise is: `count_breaks` ties them to the rules. `source` counts in a `u16`, many
// bytes at a time, and so asks for a short text, as this does not.
fn count_newlines(s: &[u8]) -> usize
    ensures { result ≡ count_by (λ b. nat_eq b 10) s.now }
{
    s.iter().filter(|&&b| b == b'\n').count()
}

// Writes a row for each label, in the order in which they start. A label's line is one more than the bytes 10 before it.
// The four slices are those of the C interface. As a call: inlined, the cells of the first pass are cleared first, 32 KB a call.
#[inline(never)]
fn write_rows(
    labels: &Labels<'_>,
    starts: &mut [u32],
    lengths: &mut [u32],
    addresses: &mut [u32],
    lines: &mut [u32],
)
    requires { WriteRowsNeeds labels.now (rows starts.old lengths.old addresses.old lines.old) }
    ensures { rows starts.new lengths.new addresses.new lines.new ≡ holding_rows (in_order labels.now.table) (rows starts.old lengths.old addresses.old lines.old) }
{
    let source = labels.source();
    let mut line = 1;
    let mut at = 0;
    let mut from = 0;
    let mut k = 0;
    // Each row is sought from where the last one starts, and goes into place k of four slices.
    while let Some(row) = next_row(labels, from) {
        line += count_breaks(&source[at..row.start]);
        // A source's places and lines are far below 2^32.
        starts[k] = row.start as u32;
        lengths[k] = row.length as u32;
        addresses[k] = row.address;
        lines[k] = line as u32;
        at = row.start;
        from = row.start + 1;
        k += 1;
    }
}

// Whether a slice is shorter than `count`.
#[tactic(auto, unfolding(requests::specs::Symbols::short_rows))]
fn is_short(starts: &[u32], lengths: &[u32], addresses: &[u32], lines: &[u32], count: usize) -> bool
    ensures { result ≡ short_rows (rows starts.now lengths.now addresses.now lines.now) count }
{
    starts.len() < count || lengths.len() < count || addresses.len() < count || lines.len() < count
}

/// Lists the labels of a source assembled at `base`, in the order of the lines on which their addresses were last set, step 4's
/// label before step 5's of the same line: each one's start and length in the source, its address and its line, from 1. Answers
/// how many there are. Refuses by 1 to 6 as assembling does, then by 7 if a slice is too short; a refusal writes nothing.
pub fn list_symbols(
    source: &[u8],
    base: u32,
    starts: &mut [u32],
    lengths: &mut [u32],
    addresses: &mut [u32],
    lines: &mut [u32],
) -> Result<usize, Refusal>
    ensures answer { answer_of result ≡ symbols_answer base source.now (rows starts.old lengths.old addresses.old lines.old) }
    ensures rows { rows starts.new lengths.new addresses.new lines.new ≡ symbols_rows base source.now (rows starts.old lengths.old addresses.old lines.old) }
{
    // Without a heap: as large as the largest source needs.
    let mut table = [0; label::TABLE];
    let mut cells = [0; 2 * rules::MAX_LINES];
    let mut labels = Labels::new(source, &mut table);
    first::enter(&mut labels, base, &mut cells)?;
    let count = labels.len();
    if is_short(starts, lengths, addresses, lines, count) {
        return Err(Refusal::ShortSlice(count));
    }
    write_rows(&labels, starts, lengths, addresses, lines);
    Ok(count)
}
