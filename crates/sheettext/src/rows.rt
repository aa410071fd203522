//! A sheet's text, row by row: a name, a space, the total in decimal; then the mean as words and accepted scripts.
ghost use Rattle.std.specs.Prelude.{◌+◌, ◌≤◌, length};
ghost use Rattle.requests.specs.Sheet.{mean_of};
ghost use Rattle.listing.specs.Writer.{Adds};
ghost use Rattle.station.specs.Printed.{Printed};
ghost use Rattle.sheet.specs.Totals.{said};
ghost use Rattle.sheettext.specs.Rows.{part_text, plain_text, code_text, counts_text, mean_text, sheet_text};

use listing::writer::Writer;
use sheet::Totals;

/// Writes words, a number and a byte.
pub fn push_part(words: &[u8], n: u64, stop: u8, text: &mut Writer<'_>)
    requires { text.old.len + (length words.now + 21) ≤ length text.old.out.now }
    ensures text { Adds (part_text words.now n stop) text.old text.new }
    ensures short { text.new.len ≤ text.old.len + (length words.now + 21) }
{
    text.push_bytes(words);
    text.push_decimal(n);
    text.push(stop);
}

// Writes the rows of lines that are no instructions.
fn push_plain(t: Totals, text: &mut Writer<'_>)
    requires { text.old.len + 107 ≤ length text.old.out.now }
    ensures text { Adds (plain_text (said t)) text.old text.new }
    ensures short { text.new.len ≤ text.old.len + 107 }
{
    push_part(b"skipped ", t.skipped, b'\n', text);
    push_part(b"org ", t.org, b'\n', text);
    push_part(b"label ", t.label, b'\n', text);
    push_part(b"data ", t.defined, b'\n', text);
}

// Writes the rows of instructions and of END.
fn push_code(t: Totals, text: &mut Writer<'_>)
    requires { text.old.len + 81 ≤ length text.old.out.now }
    ensures text { Adds (code_text (said t)) text.old text.new }
    ensures short { text.new.len ≤ text.old.len + 81 }
{
    push_part(b"word ", t.worded, b'\n', text);
    push_part(b"wordless ", t.wordless, b'\n', text);
    push_part(b"end ", t.ended, b'\n', text);
}

// Writes the rows of words, labels and sources.
fn push_counts(t: Totals, text: &mut Writer<'_>)
    requires { text.old.len + 142 ≤ length text.old.out.now }
    ensures text { Adds (counts_text (said t)) text.old text.new }
    ensures short { text.new.len ≤ text.old.len + 142 }
{
    push_part(b"words ", t.words, b'\n', text);
    push_part(b"marked ", t.marked, b'\n', text);
    push_part(b"labels ", t.labels, b'\n', text);
    push_part(b"accepted ", t.accepted, b'\n', text);
    push_part(b"refused ", t.refused, b'\n', text);
}

// Writes the row of the mean, which is two whole numbers.
fn push_mean(t: Totals, text: &mut Writer<'_>)
    requires { text.old.len + 47 ≤ length text.old.out.now }
    ensures { Adds (mean_text (mean_of (said t))) text.old text.new }
{
    push_part(b"mean ", t.words, b' ', text);
    push_part(b"", t.accepted, b'\n', text);
}

/// Puts a sheet's text at the front, and answers its length.
pub fn write_sheet(t: Totals, out: &mut [u8]) -> usize
    requires { 377 ≤ length out.old }
    ensures { Printed (sheet_text (said t)) result out.old out.new }
{
    let mut text = Writer::new(out);
    push_plain(t, &mut text);
    push_code(t, &mut text);
    push_counts(t, &mut text);
    push_mean(t, &mut text);
    text.len
}
