#![tactic(auto)]

//! The calls beside assembling and moving by the numbers that they have in records, each answered as a text, and a recorded text compared with it.
//! There is no heap: a text is put at the front of a slice that is lent.
ghost use Rattle.std.specs.Prelude.{◌≡◌, true, ◌↔◌, ◌+◌, ◌≤◌, min, length as len, take, drop};
ghost use Rattle.listing.specs.Writer.{Adds};
ghost use Rattle.station.specs.Printed.{Printed};
ghost use Rattle.rules.specs.Directive.{line_reading};
ghost use Rattle.directive.specs.Directive.{line_number_of};
ghost use Rattle.requests.specs.Nearest.{nearest};
ghost use Rattle.branchtext.specs.BranchText.{list_under_text, lines_under_text};
ghost use Rattle.requests.specs.Sheet.{add_source};
ghost use Rattle.sheet.specs.Totals.{said};
ghost use Rattle.sheettext.specs.Rows.{sheet_text};
ghost use Rattle.benchtext.specs.BenchText.{row_text};
ghost use Rattle.calls.specs.Calls.{number_text, answered_text, nearest_text, read_text, failure_text, said_text, call_text, is_call, run_of, empty_sources, CallAgrees};

use benchtext::arguments::Given;
use benchtext::parsed_row;
use branchtext::{write_lines_under, write_list_under};
use directive::line_number;
use listing::writer::Writer;
use listing::writing::write_bytes;
use mantext::write_manual;
use nearest::{Nearest, nearest_label};
use numeral::Failure;
use sheet::{NO_TOTALS, Totals, add_source};
use sheettext::rows::write_sheet;
use station::write_refusal;
use symtext::write_symbols;
use tidytext::write_tidied;
use whytext::write_line_verdict;

/// The bytes of the longest text there is, a list's.
pub const ROOM: usize = station::TEXT;

// The calls' numbers go on from the assembler's, which is 1.
const FIRST: u8 = 2;

const LAST: u8 = 11;

// ---- Texts.

// Writes a number in decimal and the byte after it.
fn push_number(n: u64, after: u8, text: &mut Writer<'_>)
    requires { text.old.len + 21 ≤ len text.old.out.now }
    ensures text { Adds (number_text n after) text.old text.new }
    ensures short { text.new.len ≤ text.old.len + 21 }
{
    text.push_decimal(n);
    text.push(after);
}

// ---- The calls.

// Puts the three numbers of the nearest label at the front, and answers their length.
fn write_nearest(label: Nearest, out: &mut [u8; ROOM]) -> usize
    ensures { Printed (nearest_text (record { start = label.start; length = label.length; distance = label.distance })) result out.old out.new }
{
    let mut text = Writer::new(out);
    // By `as`: `u64` has no `From<usize>`.
    push_number(label.start as u64, b' ', &mut text);
    push_number(label.length as u64, b' ', &mut text);
    push_number(u64::from(label.distance), b'\n', &mut text);
    text.len
}

// Puts the answer on the nearest label at the front, and answers its length.
fn nearest_text(source: &[u8], base: u32, address: u32, out: &mut [u8; ROOM]) -> usize
    ensures { Printed (answered_text nearest_text (nearest base source.now address)) result out.old out.new }
{
    match nearest_label(source, base, address) {
        Ok(label) => write_nearest(label, out),
        Err(refusal) => write_refusal(refusal, out),
    }
}

// Puts a number that was read at the front, and answers the text's length.
fn write_value(v: u32, out: &mut [u8; ROOM]) -> usize
    ensures { Printed (read_text v) result out.old out.new }
{
    let mut text = Writer::new(out);
    text.push_bytes(b"read ");
    push_number(u64::from(v), b'\n', &mut text);
    text.len
}

// Puts a line's words at the front, and answers their length.
fn write_words(words: &[u8], out: &mut [u8; ROOM]) -> usize
    requires { len words.now ≤ 32 }
    ensures { Printed words.now result out.old out.new }
{
    write_bytes(out, 0, words);
    words.len()
}

// Puts what failed in a number at the front, and answers the text's length.
fn write_failure(failure: Failure, out: &mut [u8; ROOM]) -> usize
    ensures { Printed (failure_text failure) result out.old out.new }
{
    match failure {
        Failure::NoDigits => write_words(b"no digits\n", out),
        Failure::BadDigit => write_words(b"bad digit\n", out),
        Failure::OutOfRange => write_words(b"out of range\n", out),
    }
}

// Puts what the number of a line said at the front, and answers the text's length.
fn line_number_text(line: &[u8], out: &mut [u8; ROOM]) -> usize
    ensures { Printed (said_text (line_number_of (line_reading line.now))) result out.old out.new }
{
    match line_number(line) {
        Some(Ok(v)) => write_value(v, out),
        Some(Err(failure)) => write_failure(failure, out),
        None => write_words(b"no number\n", out),
    }
}

// How many bytes of a source that starts with a branch table are the table's, where so many are said to be.
fn table_size(said: u32, source: &[u8]) -> usize
    ensures { result ≡ min (len source.now) said }
{
    // By `as`: `usize` has no `From<u32>`.
    source.len().min(said as usize)
}

// Puts the list under the table that a source starts with at the front, and answers the text's length.
fn list_under_text(source: &[u8], base: u32, said: u32, out: &mut [u8; ROOM]) -> usize
    ensures { Printed (list_under_text (take said source.now) base (drop said source.now)) result out.old out.new }
{
    let n = table_size(said, source);
    write_list_under(&source[..n], &source[n..], base, out)
}

// Puts the verdicts under the table that a source starts with at the front, and answers the text's length.
fn lines_under_text(source: &[u8], base: u32, said: u32, out: &mut [u8; ROOM]) -> usize
    ensures { Printed (lines_under_text (take said source.now) base (drop said source.now)) result out.old out.new }
{
    let n = table_size(said, source);
    write_lines_under(&source[..n], &source[n..], base, out)
}

// The arguments of `bench` with START and LIMIT alone.
fn run_of(start: u32, limit: u32) -> Given
    ensures { result ≡ run_of start limit }
{
    Given {
        place: 6,
        tries: false,
        numbers: [0, 0, 0, 0, start, 0, 0, 0, 0, 0, 0, 0, 0, 0],
        limit: u64::from(limit),
    }
}

// Puts the line of a run on the bench at the front, and answers its length.
fn run_text(list: &[u8], start: u32, limit: u32, out: &mut [u8; ROOM]) -> usize
    ensures { Printed (row_text (run_of start limit) 0 list.now) result out.old out.new }
{
    let given = run_of(start, limit);
    parsed_row(list, given, 0, out)
}

// The totals of so many sources that have no lines.
fn empty_sources(accepted: u32, refused: u32) -> Totals
    ensures { said result ≡ empty_sources accepted refused }
{
    Totals {
        accepted: u64::from(accepted),
        refused: u64::from(refused),
        ..NO_TOTALS
    }
}

// Puts the totals with a source more at the front, and answers the text's length.
fn sheet_text(source: &[u8], accepted: u32, refused: u32, out: &mut [u8; ROOM]) -> usize
    ensures { Printed (answered_text sheet_text (add_source (empty_sources accepted refused) source.now)) result out.old out.new }
{
    match add_source(empty_sources(accepted, refused), source) {
        Ok(totals) => write_sheet(totals, out),
        Err(refusal) => write_refusal(refusal, out),
    }
}

/// Puts the text of a call at the front, and answers its length: none for a call that is not known.
pub fn call_text(call: u8, x: u32, y: u32, source: &[u8], out: &mut [u8; ROOM]) -> usize
    ensures { Printed (call_text call x y source.now) result out.old out.new }
{
    // A size by `as`: `usize` has no `From<u32>`.
    match call {
        2 => nearest_text(source, x, y, out),
        3 => write_symbols(source, x, out),
        4 => line_number_text(source, out),
        5 => write_line_verdict(source, x, y as usize, out),
        6 => write_manual(source, x, out),
        7 => list_under_text(source, x, y, out),
        8 => lines_under_text(source, x, y, out),
        9 => write_tidied(source, x as usize, out),
        10 => run_text(source, x, y, out),
        11 => sheet_text(source, x, y, out),
        _ => 0,
    }
}

/// Whether a call is known.
#[tactic(auto, unfolding(crate::specs::Calls::is_call))]
pub fn is_call(call: u8) -> bool
    ensures { result ≡ is_call call }
{
    FIRST <= call && call <= LAST
}

// ---- A recorded call.

// Whether two texts are the same.
fn same_text(t: &[u8], s: &[u8]) -> bool
    ensures { (result ≡ true) ↔ (t.now ≡ s.now) }
{
    t == s
}

/// Whether a call is known, and its text the recorded one.
pub fn call_agrees(call: u8, x: u32, y: u32, source: &[u8], recorded: &[u8]) -> bool
    ensures { (result ≡ true) ↔ CallAgrees call x y source.now recorded.now }
{
    // An early return: the text and its room are made only for a call that is known.
    if !is_call(call) {
        return false;
    }
    let mut out = [0u8; ROOM];
    let size = call_text(call, x, y, source, &mut out);
    same_text(&out[..size], recorded)
}
