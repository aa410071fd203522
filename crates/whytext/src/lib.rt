#![tactic(auto)]

//! What `whyline` prints for a script that was read chunk by chunk: why its lines have no word; and what its arguments
//! ask. A text is put at the front of a slice that is lent: there is no heap.
ghost use Rattle.std.specs.Prelude.{◌≡◌, ◌+◌, ◌*◌, ◌≤◌, Ok, length as len, take, IfOk};
ghost use Rattle.rules.specs.Text.{Text};
ghost use Rattle.rules.specs.Limits.{max_lines};
ghost use Rattle.listing.specs.Writer.{Adds};
ghost use Rattle.station.specs.Station.{unless_failed, input_text};
ghost use Rattle.station.specs.Printed.{Printed};
ghost use Rattle.station.specs.Reads.{Reads};
ghost use Rattle.station.specs.Refused.{answer_by};
ghost use Rattle.whytext.specs.WhyLine.{line_text, row_text, lines_text, why_text, asked_at, asked_by};
ghost use Rattle.whytext.specs.Verdicts.{line_of, rows_by, explained_text, counted_by};

use answer::Refusal;
use explain::{Verdict, VerdictSign, explain_line, explain_lines};
use listing::writer::Writer;
use listing::writing::write_refused;
use numeral::Failure;
use numeral::unsigned::read_digits;
use rules::{MAX_LINES, MAX_SOURCE};
use station::arguments::{are_none, hexadecimal};
use station::input::Input;
use station::refused::Refused;
use station::{SCRIPT, TEXT, write_refusal};

/// One line that is asked for.
#[derive(Clone, Copy, Debug, PartialEq, Eq, Hash)]
pub struct LineAt {
    /// From 1.
    pub line: u32,
    /// The base at which the script is assembled.
    pub base: u32,
}

/// Arguments that are not a line, nor a line and a base.
#[derive(Clone, Copy, Debug, PartialEq, Eq, Hash)]
pub struct WrongArguments;

// ---- Arguments.

// The line that a line's number and a base ask for, as they are read.
fn asked_at(
    line: Result<u32, Failure>,
    base: Result<u32, Failure>,
) -> Result<Option<LineAt>, WrongArguments>
    ensures { result ≡ asked_at line base }
{
    match (line, base) {
        (Ok(line), Ok(base)) => Ok(Some(LineAt { line, base })),
        _ => Err(WrongArguments),
    }
}

/// The line that is asked for by its number, or by its number and a base of 32 bits; None where there is no argument: all lines, at base 0.
/// Refused are other numbers and more arguments. `count` is that of the arguments with the program's own name.
#[tactic(auto, unfolding(crate::specs::WhyLine::asked_by, crate::specs::WhyLine::decimal_in))]
pub fn asked_by(count: usize, line: &[u8], base: &[u8]) -> Result<Option<LineAt>, WrongArguments>
    ensures { result ≡ asked_by count line.now base.now }
{
    if are_none(count) {
        return Ok(None);
    }
    if count == 2 {
        return asked_at(read_digits(line, 10, 1 << 32), Ok(0));
    }
    if count == 3 {
        return asked_at(read_digits(line, 10, 1 << 32), hexadecimal(base));
    }
    Err(WrongArguments)
}

// ---- A line.

/// Writes a verdict's line.
#[tactic(auto, unfolding(crate::specs::Verdicts::line_of, crate::specs::WhyLine::verdict_text, rules::specs::Text::bytes))]
pub fn push_verdict(verdict: Verdict, text: &mut Writer<'_>)
    requires { text.old.len + 26 ≤ len text.old.out.now }
    ensures { Adds (line_of verdict) text.old text.new }
{
    match verdict {
        Verdict::Emitted => text.push_bytes(b"word emitted\n"),
        Verdict::NotInstruction => text.push_bytes(b"not an instruction\n"),
        Verdict::UnknownMnemonic => text.push_bytes(b"unknown mnemonic\n"),
        Verdict::WrongCount => text.push_bytes(b"wrong operand count\n"),
        Verdict::WrongKinds => text.push_bytes(b"operand kinds\n"),
        Verdict::NoDigits => text.push_bytes(b"number: no digits\n"),
        Verdict::BadDigit => text.push_bytes(b"number: bad digit\n"),
        Verdict::OutOfRange => text.push_bytes(b"number: out of range\n"),
        Verdict::NotRecorded => text.push_bytes(b"label not recorded\n"),
        Verdict::OutOfReach => text.push_bytes(b"displacement out of range\n"),
    }
}

/// Puts the line of an answer on a line, its verdict's or that of a refusal, at the front, and answers its length.
pub fn write_explained<R: Refused>(explained: Result<Verdict, R>, out: &mut [u8; TEXT]) -> usize
    ensures { Printed (explained_text (answer_by R.number R.place explained)) result out.old out.new }
{
    match explained {
        Ok(verdict) => {
            let mut text = Writer::new(out);
            push_verdict(verdict, &mut text);
            text.len
        }
        Err(refusal) => write_refused(refusal.number(), refusal.place(), out),
    }
}

/// Puts the verdict's line on a line of a source, from 1, or that of a refusal, at the front, and answers its length.
#[tactic(auto, using(station::proofs::Refusing::answer_by_refusal, crate::proofs::Told::explained_text_lem), unfolding(crate::specs::WhyLine::line_text))]
pub fn write_line_verdict(source: &[u8], base: u32, line: usize, out: &mut [u8; TEXT]) -> usize
    ensures { Printed (line_text base line source.now) result out.old out.new }
{
    write_explained(explain_line(source, base, line), out)
}

// ---- Every line that is read.

// Writes a line's number and its verdict's line.
fn push_row(line: usize, verdict: Verdict, text: &mut Writer<'_>)
    requires { text.old.len + 47 ≤ len text.old.out.now }
    ensures { Adds (row_text line (line_of verdict)) text.old text.new }
{
    // `as`: u64 has no From<usize>, and usize below none from u32.
    text.push_decimal(line as u64);
    text.push(b' ');
    push_verdict(verdict, text);
}

// Writes the rows of verdicts.
fn push_rows<V: VerdictSign>(verdicts: &[V], text: &mut Writer<'_>)
    requires few { len verdicts.now ≤ max_lines }
    requires room { text.old.len + 131072 ≤ len text.old.out.now }
    ensures { Adds (rows_by V.verdict verdicts.now) text.old text.new }
{
    for (k, verdict) in verdicts.iter().enumerate() {
        push_row(k + 1, verdict.verdict(), text);
    }
}

/// Puts the text of an answer on all lines, the rows of as many verdicts or the line of a refusal, at the front, and answers its
/// length.
pub fn write_counted<R: Refused, V: VerdictSign>(
    answer: Result<usize, R>,
    verdicts: &[V],
    out: &mut [u8; TEXT],
) -> usize
    requires { IfOk answer (λ n. (n ≤ len verdicts.now) × (n ≤ max_lines)) }
    ensures { Printed (counted_by V.verdict (answer_by R.number R.place answer) verdicts.now) result out.old out.new }
{
    match answer {
        Ok(count) => {
            let mut text = Writer::new(out);
            push_rows(&verdicts[..count], &mut text);
            text.len
        }
        Err(refusal) => write_refused(refusal.number(), refusal.place(), out),
    }
}

/// Puts the rows of every line of a source that is read, or the line of a refusal, at the front, and answers their length.
pub fn write_line_verdicts(source: &[u8], base: u32, out: &mut [u8; TEXT]) -> usize
    ensures { Printed (lines_text base source.now) result out.old out.new }
{
    let mut verdicts = [Verdict::Emitted; MAX_LINES];
    let answer = explain_lines(source, base, &mut verdicts);
    write_counted(answer, &verdicts, out)
}

// ---- A script.

// Puts what is printed for a script at the front, and answers its length.
#[tactic(auto, unfolding(crate::specs::WhyLine::why_text))]
fn write_script(script: &[u8], asked: Option<LineAt>, out: &mut [u8; TEXT]) -> usize
    ensures { Printed (why_text asked script.now) result out.old out.new }
{
    match asked {
        Some(LineAt { line, base }) => write_line_verdict(script, base, line as usize, out),
        None => write_line_verdicts(script, 0, out),
    }
}

/// Puts what is printed for an input that is a script, the line that is asked for or all, at the front, and answers its length: nothing
/// if it was not read whole.
pub fn why_text(
    script: &[u8; SCRIPT],
    input: Input,
    asked: Option<LineAt>,
    out: &mut [u8; TEXT],
) -> usize
    ensures printed { Printed (input_text (why_text asked) input script.now) result out.old out.new }
    ensures script_value { (t : Text) → Reads t script.now input → input_text (why_text asked) input script.now ≡ unless_failed input (why_text asked t) }
{
    // As `station`'s `script_text`, by a call of its own: why, stands there.
    if input.failed {
        return 0;
    }
    let total = input.total;
    if MAX_SOURCE < total {
        return write_refusal(Refusal::LongSource(total), out);
    }
    write_script(&script[..total], asked, out)
}
