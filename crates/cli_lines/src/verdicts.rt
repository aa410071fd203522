//! The verdicts on a script, as text and as JSON.
ghost use Rattle.std.specs.Prelude.{◌≡◌, ◌+◌, ◌<◌, ◌≤◌, ◌^◌, map, flat_map, IfOk, length as len};
ghost use Rattle.std.specs.Option.{option_copied};
ghost use Rattle.rules.specs.Limits.{max_lines};
ghost use Rattle.answer.specs.Refusal.{answer_of};
ghost use Rattle.explain.specs.Verdict.{explained_of, count_of, written_over};
ghost use Rattle.station.specs.Printed.{Printed};
ghost use Rattle.whytext.specs.WhyLine.{row_text};
ghost use Rattle.whytext.specs.Verdicts.{said_of, line_of, rows_of};
ghost use Rattle.jsontext.specs.Lines.{explained};
ghost use Rattle.cli_lines.specs.Lines.{verdict_at, all_verdicts, verdicts_on, first_line, verdicts_text};
ghost use Rattle.cli_lines.specs.State.{Explains, entry_text};

use answer::Refusal;
use explain::{Verdict, explain_branches, explain_line, explain_lines, explain_lines_branches};
use jsontext::verdicts::file_value;
use listing::writer::Writer;
use rules::MAX_LINES;
use std::alloc::{AllocError, Global};
use whytext::push_verdict;

// ---- The verdicts.

// The verdict on a line.
#[tactic(auto, unfolding(crate::specs::Lines::by_names))]
fn explain_one(
    names: Option<&[u8]>,
    source: &[u8],
    base: u32,
    line: usize,
) -> Result<Verdict, Refusal>
    ensures { answer_of result ≡ explained_of (verdict_at line base (option_copied names.entry) source.now) }
{
    match names {
        Some(table) => explain_branches(table, source, base, line),
        None => explain_line(source, base, line),
    }
}

// The verdicts on all lines that are read, in the first places, and how many they are.
#[tactic(auto, unfolding(crate::specs::Lines::by_names))]
fn explain_each(
    names: Option<&[u8]>,
    source: &[u8],
    base: u32,
    verdicts: &mut [Verdict; MAX_LINES],
) -> Result<usize, Refusal>
    ensures value { answer_of result ≡ count_of (all_verdicts base (option_copied names.entry) source.now) }
    ensures count { IfOk result (λ n. n ≤ max_lines) }
    ensures verdicts_after { verdicts.new ≡ written_over (all_verdicts base (option_copied names.entry) source.now) verdicts.old }
{
    match names {
        Some(table) => explain_lines_branches(table, source, base, verdicts),
        None => explain_lines(source, base, verdicts),
    }
}

/// The verdict on the line that is asked for, or on all lines that are read, in the first places, and how many they are.
pub(crate) fn write_verdicts(
    names: Option<&[u8]>,
    source: &[u8],
    base: u32,
    line: Option<usize>,
    verdicts: &mut [Verdict; MAX_LINES],
) -> Result<usize, Refusal>
    ensures answer { Explains (verdicts_on line base (option_copied names.entry) source.now) result verdicts.new }
    ensures count { IfOk result (λ n. n ≤ 4096) }
    ensures few { IfOk result (λ n. first_line line ≤ 4096) }
{
    match line {
        Some(line) => match explain_one(names, source, base, line) {
            Ok(verdict) => {
                verdicts[0] = verdict;
                Ok(1)
            }
            Err(refusal) => Err(refusal),
        },
        None => explain_each(names, source, base, verdicts),
    }
}

/// The line of the first of them.
pub(crate) fn first_line(line: Option<usize>) -> usize
    ensures { result ≡ first_line line }
{
    match line {
        Some(line) => line,
        None => 1,
    }
}

// ---- Text.

// As many bytes as a verdict's line has at most.
const LINE: usize = 26;

// As many as its row has at most: with a number and a space in front.
const ROW: usize = 47;

// Puts the verdict's line at the front, and answers its length.
fn put_line(verdict: Verdict, out: &mut [u8]) -> usize
    requires { 26 ≤ len out.old }
    ensures { Printed (line_of verdict) result out.old out.new }
{
    let mut text = Writer::new(out);
    push_verdict(verdict, &mut text);
    text.len
}

// Puts the row of a line at the front, and answers its length.
fn put_row(line: usize, verdict: Verdict, out: &mut [u8]) -> usize
    requires { 47 ≤ len out.old }
    ensures { Printed (row_text line (line_of verdict)) result out.old out.new }
{
    let mut text = Writer::new(out);
    // `u64` has no `From<usize>`.
    text.push_decimal(line as u64);
    text.push(b' ');
    push_verdict(verdict, &mut text);
    text.len
}

// The rows of verdicts.
fn rows(alloc: Global, verdicts: &[Verdict]) -> Result<Vec<u8>, AllocError>
    requires { len verdicts.now ≤ 4096 }
    ensures { IfOk result (λ v. v.items ≡ rows_of verdicts.now) }
{
    let mut rows = Vec::new(alloc);
    for (k, verdict) in verdicts.iter().enumerate() {
        let mut row = [0u8; ROW];
        let n = put_row(k + 1, *verdict, &mut row);
        rows.extend_from_slice(&row[..n])?;
    }
    Ok(rows)
}

// Their lines.
fn lines(alloc: Global, verdicts: &[Verdict]) -> Result<Vec<u8>, AllocError>
    ensures { IfOk result (λ v. v.items ≡ flat_map line_of verdicts.now) }
{
    let mut lines = Vec::new(alloc);
    for verdict in verdicts {
        let mut line = [0u8; LINE];
        let n = put_line(*verdict, &mut line);
        lines.extend_from_slice(&line[..n])?;
    }
    Ok(lines)
}

/// The text of verdicts: on the line that is asked for, or on all.
#[tactic(auto, using(crate::proofs::Backs::rows_said, crate::proofs::Backs::lines_said))]
pub(crate) fn verdicts_text(
    alloc: Global,
    line: Option<usize>,
    verdicts: &[Verdict],
) -> Result<Vec<u8>, AllocError>
    requires { len verdicts.now ≤ 4096 }
    ensures { IfOk result (λ v. v.items ≡ verdicts_text line (map said_of verdicts.now)) }
{
    match line {
        Some(_) => lines(alloc, verdicts),
        None => rows(alloc, verdicts),
    }
}

// ---- JSON.

/// A script's entry: the verdicts on its lines from `line` on.
#[tactic(auto, using(crate::proofs::Entries::entry_whole))]
pub(crate) fn entry(
    alloc: Global,
    name: &str,
    line: usize,
    verdicts: &[Verdict],
) -> Result<Vec<u8>, AllocError>
    requires { line + len verdicts.now < 2 ^ 64 }
    ensures { IfOk result (λ v. v.items ≡ entry_text (explained name.now line (map said_of verdicts.now))) }
{
    let value = file_value(alloc, name, line, verdicts)?;
    let text = value.to_string(alloc)?;
    Ok(text.into_bytes())
}
