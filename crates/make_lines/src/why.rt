//! Why lines have no word.
ghost use Rattle.std.specs.Prelude.{◌≡◌, ◌+◌, ◌<◌, ◌≤◌, ◌^◌, List, map, IfOk, MatchResult, length as len};
ghost use Rattle.rules.specs.Text.{Text};
ghost use Rattle.station.specs.Printed.{Printed};
ghost use Rattle.station.specs.Puts.{texts};
ghost use Rattle.whytext.specs.WhyLine.{row_text};
ghost use Rattle.whytext.specs.Verdicts.{said_of, line_of, rows_of};
ghost use Rattle.jsontext.specs.Line.{line_text};
ghost use Rattle.jsontext.specs.Lines.{Explained, explained, files_data};
ghost use Rattle.outcome.specs.Made.{made, told_text};
ghost use Rattle.outcome.specs.Joined.{joined};
ghost use Rattle.outcome.specs.Outcome.{NotMade};
ghost use Rattle.make_lines.specs.Lines.{lent_of, headed, why_answer, entry_text, json_answer, why_made, json_made};

use crate::script::{explain_each, explain_one, long_script, under_head};
use crate::{Explaining, ExplainingJson};
use explain::Verdict;
use jsontext::verdicts::file_value;
use listing::writer::Writer;
use outcome::Unmade;
use outcome::making::{Joining, MakeNamed, Part, stop_of};
use rules::{MAX_LINES, MAX_SOURCE};
use station::input::Input;
use station::{SCRIPT, TABLE};
use std::alloc::{AllocError, Global};
use whytext::push_verdict;

// ---- Text.

// As many bytes as a verdict's line has at most.
const LINE: usize = 26;

// As many as its row has at most: with a number and a space in front.
const ROW: usize = 47;

// Puts the verdict's line at the front, and answers its length.
fn put_line(verdict: Verdict, out: &mut [u8]) -> usize
    requires { 26 ≤ len out.old }
    ensures { Printed (line_of verdict) result out.old out.new }
{
    let mut text = Writer::new(out);
    push_verdict(verdict, &mut text);
    text.len
}

// Puts the row of a line at the front, and answers its length.
fn put_row(line: usize, verdict: Verdict, out: &mut [u8]) -> usize
    requires { 47 ≤ len out.old }
    ensures { Printed (row_text line (line_of verdict)) result out.old out.new }
{
    let mut text = Writer::new(out);
    // `u64` has no `From<usize>`.
    text.push_decimal(line as u64);
    text.push(b' ');
    push_verdict(verdict, &mut text);
    text.len
}

// The rows of verdicts.
fn rows(alloc: Global, verdicts: &[Verdict]) -> Result<Vec<u8>, AllocError>
    requires { len verdicts.now ≤ 4096 }
    ensures { IfOk result (λ v. v.items ≡ rows_of verdicts.now) }
{
    let mut rows = Vec::new(alloc);
    for (k, verdict) in verdicts.iter().enumerate() {
        let mut row = [0u8; ROW];
        let n = put_row(k + 1, *verdict, &mut row);
        rows.extend_from_slice(&row[..n])?;
    }
    Ok(rows)
}

// The verdict on the line that is asked for.
fn one_text(
    alloc: Global,
    work: &Explaining,
    line: usize,
    name: &str,
    table: &[u8],
    source: &[u8],
) -> Result<Vec<u8>, Unmade>
    ensures { MatchResult result (λ v. told_text (texts (headed work.now.headed name.now) (why_answer (Some line) work.now.base (lent_of work.now.lent table.now) source.now)) ≡ made v.items) (NotMade (told_text (texts (headed work.now.headed name.now) (why_answer (Some line) work.now.base (lent_of work.now.lent table.now) source.now)))) }
{
    match explain_one(work.lent, table, source, work.base, line) {
        Ok(verdict) => {
            let mut text = [0u8; LINE];
            let n = put_line(verdict, &mut text);
            match under_head(alloc, work.headed, name, &text[..n]) {
                Ok(text) => Ok(text),
                Err(_) => Err(Unmade::NoMemory),
            }
        }
        Err(refusal) => Err(Unmade::Stopped(stop_of(refusal))),
    }
}

// The rows of all lines that are read.
fn all_text(
    alloc: Global,
    work: &Explaining,
    name: &str,
    table: &[u8],
    source: &[u8],
) -> Result<Vec<u8>, Unmade>
    ensures { MatchResult result (λ v. told_text (texts (headed work.now.headed name.now) (why_answer None work.now.base (lent_of work.now.lent table.now) source.now)) ≡ made v.items) (NotMade (told_text (texts (headed work.now.headed name.now) (why_answer None work.now.base (lent_of work.now.lent table.now) source.now)))) }
{
    let mut verdicts = [Verdict::Emitted; MAX_LINES];
    match explain_each(work.lent, table, source, work.base, &mut verdicts) {
        Ok(count) => match rows(alloc, &verdicts[..count]) {
            Ok(rows) => match under_head(alloc, work.headed, name, &rows) {
                Ok(text) => Ok(text),
                Err(_) => Err(Unmade::NoMemory),
            },
            Err(_) => Err(Unmade::NoMemory),
        },
        Err(refusal) => Err(Unmade::Stopped(stop_of(refusal))),
    }
}

// What is asked for of a script that is not too long.
fn why_text(
    alloc: Global,
    work: &Explaining,
    name: &str,
    table: &[u8],
    source: &[u8],
) -> Result<Vec<u8>, Unmade>
    ensures { MatchResult result (λ v. why_made work.now name.now table.now source.now ≡ made v.items) (NotMade (why_made work.now name.now table.now source.now)) }
{
    match work.line {
        Some(line) => one_text(alloc, work, line, name, table, source),
        None => all_text(alloc, work, name, table, source),
    }
}

impl MakeNamed<{ SCRIPT }> for Explaining {
    ghost promised = { λ s n a b. why_made s n a b };

    fn make_named(
        &self,
        alloc: Global,
        name: &str,
        table: &[u8; TABLE],
        branches: Input,
        front: &[u8; SCRIPT],
        input: Input,
    ) -> Result<Part, Unmade> {
        let table = &table[..branches.total.min(TABLE)];
        if MAX_SOURCE < input.total {
            let refusal = long_script(self.lent, table, input.total);
            return Err(Unmade::Stopped(stop_of(refusal)));
        }
        match why_text(alloc, self, name, table, &front[..input.total]) {
            Ok(text) => Ok(Part {
                text,
                accepted: true,
            }),
            Err(e) => Err(e),
        }
    }
}

// ---- JSON.

// A script's entry: the verdicts on its lines from `first` on.
#[tactic(auto, using(crate::proofs::Entries::entry_whole))]
fn entry(
    alloc: Global,
    name: &str,
    first: usize,
    verdicts: &[Verdict],
) -> Result<Vec<u8>, AllocError>
    requires { first + len verdicts.now < 2 ^ 64 }
    ensures { IfOk result (λ v. v.items ≡ entry_text (explained name.now first (map said_of verdicts.now))) }
{
    let value = file_value(alloc, name, first, verdicts)?;
    let text = value.to_string(alloc)?;
    Ok(text.into_bytes())
}

// The entry with the line that is asked for.
fn one_entry(
    alloc: Global,
    work: &ExplainingJson,
    line: usize,
    name: &str,
    table: &[u8],
    source: &[u8],
) -> Result<Vec<u8>, Unmade>
    ensures { MatchResult result (λ v. told_text (json_answer (Some line) work.now.base name.now (lent_of work.now.lent table.now) source.now) ≡ made v.items) (NotMade (told_text (json_answer (Some line) work.now.base name.now (lent_of work.now.lent table.now) source.now))) }
{
    match explain_one(work.lent, table, source, work.base, line) {
        Ok(verdict) => match entry(alloc, name, line, &[verdict]) {
            Ok(text) => Ok(text),
            Err(_) => Err(Unmade::NoMemory),
        },
        Err(refusal) => Err(Unmade::Stopped(stop_of(refusal))),
    }
}

// The entry with all lines that are read.
fn all_entry(
    alloc: Global,
    work: &ExplainingJson,
    name: &str,
    table: &[u8],
    source: &[u8],
) -> Result<Vec<u8>, Unmade>
    ensures { MatchResult result (λ v. told_text (json_answer None work.now.base name.now (lent_of work.now.lent table.now) source.now) ≡ made v.items) (NotMade (told_text (json_answer None work.now.base name.now (lent_of work.now.lent table.now) source.now))) }
{
    let mut verdicts = [Verdict::Emitted; MAX_LINES];
    match explain_each(work.lent, table, source, work.base, &mut verdicts) {
        Ok(count) => match entry(alloc, name, 1, &verdicts[..count]) {
            Ok(text) => Ok(text),
            Err(_) => Err(Unmade::NoMemory),
        },
        Err(refusal) => Err(Unmade::Stopped(stop_of(refusal))),
    }
}

// The entry of a script that is not too long.
fn json_text(
    alloc: Global,
    work: &ExplainingJson,
    name: &str,
    table: &[u8],
    source: &[u8],
) -> Result<Vec<u8>, Unmade>
    ensures { MatchResult result (λ v. json_made work.now name.now table.now source.now ≡ made v.items) (NotMade (json_made work.now name.now table.now source.now)) }
{
    match work.line {
        Some(line) => one_entry(alloc, work, line, name, table, source),
        None => all_entry(alloc, work, name, table, source),
    }
}

impl MakeNamed<{ SCRIPT }> for ExplainingJson {
    ghost promised = { λ s n a b. json_made s n a b };

    fn make_named(
        &self,
        alloc: Global,
        name: &str,
        table: &[u8; TABLE],
        branches: Input,
        front: &[u8; SCRIPT],
        input: Input,
    ) -> Result<Part, Unmade> {
        let table = &table[..branches.total.min(TABLE)];
        if MAX_SOURCE < input.total {
            let refusal = long_script(self.lent, table, input.total);
            return Err(Unmade::Stopped(stop_of(refusal)));
        }
        match json_text(alloc, self, name, table, &front[..input.total]) {
            Ok(text) => Ok(Part {
                text,
                accepted: true,
            }),
            Err(e) => Err(e),
        }
    }
}

/// What stands around the entries: with them it is the line of the value.
#[tactic(auto, using(crate::proofs::Entries::entries_joined))]
pub fn files_joining() -> Joining
    ensures { (fs : List Explained) → joined result (map entry_text fs) ≡ line_text (files_data fs) }
{
    Joining {
        front: b"{\"files\":[",
        between: b",",
        behind: b"]}\n",
    }
}
