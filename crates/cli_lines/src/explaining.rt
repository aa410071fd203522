//! `why`: why the lines of scripts have no word.
ghost use Rattle.std.specs.Prelude.{◌≡◌, ◌≤◌, ◌++◌, [], cond, IfOk, OnOk, length as len};
ghost use Rattle.cli_error.specs.Gives.{Makes};
ghost use Rattle.cli_run.specs.Input.{OfBoth};
ghost use Rattle.cli_lines.specs.Lines.{first_line};
ghost use Rattle.cli_lines.specs.Answered.{explained};
ghost use Rattle.cli_lines.specs.State.{OfTable, Explains, front, comma, behind, asked_verdicts, entry_of, text_of, part_made, ExplainsRest};

use crate::script::{long_script, table_names, under_head};
use crate::verdicts::{entry, first_line, verdicts_text, write_verdicts};
use answer::Refusal;
use cli_error::{Answer, Failure, Status};
use cli_run::blame::failure_of;
use cli_run::input::{Contents, Input, SCRIPT};
use cli_run::several::Several;
use explain::Verdict;
use rules::MAX_LINES;
use std::alloc::{AllocError, Global};

/// The verdicts on the lines of the scripts so far.
#[derive(Drop)]
pub struct Explaining<'t> {
    /// Whether they are written as JSON.
    pub json: bool,
    /// The base at which each script is assembled.
    pub base: u32,
    /// The line that is asked for, from 1; None for all.
    pub line: Option<usize>,
    /// Whether a line with a script's name stands in front of its text.
    pub headed: bool,
    /// The branch table, if one is named.
    pub table: Option<Input<'t>>,
    /// The text so far.
    pub text: Vec<u8>,
    /// Whether there was no script yet.
    pub first: bool,
}

// What stands in front of all.
fn front(json: bool) -> &'static [u8]
    ensures { result.now ≡ front json }
{
    if json {
        return b"{\"files\":[";
    }
    &[]
}

// What stands in front of a script's text.
fn lead(json: bool, first: bool) -> &'static [u8]
    ensures { result.now ≡ cond first [] (comma json) }
{
    if first {
        return &[];
    }
    if json {
        return b",";
    }
    &[]
}

// What stands after all.
fn behind(json: bool) -> &'static [u8]
    ensures { result.now ≡ behind json }
{
    if json {
        return b"]}\n";
    }
    &[]
}

impl<'t> Explaining<'t> {
    /// Before the first script.
    pub fn new(
        alloc: Global,
        json: bool,
        base: u32,
        line: Option<usize>,
        headed: bool,
        table: Option<Input<'t>>,
    ) -> Result<Explaining<'t>, AllocError>
        ensures { OfTable table.entry (λ t. IfOk result (λ s. ExplainsRest s (explained json base line headed t))) }
    {
        let mut text = Vec::new(alloc);
        text.extend_from_slice(front(json))?;
        Ok(Explaining {
            json,
            base,
            line,
            headed,
            table,
            text,
            first: true,
        })
    }
}

// The verdicts on a script, in the first places, and how many they are.
fn script_verdicts(
    work: &Explaining<'_>,
    input: Input<'_>,
    verdicts: &mut [Verdict; MAX_LINES],
) -> Result<usize, Refusal>
    ensures answer { OfBoth 32768 work.now.table input.entry (λ t b. Explains (asked_verdicts work.now t b) result verdicts.new) }
    ensures count { IfOk result (λ n. n ≤ 4096) }
    ensures few { IfOk result (λ n. first_line work.now.line ≤ 4096) }
{
    let names = table_names(work.table);
    match input.contents {
        Contents::Whole(source) => write_verdicts(names, source, work.base, work.line, verdicts),
        Contents::TooLong(_, total) => Err(long_script(names, total)),
    }
}

// What is written of them.
fn script_text(
    alloc: Global,
    work: &Explaining<'_>,
    name: &str,
    verdicts: &[Verdict],
) -> Result<Vec<u8>, AllocError>
    requires count { len verdicts.now ≤ 4096 }
    requires few { first_line work.now.line ≤ 4096 }
    ensures { IfOk result (λ v. v.items ≡ text_of work.now (entry_of work.now name.now verdicts.now)) }
{
    if work.json {
        return entry(alloc, name, first_line(work.line), verdicts);
    }
    let text = verdicts_text(alloc, work.line, verdicts)?;
    under_head(alloc, work.headed, name, &text)
}

// What is written of a script.
fn explain_script<'a>(
    alloc: Global,
    work: &Explaining<'a>,
    input: Input<'a>,
) -> Result<Vec<u8>, Failure<'a>>
    ensures { OfBoth 32768 work.now.table input.entry (λ t b. Makes (part_made work.now t b) result) }
{
    let mut verdicts = [Verdict::Emitted; MAX_LINES];
    match script_verdicts(work, input, &mut verdicts) {
        Ok(count) => match script_text(alloc, work, input.name, &verdicts[..count]) {
            Ok(text) => Ok(text),
            Err(_) => Err(Failure::NoMemory),
        },
        Err(refusal) => Err(failure_of(work.table, input, refusal)),
    }
}

// Adds it, after what stands between two scripts.
fn add_text(text: &mut Vec<u8>, lead: &[u8], more: &[u8]) -> Result<(), AllocError>
    ensures { OnOk result (text.new.items ≡ text.old.items ++ (lead.now ++ more.now)) }
{
    text.extend_from_slice(lead)?;
    text.extend_from_slice(more)?;
    Ok(())
}

impl<'t> Several for Explaining<'t> {
    ghost kept = { 32768 };

    ghost answers = { λ s f. ExplainsRest s f };

    fn kept() -> usize
        ensures { result ≡ 32768 }
    {
        SCRIPT
    }

    fn add(&mut self, alloc: Global, input: Input<'_>) -> Result<(), Answer> {
        match explain_script(alloc, self, input) {
            Ok(text) => {
                let lead = lead(self.json, self.first);
                self.first = false;
                match add_text(&mut self.text, lead, &text) {
                    Ok(()) => Ok(()),
                    Err(_) => Err(Answer::NoMemory),
                }
            }
            Err(failure) => Err(Answer::failed(alloc, failure)),
        }
    }

    fn finish(self, _alloc: Global) -> Answer {
        let Explaining { json, mut text, .. } = self;
        match text.extend_from_slice(behind(json)) {
            Ok(()) => Answer::Output(text, Status::Accepted),
            Err(_) => Answer::NoMemory,
        }
    }

    ghost unread_ends = { λ s f name what reason h left. h.continues.rest _ };
}
