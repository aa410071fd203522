//! `check`: whether each script is accepted.
ghost use Rattle.std.specs.Prelude.{◌≡◌, cond, false, IfOk};
ghost use Rattle.rules.specs.Text.{Text};
ghost use Rattle.answer.specs.Refusal.{number_of, place_of};
ghost use Rattle.cli_run.specs.Input.{OfBoth};
ghost use Rattle.cli_lists.specs.Listed.{list_of};
ghost use Rattle.cli_lists.specs.Checked.{Next, refused_by, row_of, checked, OfTable, Goes, Checks};

use crate::call::call_of;
use crate::listed::assemble_contents;
use answer::Refusal;
use cli_error::message::{accepted_row, refused_row};
use cli_error::{Answer, Failure, Status};
use cli_run::blame::is_of_table;
use cli_run::input::{Input, SCRIPT};
use cli_run::several::Several;
use std::alloc::{AllocError, Global};

// The row of a script, and whether the script is accepted.
#[derive(Drop)]
struct Row {
    text: Vec<u8>,
    good: bool,
}

// A row, if there is memory for it.
fn make_row(text: Result<Vec<u8>, AllocError>, good: bool) -> Result<Row, Answer>
    ensures { (s : Text) (k : Next) → IfOk text (λ t. t.items ≡ s) → Goes (λ next. next s good) k result }
{
    match text {
        Ok(text) => Ok(Row { text, good }),
        Err(_) => Err(Answer::NoMemory),
    }
}

// The row of a refusal; one of the branch table ends the call.
fn row_of_refusal<'a>(
    alloc: Global,
    table: Option<Input<'a>>,
    name: &'a str,
    refusal: Refusal,
) -> Result<Row, Answer>
    ensures { (k : Next) → OfTable table.entry (λ t. Goes (refused_by t name.now (number_of refusal) (place_of refusal)) k result) }
{
    match table {
        Some(table) => {
            if is_of_table(refusal) {
                return Err(Answer::failed(alloc, Failure::Refused(table.name, refusal, &[])));
            }
            make_row(refused_row(alloc, name.as_bytes(), refusal), false)
        }
        None => make_row(refused_row(alloc, name.as_bytes(), refusal), false),
    }
}

// The row of a script.
fn row_of<'a>(
    alloc: Global,
    base: u32,
    table: Option<Input<'a>>,
    input: Input<'a>,
) -> Result<Row, Answer>
    ensures { (k : Next) → OfBoth 32768 table.entry input.entry (λ t b. Goes (row_of t b.name (list_of t base b.text)) k result) }
{
    match assemble_contents(alloc, call_of(base, table), input.contents) {
        Ok(Ok(_)) => make_row(accepted_row(alloc, input.name.as_bytes()), true),
        Ok(Err(refusal)) => row_of_refusal(alloc, table, input.name, refusal),
        Err(_) => Err(Answer::NoMemory),
    }
}

/// The rows of the scripts so far, at a base, under a branch table if one is named; and whether all are accepted.
#[derive(Drop)]
pub struct Checking<'a> {
    pub base: u32,
    pub table: Option<Input<'a>>,
    pub rows: Vec<u8>,
    pub all: bool,
}

impl<'a> Checking<'a> {
    /// No script so far.
    pub fn new(alloc: Global, base: u32, table: Option<Input<'a>>) -> Checking<'a>
        ensures { OfTable table.entry (λ t. Checks result (λ is. checked base t is)) }
    {
        Checking {
            base,
            table,
            rows: Vec::new(alloc),
            all: true,
        }
    }
}

// Whether all are accepted, with one more.
fn and(good: bool, all: bool) -> bool
    ensures { result ≡ cond good all false }
{
    good & all
}

impl<'t> Several for Checking<'t> {
    ghost kept = { 32768 };

    ghost answers = { λ s f. Checks s f };

    fn kept() -> usize
        ensures { result ≡ 32768 }
    {
        SCRIPT
    }

    fn add(&mut self, alloc: Global, input: Input<'_>) -> Result<(), Answer> {
        match row_of(alloc, self.base, self.table, input) {
            Ok(row) => {
                self.all = and(row.good, self.all);
                match self.rows.extend_from_slice(&row.text) {
                    Ok(()) => Ok(()),
                    Err(_) => Err(Answer::NoMemory),
                }
            }
            Err(answer) => Err(answer),
        }
    }

    fn finish(self, _alloc: Global) -> Answer {
        let status = if self.all {
            Status::Accepted
        } else {
            Status::Refused
        };
        Answer::Output(self.rows, status)
    }

    ghost unread_ends = { λ s f name what reason h left. h.2 _ };
}
