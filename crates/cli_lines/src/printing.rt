//! `list`: the listings of scripts.
ghost use Rattle.std.specs.Prelude.{◌≡◌, ◌≤◌, IfOk, length as len};
ghost use Rattle.station.specs.Puts.{Puts};
ghost use Rattle.cli_error.specs.Gives.{Makes};
ghost use Rattle.cli_run.specs.Input.{OfBoth};
ghost use Rattle.cli_lines.specs.Answered.{printed};
ghost use Rattle.cli_lines.specs.State.{OfTable, asked_page, page_made, PrintsRest};

use crate::script::{long_script, table_names, under_head};
use answer::Refusal;
use cli_error::{Answer, Failure, Status};
use cli_run::blame::failure_of;
use cli_run::input::{Contents, Input, SCRIPT};
use cli_run::several::Several;
use printout::{PRINTOUT, put_printout};
use std::alloc::Global;

/// The listings of the scripts so far.
#[derive(Drop)]
pub struct Printing<'t> {
    /// The base at which each script is assembled.
    pub base: u32,
    /// Whether a line with a script's name stands in front of its listing.
    pub headed: bool,
    /// The branch table, if one is named.
    pub table: Option<Input<'t>>,
    /// The text so far.
    pub text: Vec<u8>,
}

impl<'t> Printing<'t> {
    /// Before the first script.
    pub fn new(alloc: Global, base: u32, headed: bool, table: Option<Input<'t>>) -> Printing<'t>
        ensures { OfTable table.entry (λ t. PrintsRest result (printed base headed t)) }
    {
        Printing {
            base,
            headed,
            table,
            text: Vec::new(alloc),
        }
    }
}

// Puts the listing of a script at the front, and answers its length.
fn put_page(work: &Printing<'_>, input: Input<'_>, room: &mut [u8]) -> Result<usize, Refusal>
    requires { 401410 ≤ len room.old }
    ensures page { OfBoth 32768 work.now.table input.entry (λ t b. Puts (asked_page work.now t b) result room.old room.new) }
    ensures within { IfOk result (λ n. n ≤ len room.new) }
{
    let names = table_names(work.table);
    match input.contents {
        Contents::Whole(source) => put_printout(names, source, work.base, room),
        Contents::TooLong(_, total) => Err(long_script(names, total)),
    }
}

// The listing of a script, under its name if there are several; it is put into `room` first.
fn print_in<'a>(
    alloc: Global,
    work: &Printing<'a>,
    input: Input<'a>,
    room: &mut [u8],
) -> Result<Vec<u8>, Failure<'a>>
    requires { 401410 ≤ len room.old }
    ensures { OfBoth 32768 work.now.table input.entry (λ t b. Makes (page_made work.now t b) result) }
{
    match put_page(work, input, room) {
        Ok(n) => match under_head(alloc, work.headed, input.name, &room[..n]) {
            Ok(text) => Ok(text),
            Err(_) => Err(Failure::NoMemory),
        },
        Err(refusal) => Err(failure_of(work.table, input, refusal)),
    }
}

// The same. It is not inlined, so that its array is on the stack only where a script is listed.
#[inline(never)]
fn print_script<'a>(
    alloc: Global,
    work: &Printing<'a>,
    input: Input<'a>,
) -> Result<Vec<u8>, Failure<'a>>
    ensures { OfBoth 32768 work.now.table input.entry (λ t b. Makes (page_made work.now t b) result) }
{
    let mut room = [0u8; PRINTOUT];
    print_in(alloc, work, input, &mut room)
}

impl<'t> Several for Printing<'t> {
    ghost kept = { 32768 };

    ghost answers = { λ s f. PrintsRest s f };

    fn kept() -> usize
        ensures { result ≡ 32768 }
    {
        SCRIPT
    }

    fn add(&mut self, alloc: Global, input: Input<'_>) -> Result<(), Answer> {
        match print_script(alloc, self, input) {
            Ok(text) => match self.text.extend_from_slice(&text) {
                Ok(()) => Ok(()),
                Err(_) => Err(Answer::NoMemory),
            },
            Err(failure) => Err(Answer::failed(alloc, failure)),
        }
    }

    fn finish(self, _alloc: Global) -> Answer {
        Answer::Output(self.text, Status::Accepted)
    }

    ghost unread_ends = { λ s f name what reason h left. h.continues.rest _ };
}
