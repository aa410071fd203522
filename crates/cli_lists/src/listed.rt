//! A list in three vectors; the list of a script; and its texts.
ghost use Rattle.std.specs.Prelude.{◌≡◌, ◌≤◌, ℕ, List, IfOk};
ghost use Rattle.rules.specs.Text.{Text};
ghost use Rattle.rules.specs.Answer.{Answer};
ghost use Rattle.rules.specs.Assemble.{Place};
ghost use Rattle.listing.specs.Listing.{list_text};
ghost use Rattle.jsontext.specs.Line.{line_text};
ghost use Rattle.jsontext.specs.Places.{list_data};
ghost use Rattle.cli_error.specs.Answered.{made};
ghost use Rattle.cli_error.specs.Gives.{Makes};
ghost use Rattle.cli_run.specs.Input.{IsOf};
ghost use Rattle.cli_lists.specs.Listed.{list_by, places_of, Fits, within, Left, Keeps, Kept, AllFit, Answers, is_short};
ghost use Rattle.cli_lists.specs.Assembled.{list_text_by};

use crate::call::{Call, refuse_long};
use answer::Refusal;
use cli_error::Failure;
use cli_run::input::Contents;
use jsontext::places;
use listing::writing::{LINE, write_list};
use station::PLACES;
use std::alloc::{AllocError, Global};

/// A list: its words stand in the first `count` places of three vectors.
#[derive(Drop)]
pub struct Listed {
    pub addresses: Vec<u32>,
    pub words: Vec<u16>,
    pub marks: Vec<u8>,
    pub count: usize,
}

/// The bytes of a script for whose list few places are made at first.
const SHORT: usize = 4096;

/// These places.
const FEW: usize = 1024;

// ---- The list of a script.

// The list that a call left in three vectors, or its refusal.
fn keep_list(
    addresses: Vec<u32>,
    words: Vec<u16>,
    marks: Vec<u8>,
    count: Result<usize, Refusal>,
) -> Result<Listed, Refusal>
    ensures { (m : ℕ) (d : Answer (List Place)) → Left m d count addresses.items words.items marks.items → Keeps (within m d) result }
{
    match count {
        Ok(count) => Ok(Listed {
            addresses,
            words,
            marks,
            count,
        }),
        Err(refusal) => Err(refusal),
    }
}

// The list of a script, for which so many places are made.
// The calls stand here, and not in a function of their own, since each function between is one more to read on the way from `main`.
fn assemble_within(
    alloc: Global,
    call: Call<'_>,
    source: &[u8],
    room: usize,
) -> Result<Result<Listed, Refusal>, AllocError>
    requires { room ≤ 12288 }
    ensures { Kept (within room (list_by call.entry source.now)) result }
{
    let mut addresses = vec![in alloc; 0u32; room]?;
    let mut words = vec![in alloc; 0u16; room]?;
    let mut marks = vec![in alloc; 0u8; room]?;
    match call {
        Call::Plain(base) => {
            let count = assemble::assemble(source, base, &mut addresses, &mut words, &mut marks);
            Ok(keep_list(addresses, words, marks, count))
        }
        Call::Under(names, base) => {
            let count = assemble::assemble_branches(
                names,
                source,
                base,
                &mut addresses,
                &mut words,
                &mut marks,
            );
            Ok(keep_list(addresses, words, marks, count))
        }
        Call::Manual(base) => {
            let count = assemble::assemble_manual(
                source,
                base,
                &mut addresses,
                &mut words,
                &mut marks,
            );
            Ok(keep_list(addresses, words, marks, count))
        }
    }
}

// Whether the places were too few.
fn is_short(listed: &Result<Result<Listed, Refusal>, AllocError>) -> bool
    ensures { result ≡ is_short listed.now }
{
    matches!(listed, Ok(Err(Refusal::ShortSlice(_))))
}

// How many places are made at first for a script's list.
fn first_room(source: &[u8]) -> usize
    ensures { result ≤ 12288 }
{
    if source.len() <= SHORT { FEW } else { PLACES }
}

/// The list of a script, or its refusal: few places are made at first, and as many as any list has if these were too few.
pub fn assemble_contents(
    alloc: Global,
    call: Call<'_>,
    contents: Contents<'_>,
) -> Result<Result<Listed, Refusal>, AllocError>
    ensures fits { AllFit result }
    ensures answers { (s : Text) → IsOf 32768 s contents.entry → Answers (list_by call.entry s) result }
{
    match contents {
        Contents::Whole(source) => {
            let listed = assemble_within(alloc, call, source, first_room(source));
            if is_short(&listed) {
                return assemble_within(alloc, call, source, PLACES);
            }
            listed
        }
        Contents::TooLong(_, total) => Ok(Err(refuse_long(call, total))),
    }
}

// ---- The texts of a list.

// A line for each word.
fn text_of(alloc: Global, list: &Listed) -> Result<Vec<u8>, AllocError>
    requires { Fits list.now }
    ensures { IfOk result (λ text. text.items ≡ list_text (places_of list.now)) }
{
    let mut text = vec![in alloc; 0u8; LINE * list.count]?;
    write_list(
        &list.addresses,
        &list.words,
        &list.marks,
        list.count,
        &mut text,
    );
    Ok(text)
}

// JSON, on one line.
fn json_of(alloc: Global, list: &Listed) -> Result<Vec<u8>, AllocError>
    requires { Fits list.now }
    ensures { IfOk result (λ text. text.items ≡ line_text (list_data (places_of list.now))) }
{
    places::list_text(alloc, &list.addresses, &list.words, &list.marks, list.count)
}

// The one or the other.
fn text_by(alloc: Global, json: bool, list: &Listed) -> Result<Vec<u8>, AllocError>
    requires { Fits list.now }
    ensures { IfOk result (λ text. text.items ≡ list_text_by json (places_of list.now)) }
{
    if json {
        return json_of(alloc, list);
    }
    text_of(alloc, list)
}

/// The text of a list, a line for each word or JSON, as what a call makes.
pub fn list_output<'a>(alloc: Global, json: bool, list: &Listed) -> Result<Vec<u8>, Failure<'a>>
    requires { Fits list.now }
    ensures { Makes (made (list_text_by json (places_of list.now))) result }
{
    match text_by(alloc, json, list) {
        Ok(text) => Ok(text),
        Err(_) => Err(Failure::NoMemory),
    }
}
