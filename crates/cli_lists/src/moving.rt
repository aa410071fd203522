//! `move`: a list, moved.
ghost use Rattle.std.specs.Prelude.{◌≡◌, ◌≤◌, List, length, take, IfOk};
ghost use Rattle.rules.specs.Text.{Text};
ghost use Rattle.rules.specs.Assemble.{Place, slices};
ghost use Rattle.station.specs.Station.{filled_by};
ghost use Rattle.cli_error.specs.Gives.{Makes};
ghost use Rattle.cli_run.specs.Input.{IsOf, OfInput};
ghost use Rattle.cli_lists.specs.Listed.{Fits, Lists};
ghost use Rattle.cli_lists.specs.Moved.{moved_list, moved, listed_move, HoldsText, Filled};

use crate::listed::{Listed, list_output};
use answer::Refusal;
use cli_error::Failure;
use cli_run::blame::input_failure;
use cli_run::input::{Contents, Input, LIST};
use cli_run::one::One;
use listing::reading::{BadLine, read_list};
use listing::writing::LINE;
use relocate::relocate;
use std::alloc::{AllocError, Global};

// The list of a text, in as many places as it has lines; or its first wrong line.
fn read_text(alloc: Global, text: &[u8]) -> Result<Result<Listed, BadLine>, AllocError>
    requires { length text.now ≤ 196609 }
    ensures { IfOk result (HoldsText text.now) }
{
    let room = text.len() / LINE;
    let mut addresses = vec![in alloc; 0u32; room]?;
    let mut words = vec![in alloc; 0u16; room]?;
    let mut marks = vec![in alloc; 0u8; room]?;
    match read_list(text, &mut addresses, &mut words, &mut marks) {
        Ok(count) => Ok(Ok(Listed {
            addresses,
            words,
            marks,
            count,
        })),
        Err(line) => Ok(Err(line)),
    }
}

// The list, moved.
fn move_places(mut list: Listed, distance: i32) -> Result<Listed, Refusal>
    requires { Fits list }
    ensures fits { IfOk result Fits }
    ensures answers { (l : List Place) → Filled l list → Lists (moved_list distance l) result }
{
    match relocate(
        &mut list.addresses,
        &mut list.words,
        &list.marks,
        list.count,
        distance,
    ) {
        Ok(_) => Ok(list),
        Err(refusal) => Err(refusal),
    }
}

// The text of a list that was read, moved.
fn print_moved<'a>(
    alloc: Global,
    list: Listed,
    distance: i32,
    input: Input<'a>,
) -> Result<Vec<u8>, Failure<'a>>
    requires { Fits list }
    ensures { (l : List Place) → Filled l list → OfInput 196609 input.entry (λ b. Makes (listed_move distance b l) result) }
{
    match move_places(list, distance) {
        Ok(list) => list_output(alloc, false, &list),
        Err(refusal) => Err(input_failure(input, refusal)),
    }
}

// As much of a list's text as has to be read: a byte more than the longest has.
fn front_of(contents: Contents<'_>) -> &[u8]
    ensures bound { length result.now ≤ 196609 }
    ensures front { (b : Text) → IsOf 196609 b contents.entry → result.now ≡ take 196609 b }
{
    let front = contents.front();
    &front[..front.len().min(LIST)]
}

// A list by its text, moved by so many bytes, as text.
fn move_list<'a>(alloc: Global, distance: i32, input: Input<'a>) -> Result<Vec<u8>, Failure<'a>>
    ensures { OfInput 196609 input.entry (λ b. Makes (moved distance b) result) }
{
    match read_text(alloc, front_of(input.contents)) {
        Ok(Ok(list)) => print_moved(alloc, list, distance, input),
        Ok(Err(line)) => Err(Failure::NotAList(input.name, line.number)),
        Err(_) => Err(Failure::NoMemory),
    }
}

/// A list by its text, moved by so many bytes, as text.
#[derive(Clone, Copy)]
pub struct Moving {
    pub distance: i32,
}

impl One for Moving {
    ghost kept = { 196609 };

    ghost made = { λ s t b. moved s.distance b };

    fn kept() -> usize
        ensures { result ≡ 196609 }
    {
        LIST
    }

    fn make<'a>(
        &self,
        alloc: Global,
        _table: Option<Input<'a>>,
        input: Input<'a>,
    ) -> Result<Vec<u8>, Failure<'a>> {
        move_list(alloc, self.distance, input)
    }
}
