//! A list, moved, as `move` prints it.
ghost use Rattle.std.specs.Prelude.{◌≡◌, ◌≤◌, List, length, IfOk, MatchResult};
ghost use Rattle.rules.specs.Text.{Text};
ghost use Rattle.rules.specs.Assemble.{Place, slices};
ghost use Rattle.listing.specs.Listing.{list_text};
ghost use Rattle.station.specs.Station.{filled_by};
ghost use Rattle.outcome.specs.Outcome.{NotMade};
ghost use Rattle.outcome.specs.Made.{made, told};
ghost use Rattle.make_lists.specs.Listed.{Fits, Answers};
ghost use Rattle.make_lists.specs.Moved.{moved_list, moved, HoldsText};

use crate::listed::{Listed, Unlisted, text_of};
use listing::reading::{BadLine, read_list};
use listing::writing::LINE;
use outcome::making::Make;
use outcome::{Stop, Unmade};
use relocate::relocate;
use station::input::Input;
use station::{LIST, TABLE};
use std::alloc::{AllocError, Global};

/// A list, moved by so many bytes.
#[derive(Clone, Copy, Debug, PartialEq, Eq, Hash)]
pub struct Moving {
    pub distance: i32,
}

// The list of a text, in as many places as it has lines; or its first wrong line.
fn read_text(alloc: Global, text: &[u8]) -> Result<Result<Listed, BadLine>, AllocError>
    requires { length text.now ≤ 196609 }
    ensures { IfOk result (HoldsText text.now) }
{
    let room = text.len() / LINE;
    let mut addresses = vec![in alloc; 0u32; room]?;
    let mut words = vec![in alloc; 0u16; room]?;
    let mut marks = vec![in alloc; 0u8; room]?;
    match read_list(text, &mut addresses, &mut words, &mut marks) {
        Ok(count) => Ok(Ok(Listed {
            addresses,
            words,
            marks,
            count,
        })),
        Err(line) => Ok(Err(line)),
    }
}

// The list, moved.
fn move_list(mut list: Listed, distance: i32) -> Result<Listed, Unlisted>
    requires { Fits list }
    ensures fits { IfOk result Fits }
    ensures answers { (l : List Place) → length l ≡ list.count → slices list.addresses.items list.words.items list.marks.items ≡ filled_by l → Answers (moved_list distance l) result }
{
    relocate(
        &mut list.addresses,
        &mut list.words,
        &list.marks,
        list.count,
        distance,
    )?;
    Ok(list)
}

// The text of a list, moved.
fn print_moved(alloc: Global, list: Listed, distance: i32) -> Result<Vec<u8>, Unmade>
    requires { Fits list }
    ensures { (l : List Place) → length l ≡ list.count → slices list.addresses.items list.words.items list.marks.items ≡ filled_by l → MatchResult result (λ v. told (λ ps. list_text ps) (moved_list distance l) ≡ made v.items) (NotMade (told (λ ps. list_text ps) (moved_list distance l))) }
{
    let moved = move_list(list, distance)?;
    text_of(alloc, &moved).map_err(|_| Unmade::NoMemory)
}

// The text of a list in a text, moved.
fn move_text(alloc: Global, text: &[u8], distance: i32) -> Result<Vec<u8>, Unmade>
    requires { length text.now ≤ 196609 }
    ensures { MatchResult result (λ v. moved distance text.now ≡ made v.items) (NotMade (moved distance text.now)) }
{
    match read_text(alloc, text) {
        Ok(Ok(list)) => print_moved(alloc, list, distance),
        Ok(Err(line)) => Err(Unmade::Stopped(Stop::NotAList(line.number))),
        Err(_) => Err(Unmade::NoMemory),
    }
}

impl Make<{ LIST }> for Moving {
    ghost promised = { λ work t s. moved work.distance s };

    fn make(
        &self,
        alloc: Global,
        _table: &[u8; TABLE],
        _branches: Input,
        front: &[u8; LIST],
        input: Input,
    ) -> Result<Vec<u8>, Unmade> {
        let distance = self.distance;
        move_text(alloc, &front[..LIST.min(input.total)], distance)
    }
}
