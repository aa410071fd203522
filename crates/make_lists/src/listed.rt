//! A list in three vectors; the list of a script; and its texts.
ghost use Rattle.std.specs.Prelude.{◌≡◌, ◌≤◌, IfOk};
ghost use Rattle.rules.specs.Text.{Text};
ghost use Rattle.listing.specs.Listing.{list_text};
ghost use Rattle.station.specs.Reads.{Reads};
ghost use Rattle.jsontext.specs.Line.{line_text};
ghost use Rattle.jsontext.specs.Places.{list_data};
ghost use Rattle.make_lists.specs.Listed.{places_of, Fits, Few, within, Answers, is_short, unmade_of};
ghost use Rattle.make_lists.specs.declared.listed.Unlisted.TheVariants.{Refused, NoMemory};

use crate::call::Call;
use answer::Refusal;
use jsontext::places;
use listing::writing::{LINE, write_list};
use outcome::{Stop, Unmade, of_which};
use rules::MAX_SOURCE;
use station::input::Input;
use station::{PLACES, SCRIPT};
use std::alloc::{AllocError, Global};

/// A list: its words stand in the first `count` places of three vectors.
#[derive(Drop)]
pub struct Listed {
    pub addresses: Vec<u32>,
    pub words: Vec<u16>,
    pub marks: Vec<u8>,
    pub count: usize,
}

/// Why there is no list.
#[derive(Clone, Copy, Debug, PartialEq, Eq, Hash)]
pub enum Unlisted {
    /// The call is refused.
    Refused(Refusal),
    /// There is no memory to make it in.
    NoMemory,
}

impl From<AllocError> for Unlisted {
    ghost from_gives = { λ e u. u ≡ NoMemory };

    fn from(_: AllocError) -> Unlisted {
        Unlisted::NoMemory
    }
}

impl From<Refusal> for Unlisted {
    ghost from_gives = { λ refusal u. u ≡ Refused refusal };

    fn from(refusal: Refusal) -> Unlisted {
        Unlisted::Refused(refusal)
    }
}

impl From<Unlisted> for Unmade {
    ghost from_gives = { λ e u. u ≡ unmade_of e };

    fn from(e: Unlisted) -> Unmade {
        match e {
            Unlisted::Refused(refusal) => Unmade::Stopped(Stop::Refused(
                of_which(refusal),
                refusal,
            )),
            Unlisted::NoMemory => Unmade::NoMemory,
        }
    }
}

/// The bytes of a script for whose list few places are made at first.
const SHORT: usize = 4096;

/// These places.
const FEW: usize = 1024;

// The list of a script, for which so many places are made.
fn list_within<C: Call>(
    alloc: Global,
    call: &C,
    source: &[u8],
    room: usize,
) -> Result<Listed, Unlisted>
    requires { room ≤ 12288 }
    ensures fits { IfOk result Fits }
    ensures answers { Answers (within room (C.list call.now source.now)) result }
{
    let mut addresses = vec![in alloc; 0u32; room]?;
    let mut words = vec![in alloc; 0u16; room]?;
    let mut marks = vec![in alloc; 0u8; room]?;
    let count = call.assemble(source, &mut addresses, &mut words, &mut marks)?;
    Ok(Listed {
        addresses,
        words,
        marks,
        count,
    })
}

// Whether the places were too few.
fn is_short(e: Unlisted) -> bool
    ensures { result ≡ is_short e }
{
    matches!(e, Unlisted::Refused(Refusal::ShortSlice(_)))
}

// How many places are made at first for a script's list.
fn first_room(source: &[u8]) -> usize
    ensures { result ≤ 12288 }
{
    if source.len() <= SHORT { FEW } else { PLACES }
}

/// The list of a script, or why there is none.
pub fn list_script<C: Call>(alloc: Global, call: &C, source: &[u8]) -> Result<Listed, Unlisted>
    requires { Few (C.list call.now source.now) }
    ensures fits { IfOk result Fits }
    ensures answers { Answers (C.list call.now source.now) result }
{
    match list_within(alloc, call, source, first_room(source)) {
        Ok(list) => Ok(list),
        Err(e) => {
            if is_short(e) {
                return list_within(alloc, call, source, PLACES);
            }
            Err(e)
        }
    }
}

/// The list of a script of which the front is kept, or why there is none.
pub fn list_input<C: Call>(
    alloc: Global,
    call: &C,
    front: &[u8; SCRIPT],
    input: Input,
) -> Result<Listed, Unlisted>
    requires { (s : Text) → Few (C.list call.now s) }
    ensures fits { IfOk result Fits }
    ensures answers { (s : Text) → Reads s front.now input → Answers (C.list call.now s) result }
{
    if MAX_SOURCE < input.total {
        return Err(Unlisted::Refused(call.refuse_long(input.total)));
    }
    list_script(alloc, call, &front[..input.total])
}

/// The text of a list, a line for each word.
pub fn text_of(alloc: Global, list: &Listed) -> Result<Vec<u8>, AllocError>
    requires { Fits list.now }
    ensures { IfOk result (λ text. text.items ≡ list_text (places_of list.now)) }
{
    let mut text = vec![in alloc; 0u8; LINE * list.count]?;
    write_list(
        &list.addresses,
        &list.words,
        &list.marks,
        list.count,
        &mut text,
    );
    Ok(text)
}

/// The list as JSON, on one line.
pub fn json_of(alloc: Global, list: &Listed) -> Result<Vec<u8>, AllocError>
    requires { Fits list.now }
    ensures { IfOk result (λ text. text.items ≡ line_text (list_data (places_of list.now))) }
{
    places::list_text(alloc, &list.addresses, &list.words, &list.marks, list.count)
}
