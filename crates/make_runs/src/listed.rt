//! The list of a text, in as much room as it has lines.
ghost use Rattle.std.specs.Prelude.{◌≡◌, ◌≤◌, List, ℕ, IfOk, MatchResult, length as len};
ghost use Rattle.outcome.specs.Made.{Made};
ghost use Rattle.outcome.specs.Outcome.{NotMade};
ghost use Rattle.make_runs.specs.Runs.{of_list};

use listing::reading::read_list;
use listing::writing::LINE;
use outcome::{Stop, Unmade};
use std::alloc::{AllocError, Global};

/// A list's addresses and words.
#[derive(Drop)]
pub struct Listed {
    pub addresses: Vec<u32>,
    pub words: Vec<u16>,
}

// Room for places.
#[derive(Drop)]
struct Room {
    addresses: Vec<u32>,
    words: Vec<u16>,
    marks: Vec<u8>,
}

// Room for so many.
fn make_room(alloc: Global, places: usize) -> Result<Room, AllocError>
    ensures addresses { IfOk result (λ r. len r.addresses.items ≡ places) }
    ensures words { IfOk result (λ r. len r.words.items ≡ places) }
    ensures marks { IfOk result (λ r. len r.marks.items ≡ places) }
{
    let addresses = vec![in alloc; 0u32; places]?;
    let words = vec![in alloc; 0u16; places]?;
    let marks = vec![in alloc; 0u8; places]?;
    Ok(Room {
        addresses,
        words,
        marks,
    })
}

/// Reads the list of a text of which no more than the front that counts is lent.
pub fn read(alloc: Global, text: &[u8]) -> Result<Listed, Unmade>
    requires { len text.now ≤ 196609 }
    ensures list { (f : List ℕ → List ℕ → Made) → MatchResult result (λ l. of_list f text.now ≡ f l.addresses.items l.words.items) (NotMade (of_list f text.now)) }
    ensures long { IfOk result (λ l. len l.words.items ≡ len l.addresses.items) }
{
    let Ok(room) = make_room(alloc, text.len() / LINE) else {
        return Err(Unmade::NoMemory);
    };
    let mut addresses = room.addresses;
    let mut words = room.words;
    let mut marks = room.marks;
    match read_list(text, &mut addresses, &mut words, &mut marks) {
        Ok(_) => Ok(Listed { addresses, words }),
        Err(line) => Err(Unmade::Stopped(Stop::NotAList(line.number))),
    }
}
