//! The list of a script, as `assemble` and `manual` print it.
ghost use Rattle.std.specs.Prelude.{IfOk};
ghost use Rattle.rules.specs.Text.{Text};
ghost use Rattle.requests.specs.ManualAssemble.{assemble_manual};
ghost use Rattle.listing.specs.Listing.{list_text};
ghost use Rattle.station.specs.Reads.{Reads};
ghost use Rattle.jsontext.specs.Line.{line_text};
ghost use Rattle.jsontext.specs.Places.{list_data};
ghost use Rattle.outcome.specs.Made.{told};
ghost use Rattle.make_lists.specs.Listed.{list_of, Fits, Answers};

use crate::call::{Manual, Plain, Under};
use crate::listed::{Listed, Unlisted, json_of, list_input, text_of};
use outcome::Unmade;
use outcome::making::Make;
use station::input::Input;
use station::{SCRIPT, TABLE};
use std::alloc::Global;

/// The list of a script at a base, under a branch table where one is lent.
#[derive(Clone, Copy, Debug, PartialEq, Eq, Hash)]
pub struct Assembling {
    pub base: u32,
    pub lent: bool,
}

/// The same as JSON.
#[derive(Clone, Copy, Debug, PartialEq, Eq, Hash)]
pub struct AssemblingJson {
    pub base: u32,
    pub lent: bool,
}

/// The list of a script at a base by the manual's own words.
#[derive(Clone, Copy, Debug, PartialEq, Eq, Hash)]
pub struct AssemblingManual {
    pub base: u32,
}

/// The list of a script of which the front is kept, at a base, under a branch table where one is lent.
pub(crate) fn assemble_input(
    alloc: Global,
    base: u32,
    lent: bool,
    table: &[u8; TABLE],
    branches: Input,
    front: &[u8; SCRIPT],
    input: Input,
) -> Result<Listed, Unlisted>
    ensures fits { IfOk result Fits }
    ensures answers { (t s : Text) → Reads t table.now branches → Reads s front.now input → Answers (list_of lent base t s) result }
{
    if lent {
        let kept = TABLE.min(branches.total);
        let names = &table[..kept];
        return list_input(alloc, &Under { names, base }, front, input);
    }
    list_input(alloc, &Plain { base }, front, input)
}

impl Make<{ SCRIPT }> for Assembling {
    ghost promised = { λ work t s. told (λ l. list_text l) (list_of work.lent work.base t s) };

    fn make(
        &self,
        alloc: Global,
        table: &[u8; TABLE],
        branches: Input,
        front: &[u8; SCRIPT],
        input: Input,
    ) -> Result<Vec<u8>, Unmade> {
        let list = assemble_input(alloc, self.base, self.lent, table, branches, front, input)?;
        text_of(alloc, &list).map_err(|_| Unmade::NoMemory)
    }
}

impl Make<{ SCRIPT }> for AssemblingJson {
    ghost promised = { λ work t s. told (λ l. line_text (list_data l)) (list_of work.lent work.base t s) };

    fn make(
        &self,
        alloc: Global,
        table: &[u8; TABLE],
        branches: Input,
        front: &[u8; SCRIPT],
        input: Input,
    ) -> Result<Vec<u8>, Unmade> {
        let list = assemble_input(alloc, self.base, self.lent, table, branches, front, input)?;
        json_of(alloc, &list).map_err(|_| Unmade::NoMemory)
    }
}

impl Make<{ SCRIPT }> for AssemblingManual {
    ghost promised = { λ work t s. told (λ l. list_text l) (assemble_manual work.base s) };

    fn make(
        &self,
        alloc: Global,
        _table: &[u8; TABLE],
        _branches: Input,
        front: &[u8; SCRIPT],
        input: Input,
    ) -> Result<Vec<u8>, Unmade> {
        let list = list_input(alloc, &Manual { base: self.base }, front, input)?;
        text_of(alloc, &list).map_err(|_| Unmade::NoMemory)
    }
}
