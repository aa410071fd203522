#![tactic(auto)]

//! What `run` makes of a list: a line for its run, or for one with each value of a threshold, as text or as JSON.
pub mod listed; // listed.rt: the list of a text
pub mod rows; // rows.rt: its runs, one after another

ghost use Rattle.std.specs.Prelude.{◌≡◌, ◌≤◌, MatchResult, length as len};
ghost use Rattle.outcome.specs.Made.{made};
ghost use Rattle.outcome.specs.Outcome.{NotMade};
ghost use Rattle.make_runs.specs.Runs.{run_made, json_made, of_json};

use jsontext::runs::RunList;
use listed::read;
use outcome::Unmade;
use outcome::making::Make;
use rows::{Lines, add_list};
use station::input::Input;
use station::{LIST, TABLE};
use std::alloc::Global;

/// A threshold: the address of the words that are replaced, and the first and the last value.
#[derive(Clone, Copy, Debug, PartialEq, Eq, Hash)]
pub struct Tries {
    pub address: u32,
    pub from: u16,
    pub to: u16,
}

/// The work of `run`.
#[derive(Clone, Copy, Debug, PartialEq, Eq, Hash)]
pub struct Running {
    /// A0 to A7.
    pub a: [u32; 8],
    pub start: u32,
    pub limit: u64,
    /// None for one run with the words as they are.
    pub tries: Option<Tries>,
}

/// The work of `run --json`.
#[derive(Clone, Copy, Debug, PartialEq, Eq, Hash)]
pub struct RunningJson {
    pub a: [u32; 8],
    pub start: u32,
    pub limit: u64,
    pub tries: Option<Tries>,
}

// The lines of a text's list.
fn lines_of(alloc: Global, work: &Running, text: &[u8]) -> Result<Vec<u8>, Unmade>
    requires { len text.now ≤ 196609 }
    ensures { MatchResult result (λ v. run_made work.now text.now ≡ made v.items) (NotMade (run_made work.now text.now)) }
{
    let mut listed = match read(alloc, text) {
        Ok(listed) => listed,
        Err(e) => return Err(e),
    };
    let mut rows = Lines::new(alloc);
    match add_list(&mut rows, alloc, work, &listed.addresses, &mut listed.words) {
        Ok(()) => Ok(rows.text),
        Err(e) => Err(e),
    }
}

// The JSON of a text's list.
fn json_of(alloc: Global, work: &Running, text: &[u8]) -> Result<Vec<u8>, Unmade>
    requires { len text.now ≤ 196609 }
    ensures { MatchResult result (λ v. json_made work.now text.now ≡ made v.items) (NotMade (json_made work.now text.now)) }
{
    let mut listed = match read(alloc, text) {
        Ok(listed) => listed,
        Err(e) => return Err(e),
    };
    let Ok(mut rows) = RunList::new(alloc) else {
        return Err(Unmade::NoMemory);
    };
    match add_list(&mut rows, alloc, work, &listed.addresses, &mut listed.words) {
        Ok(()) => match rows.finish() {
            Ok(text) => Ok(text),
            Err(_) => Err(Unmade::NoMemory),
        },
        Err(e) => Err(e),
    }
}

impl Make<{ LIST }> for Running {
    ghost promised = { λ s a b. run_made s b };

    fn make(
        &self,
        alloc: Global,
        _table: &[u8; TABLE],
        _branches: Input,
        front: &[u8; LIST],
        input: Input,
    ) -> Result<Vec<u8>, Unmade> {
        lines_of(alloc, self, &front[..input.total.min(LIST)])
    }
}

impl Make<{ LIST }> for RunningJson {
    ghost promised = { λ s a b. json_made (of_json s) b };

    fn make(
        &self,
        alloc: Global,
        _table: &[u8; TABLE],
        _branches: Input,
        front: &[u8; LIST],
        input: Input,
    ) -> Result<Vec<u8>, Unmade> {
        let work = Running {
            a: self.a,
            start: self.start,
            limit: self.limit,
            tries: self.tries,
        };
        json_of(alloc, &work, &front[..input.total.min(LIST)])
    }
}
