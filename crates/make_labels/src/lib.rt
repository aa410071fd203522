#![tactic(auto)]

//! The work of the calls that tell labels: all of a script's, and the one nearest to an address, as text and as JSON.
ghost use Rattle.std.specs.Prelude.{◌≡◌, ◌+◌, ℕ, false, MatchResult};
ghost use mathlib.Core.List.{flat_map};
ghost use Rattle.rules.specs.Text.{Text};
ghost use Rattle.station.specs.Reads.{Reads};
ghost use Rattle.outcome.specs.Made.{made};
ghost use Rattle.outcome.specs.Outcome.{NotMade};
ghost use Rattle.make_labels.specs.Labels.{symbols_made, symbols_json, nearest_made, nearest_json, TooLong};

use answer::Refusal;
use jsontext::labels::{labels_text, nearest_text};
use nearest::nearest_label;
use neartext::{NEAR, put_near};
use outcome::making::{Make, put_text, stop_of};
use outcome::{Stop, Unmade, Which};
use rules::{MAX_LABELS, MAX_SOURCE};
use station::input::Input;
use station::{SCRIPT, TABLE};
use std::alloc::Global;
use symbols::list_symbols;
use symtext::{SYMBOLS, put_symbols};

/// The labels of a script at a base, a line for each.
#[derive(Clone, Copy, Debug, PartialEq, Eq, Hash)]
pub struct Symbols {
    pub base: u32,
}

/// The same as JSON.
#[derive(Clone, Copy, Debug, PartialEq, Eq, Hash)]
pub struct SymbolsJson {
    pub base: u32,
}

/// The label nearest to an address in a script at a base.
#[derive(Clone, Copy, Debug, PartialEq, Eq, Hash)]
pub struct NearestLabel {
    pub base: u32,
    pub address: u32,
}

/// The same as JSON.
#[derive(Clone, Copy, Debug, PartialEq, Eq, Hash)]
pub struct NearestLabelJson {
    pub base: u32,
    pub address: u32,
}

// ---- A script.

// The script that was read: all of it is kept unless it is over the limit.
fn script_in(front: &[u8; SCRIPT], input: Input) -> Result<&[u8], Unmade>
    ensures { (s : Text) → Reads s front.now input → MatchResult result (λ r. r.now ≡ s) (TooLong s) }
{
    let total = input.total;
    if MAX_SOURCE < total {
        let refusal = Refusal::LongSource(total);
        return Err(Unmade::Stopped(Stop::Refused(Which::Input, refusal)));
    }
    Ok(&front[..total])
}

// ---- Of a script of any length.

// The lines of its labels.
fn make_symbols(alloc: Global, script: &[u8], base: u32) -> Result<Vec<u8>, Unmade>
    ensures { MatchResult result (λ v. symbols_made base script.now ≡ made v.items) (NotMade (symbols_made base script.now)) }
{
    let mut room = vec![in alloc; 0u8; SYMBOLS].map_err(|_| Unmade::NoMemory)?;
    let answer = put_symbols(script, base, room.as_mut_slice());
    put_text(answer, room)
}

// The line of the label nearest to an address.
fn make_nearest(alloc: Global, script: &[u8], base: u32, address: u32) -> Result<Vec<u8>, Unmade>
    ensures { MatchResult result (λ v. nearest_made base address script.now ≡ made v.items) (NotMade (nearest_made base address script.now)) }
{
    let mut room = vec![in alloc; 0u8; NEAR].map_err(|_| Unmade::NoMemory)?;
    let answer = put_near(script, base, address, room.as_mut_slice());
    put_text(answer, room)
}

// The value of its labels.
fn make_symbols_json(alloc: Global, script: &[u8], base: u32) -> Result<Vec<u8>, Unmade>
    ensures { MatchResult result (λ v. symbols_json base script.now ≡ made v.items) (NotMade (symbols_json base script.now)) }
{
    let mut starts = [0u32; MAX_LABELS];
    let mut lengths = [0u32; MAX_LABELS];
    let mut addresses = [0u32; MAX_LABELS];
    let mut lines = [0u32; MAX_LABELS];
    match list_symbols(
        script,
        base,
        &mut starts,
        &mut lengths,
        &mut addresses,
        &mut lines,
    ) {
        Ok(count) => match labels_text(
            alloc,
            script,
            &starts[..count],
            &lengths[..count],
            &addresses[..count],
            &lines[..count],
        ) {
            Ok(text) => Ok(text),
            Err(_) => Err(Unmade::NoMemory),
        },
        Err(refusal) => Err(Unmade::Stopped(stop_of(refusal))),
    }
}

// The value of the label nearest to an address.
fn make_nearest_json(
    alloc: Global,
    script: &[u8],
    base: u32,
    address: u32,
) -> Result<Vec<u8>, Unmade>
    ensures { MatchResult result (λ v. nearest_json base address script.now ≡ made v.items) (NotMade (nearest_json base address script.now)) }
{
    match nearest_label(script, base, address) {
        Ok(label) => match nearest_text(alloc, script, label) {
            Ok(text) => Ok(text),
            Err(_) => Err(Unmade::NoMemory),
        },
        Err(refusal) => Err(Unmade::Stopped(stop_of(refusal))),
    }
}

// ---- The calls.

impl Make<{ SCRIPT }> for Symbols {
    ghost promised = { λ work table script. symbols_made work.base script };

    fn make(
        &self,
        alloc: Global,
        _table: &[u8; TABLE],
        _branches: Input,
        front: &[u8; SCRIPT],
        input: Input,
    ) -> Result<Vec<u8>, Unmade> {
        make_symbols(alloc, script_in(front, input)?, self.base)
    }
}

impl Make<{ SCRIPT }> for SymbolsJson {
    ghost promised = { λ work table script. symbols_json work.base script };

    fn make(
        &self,
        alloc: Global,
        _table: &[u8; TABLE],
        _branches: Input,
        front: &[u8; SCRIPT],
        input: Input,
    ) -> Result<Vec<u8>, Unmade> {
        make_symbols_json(alloc, script_in(front, input)?, self.base)
    }
}

impl Make<{ SCRIPT }> for NearestLabel {
    ghost promised = { λ work table script. nearest_made work.base work.address script };

    fn make(
        &self,
        alloc: Global,
        _table: &[u8; TABLE],
        _branches: Input,
        front: &[u8; SCRIPT],
        input: Input,
    ) -> Result<Vec<u8>, Unmade> {
        make_nearest(alloc, script_in(front, input)?, self.base, self.address)
    }
}

impl Make<{ SCRIPT }> for NearestLabelJson {
    ghost promised = { λ work table script. nearest_json work.base work.address script };

    fn make(
        &self,
        alloc: Global,
        _table: &[u8; TABLE],
        _branches: Input,
        front: &[u8; SCRIPT],
        input: Input,
    ) -> Result<Vec<u8>, Unmade> {
        make_nearest_json(alloc, script_in(front, input)?, self.base, self.address)
    }
}
