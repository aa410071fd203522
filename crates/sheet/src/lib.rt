#![tactic(auto)]

//! One sheet for a plant: totals over a series of sources, each at base 0. A source's totals are those of its lines, added up
//! from the lines that the first pass kept; no list is written. Refusals 20 and 21.
ghost use Rattle.std.specs.Prelude.{◌≡◌, ◌≤◌, ◌<◌, ◌*◌, ◌-◌, ◌/◌, ◌^◌, min};
ghost use Rattle.rules.specs.Limits.{max_labels};
ghost use Rattle.requests.specs.Sheet.{accepted_sheet, source_sheet, add_source, add_sheet};
ghost use Rattle.label.specs.Table.{hashes};
ghost use Rattle.first.specs.Pass.{pass_in};
ghost use Rattle.sheet.specs.Totals.{said, answered};
ghost use Rattle.sheet.specs.Source.{PassTotalsNeeds, Starting};

use answer::Refusal;
use first::{Pass, ScriptSizes};
use label::Labels;
use lines::read_totals;
use sums::{count_sources, is_over, sum};

pub mod sums; // sums.rt: totals added up and looked at
mod lent; // lent.rt: totals as twelve numbers in one array
mod lines; // lines.rt: the totals of the lines that are read

/// The most sources of a series.
pub const MAX_SOURCES: u64 = 1_000_000;

/// The highest total that is taken.
pub const MAX_TOTAL: u64 = 1 << 33;

/// The totals of a series of sources. Lines are counted by their class.
#[derive(Clone, Copy, Debug, PartialEq, Eq, Hash)]
pub struct Totals {
    pub skipped: u64,
    pub org: u64,
    /// A label only.
    pub label: u64,
    /// Data, by DC or DS.
    pub defined: u64,
    /// Instructions with a word.
    pub worded: u64,
    /// Instructions without.
    pub wordless: u64,
    /// END, and what follows.
    pub ended: u64,
    /// Words, of any mark.
    pub words: u64,
    /// Words with mark 1.
    pub marked: u64,
    /// The most in one source.
    pub labels: u64,
    /// Sources.
    pub accepted: u64,
    pub refused: u64,
}

/// No lines and no sources.
// By hand: a constant, which `Default` does not give.
pub const NO_TOTALS: Totals = Totals {
    skipped: 0,
    org: 0,
    label: 0,
    defined: 0,
    worded: 0,
    wordless: 0,
    ended: 0,
    words: 0,
    marked: 0,
    labels: 0,
    accepted: 0,
    refused: 0,
};

// ---- A source's own totals.

// The totals of an accepted source of so many lines, by what the first pass left: those of the lines that are read, and what is counted
// once, the lines from END on, the labels, and the source itself.
fn pass_totals(labels: &Labels<'_>, cells: &[u32], pass: Pass, lines: usize) -> Totals
    requires { PassTotalsNeeds labels.now cells.now pass lines }
    ensures { said result ≡ accepted_sheet labels.now.source (pass_in labels.now cells.now pass) }
{
    let read = read_totals(labels, cells, pass);
    // By `as`: `u64` has no `From<usize>`.
    let whole = Totals {
        ended: (lines - pass.lines) as u64,
        labels: labels.len() as u64,
        accepted: 1,
        ..NO_TOTALS
    };
    sum(read, whole)
}

// The totals of a source that is refused.
const ONE_REFUSED: Totals = Totals {
    refused: 1,
    ..NO_TOTALS
};

// The totals of a source that refusals 1 to 3 let pass, with room for its labels and for two cells a line.
fn totals_in<const TABLE: usize, const CELLS: usize>(source: &[u8], lines: usize) -> Totals
    requires starting { Starting source.now lines }
    requires heads { hashes ≤ TABLE }
    requires sizes { (TABLE < 2 ^ 61) × (CELLS < 2 ^ 61) }
    requires rows { min (2 * lines) max_labels ≤ (TABLE - hashes) / 4 }
    requires cells { 2 * lines ≤ CELLS }
    ensures { said result ≡ source_sheet source.now }
{
    let mut table = [0u32; TABLE];
    let mut cells = [0u32; CELLS];
    let mut labels = Labels::new(source, &mut table);
    match first::first_pass::<ScriptSizes>(&mut labels, 0, &mut cells) {
        Ok(pass) => pass_totals(&labels, &cells, pass, lines),
        Err(_) => ONE_REFUSED,
    }
}

// The most lines whose labels, two a line, have room in a small table; and their cells. As in `assemble`, whose sizes are its own: a
// sheet takes `first` alone.
const SHORT: usize = label::SMALL_LABELS / 2;

const SHORT_TABLE: usize = label::SMALL;

const SHORT_CELLS: usize = 2 * SHORT;

// The table and the cells that any source has room in.
const TABLE: usize = label::TABLE;

const CELLS: usize = 2 * rules::MAX_LINES;

/// A source's own totals: those of its lines and labels, or one refused source. A shorter one has a smaller table and fewer cells, since
/// they are cleared for each call.
pub fn source_totals(source: &[u8]) -> Totals
    ensures { said result ≡ source_sheet source.now }
{
    match source::check_source(source) {
        Ok(lines) if lines <= SHORT => totals_in::<SHORT_TABLE, SHORT_CELLS>(source, lines),
        Ok(lines) => totals_in::<TABLE, CELLS>(source, lines),
        Err(_) => ONE_REFUSED,
    }
}

// ---- The calls.

/// The totals with one source more. Refuses by 20, its place 1,000,000, if they are of as many sources already, then by 21, its place 0,
/// if one of the twelve is above 2^33.
#[tactic(auto, using(crate::proofs::Adding::own_low), unfolding(requests::specs::Sheet::add_source, requests::specs::Sheet::sources, rules::specs::Answer::refuse_if))]
pub fn add_source(totals: Totals, source: &[u8]) -> Result<Totals, Refusal>
    ensures { answered result ≡ add_source (said totals) source.now }
{
    if MAX_SOURCES <= count_sources(totals) {
        return Err(Refusal::ManySources);
    }
    if is_over(totals) {
        return Err(Refusal::HighTotal);
    }
    Ok(sum(totals, source_totals(source)))
}

/// The totals with those of another sheet. Refuses by 20, its place 1,000,000, if they are of more sources together, then by 21, its
/// place 0, if one of either's is above 2^33.
#[tactic(auto, unfolding(requests::specs::Sheet::add_sheet, requests::specs::Sheet::sources, rules::specs::Answer::refuse_if))]
pub fn add_sheet(totals: Totals, sheet: Totals) -> Result<Totals, Refusal>
    ensures { answered result ≡ add_sheet (said totals) (said sheet) }
{
    if MAX_SOURCES < count_sources(totals) + count_sources(sheet) {
        return Err(Refusal::ManySources);
    }
    if is_over(totals) || is_over(sheet) {
        return Err(Refusal::HighTotal);
    }
    Ok(sum(totals, sheet))
}
