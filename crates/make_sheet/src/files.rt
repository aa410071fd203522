//! A file of a name: it is read, and the sheet or the script in it is added to totals.
ghost use Rattle.std.specs.Prelude.{◌≡◌, Some, false, IfErr, OnOk, MatchResult};
ghost use Rattle.rules.specs.Text.{Text};
ghost use Rattle.station.specs.Reads.{Reads};
ghost use Rattle.sheet.specs.Totals.{said};
ghost use Rattle.outcome.specs.Made.{stopped};
ghost use Rattle.outcome.specs.declared.Which.TheVariants.{Sheet, Script};
ghost use Rattle.make_sheet.specs.Series.{summed, halts, with_sheet, with_script};
ghost use Rattle.make_sheet.specs.Reading.{Added, Unadded, Telling};

use crate::said::told;
use outcome::opening::Opening;
use outcome::{Outcome, Stop, What, Which};
use serving::reading::read_file;
use sheet::Totals;
use sheettext::add_sheet_text;
use station::SCRIPT;
use station::input::Input;
use std::alloc::Global;
use std::io::{Error, ErrorKind, Write};

// What a read of a file asks for: most scripts have no more.
const CHUNK: usize = 4096;

// The totals with those of the k-th sheet, which was read.
fn with_sheet(k: usize, totals: Totals, front: &[u8; SCRIPT], input: Input) -> Result<Totals, Stop>
    requires { input.failed ≡ false }
    ensures { (s : Text) → Reads s front.now input → MatchResult result (λ u. with_sheet k s (summed (said totals)) ≡ summed (said u)) (λ e. with_sheet k s (summed (said totals)) ≡ halts (stopped e)) }
{
    match add_sheet_text(totals, front, input) {
        Ok(sum) => Ok(sum),
        Err(sheettext::Stop::Refused(refusal)) => Err(Stop::Refused(Which::Sheet(k), refusal)),
        Err(sheettext::Stop::Wrong(line)) => Err(Stop::NotASheet(line.number)),
        Err(sheettext::Stop::Unread) => unreachable!(),
    }
}

// The totals with a script more, which was read.
fn with_script(totals: Totals, front: &[u8; SCRIPT], input: Input) -> Result<Totals, Stop>
    requires { input.failed ≡ false }
    ensures { (s : Text) → Reads s front.now input → MatchResult result (λ u. with_script s (summed (said totals)) ≡ summed (said u)) (λ e. with_script s (summed (said totals)) ≡ halts (stopped e)) }
{
    match sheettext::add_script(totals, front, input) {
        Ok(sum) => Ok(sum),
        Err(sheettext::Stop::Refused(refusal)) => Err(Stop::Refused(Which::Script, refusal)),
        Err(sheettext::Stop::Wrong(_)) => unreachable!(),
        Err(sheettext::Stop::Unread) => unreachable!(),
    }
}

// Reads the k-th sheet and adds it.
fn add_kth<F: Opening>(
    files: &F,
    k: usize,
    name: &str,
    totals: Totals,
    front: &mut [u8; SCRIPT],
) -> Result<Totals, Outcome>
    ensures { MatchResult result (λ u. Added (F.holds files.now (Some name.now)) (with_sheet k) (said totals) (said u)) (λ o. Unadded (F.holds files.now (Some name.now)) (with_sheet k) (Sheet k) (said totals) o) }
{
    let input = read_file::<F, CHUNK>(files, Which::Sheet(k), Some(name), front)?;
    match with_sheet(k, totals, front, input) {
        Ok(sum) => Ok(sum),
        Err(stop) => Err(Outcome::Stopped(stop)),
    }
}

/// Reads the k-th sheet and adds it; what it cannot be read or added for is said.
pub(crate) fn add_sheet<F: Opening, E: Write>(
    alloc: Global,
    files: &F,
    k: usize,
    name: &str,
    totals: Totals,
    front: &mut [u8; SCRIPT],
    errors: &mut E,
) -> Result<Totals, Outcome>
    ensures sum { MatchResult result (λ u. Added (F.holds files.now (Some name.now)) (with_sheet k) (said totals) (said u)) (λ o. Unadded (F.holds files.now (Some name.now)) (with_sheet k) (Sheet k) (said totals) o) }
    ensures silent { OnOk result (errors.new ≡ errors.old) }
    ensures said { IfErr result (λ o. Telling (E.contents errors.old) (E.contents errors.new) name.now o) }
{
    told(
        alloc,
        name.as_bytes(),
        add_kth(files, k, name, totals, front),
        errors,
    )
}

// Reads a script and adds it.
fn add_named<F: Opening>(
    files: &F,
    name: &str,
    totals: Totals,
    front: &mut [u8; SCRIPT],
) -> Result<Totals, Outcome>
    ensures { MatchResult result (λ u. Added (F.holds files.now (Some name.now)) with_script (said totals) (said u)) (λ o. Unadded (F.holds files.now (Some name.now)) with_script Script (said totals) o) }
{
    let input = read_file::<F, CHUNK>(files, Which::Script, Some(name), front)?;
    match with_script(totals, front, input) {
        Ok(sum) => Ok(sum),
        Err(stop) => Err(Outcome::Stopped(stop)),
    }
}

// The same by a name that may be no text: then it cannot be opened.
fn add_bytes<F: Opening>(
    files: &F,
    name: &[u8],
    totals: Totals,
    front: &mut [u8; SCRIPT],
) -> Result<Totals, Outcome>
    ensures { MatchResult result (λ u. Added (F.holds files.now (Some name.now)) with_script (said totals) (said u)) (λ o. Unadded (F.holds files.now (Some name.now)) with_script Script (said totals) o) }
{
    match str::from_utf8(name) {
        Ok(name) => add_named(files, name, totals, front),
        Err(_) => {
            let why = Error::new(ErrorKind::InvalidInput, "the name is not UTF-8");
            Err(Outcome::Failed(What::Open, Some(Which::Script), why))
        }
    }
}

/// Reads a script and adds it; what it cannot be read or added for is said.
pub(crate) fn add_script<F: Opening, E: Write>(
    alloc: Global,
    files: &F,
    name: &[u8],
    totals: Totals,
    front: &mut [u8; SCRIPT],
    errors: &mut E,
) -> Result<Totals, Outcome>
    ensures sum { MatchResult result (λ u. Added (F.holds files.now (Some name.now)) with_script (said totals) (said u)) (λ o. Unadded (F.holds files.now (Some name.now)) with_script Script (said totals) o) }
    ensures silent { OnOk result (errors.new ≡ errors.old) }
    ensures said { IfErr result (λ o. Telling (E.contents errors.old) (E.contents errors.new) name.now o) }
{
    told(alloc, name, add_bytes(files, name, totals, front), errors)
}
