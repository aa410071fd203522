#![tactic(auto)]

//! The command `sheet`: it adds up sheets, and then scripts that its input names, one a line, up to the first that cannot be added; one
//! file is held at a time. The totals are put as a whole, and nothing where there are none.
mod files; // files.rt: one file, a sheet or a script
mod names; // names.rt: the scripts that the input names
mod said; // said.rt: what is said of a file that cannot be added

ghost use Rattle.std.specs.Prelude.{◌≡◌, map, option_map, IfOk, IfErr, OnOk, MatchResult};
ghost use Rattle.sheet.specs.Totals.{said};
ghost use Rattle.serving.specs.Said.{named};
ghost use Rattle.make_sheet.specs.Series.{text_of};
ghost use Rattle.make_sheet.specs.Reading.{InputUnopened, Telling};
ghost use Rattle.make_sheet.specs.Stated.{PlantSheet};
ghost use Rattle.make_sheet.specs.Served.{SheetsAdded, SheetHalts, AllAdded, NotAdded, Ends, Put};

use files::add_sheet;
use jsontext::totals::totals_text;
use names::add_names;
use outcome::opening::Opening;
use outcome::output::Output;
use outcome::{Outcome, What, Which};
use said::tell;
use serving::telling::named;
use sheet::{NO_TOTALS, Totals};
use sheettext::SHEET;
use sheettext::rows::write_sheet;
use station::SCRIPT;
use std::alloc::{AllocError, Global};
use std::io::Write;

// Adds up the sheets of these names.
fn add_sheets<F: Opening, E: Write>(
    alloc: Global,
    files: &F,
    sheets: &[&str],
    front: &mut [u8; SCRIPT],
    errors: &mut E,
) -> Result<Totals, Outcome>
    ensures sum { MatchResult result (λ t. SheetsAdded (F.holds files.now) (map (λ s. s.now) sheets.now) (said t)) (λ o. SheetHalts (F.holds files.now) (Telling (E.contents errors.old) (E.contents errors.new)) (map (λ s. s.now) sheets.now) o) }
    ensures silent { OnOk result (errors.new ≡ errors.old) }
{
    let mut totals = NO_TOTALS;
    for k in 0..sheets.len() {
        totals = add_sheet(alloc, files, k, sheets[k], totals, front, errors)?;
    }
    Ok(totals)
}

// Opens the input.
fn open_names<F: Opening, E: Write>(
    alloc: Global,
    files: &F,
    names: Option<&str>,
    errors: &mut E,
) -> Result<F::Reader, Outcome>
    ensures ok { IfOk result (λ r. F.Reader.remaining r ≡ F.holds files.now (option_map (λ n. n.now) names.entry)) }
    ensures err { IfErr result InputUnopened }
    ensures silent { OnOk result (errors.new ≡ errors.old) }
    ensures said { IfErr result (λ o. Telling (E.contents errors.old) (E.contents errors.new) (named (option_map (λ n. n.now) names.entry)) o) }
{
    match files.open(names) {
        Ok(reader) => Ok(reader),
        Err(e) => {
            let failed = Outcome::Failed(What::Open, Some(Which::Input), e);
            tell(alloc, named(names).as_bytes(), failed, errors);
            Err(failed)
        }
    }
}

// The totals of all sheets and of all scripts that the input names.
fn add_all<F: Opening, E: Write>(
    alloc: Global,
    files: &F,
    sheets: &[&str],
    names: Option<&str>,
    errors: &mut E,
) -> Result<Totals, Outcome>
    ensures sum { MatchResult result (λ u. AllAdded (F.holds files.now) (map (λ s. s.now) sheets.now) (option_map (λ n. n.now) names.entry) (said u)) (λ o. NotAdded (F.holds files.now) (Telling (E.contents errors.old) (E.contents errors.new)) (map (λ s. s.now) sheets.now) (option_map (λ n. n.now) names.entry) o) }
    ensures silent { OnOk result (errors.new ≡ errors.old) }
{
    let mut front = [0u8; SCRIPT];
    let totals = add_sheets(alloc, files, sheets, &mut front, errors)?;
    let mut from = open_names(alloc, files, names, errors)?;
    add_names(
        alloc,
        files,
        &mut from,
        named(names),
        totals,
        &mut front,
        errors,
    )
}

// The text for totals.
fn sheet_text(alloc: Global, totals: Totals, json: bool) -> Result<Vec<u8>, AllocError>
    ensures { IfOk result (λ text. text.items ≡ text_of json (said totals)) }
{
    if json {
        return totals_text(alloc, totals);
    }
    let mut text = [0u8; SHEET];
    let size = write_sheet(totals, &mut text);
    let mut whole = Vec::new(alloc);
    whole.extend_from_slice(&text[..size])?;
    Ok(whole)
}

// Puts the text for totals.
fn put_totals<O: Output>(alloc: Global, totals: Totals, json: bool, out: &mut O) -> Outcome
    ensures { Put (λ s r. O.puts out.old out.new s r) (out.new ≡ out.old) (text_of json (said totals)) result }
{
    match sheet_text(alloc, totals, json) {
        Ok(text) => match out.put(&text) {
            Ok(()) => Outcome::Accepted,
            Err(e) => Outcome::Failed(What::Write, None, e),
        },
        Err(_) => Outcome::NoMemory,
    }
}

/// Adds up the sheets of these names, in order, and then the scripts that the input names, and puts their sheet.
pub fn serve_sheet<F: Opening, O: Output, E: Write>(
    alloc: Global,
    files: &F,
    sheets: &[&str],
    names: Option<&str>,
    json: bool,
    output: &str,
    out: &mut O,
    errors: &mut E,
) -> Outcome
    ensures { Ends (F.holds files.now) (Telling (E.contents errors.old) (E.contents errors.new)) (map (λ s. s.now) sheets.now) (option_map (λ n. n.now) names.entry) json output.now (λ s r. O.puts out.old out.new s r) (out.new ≡ out.old) result }
{
    match add_all(alloc, files, sheets, names, errors) {
        Ok(totals) => {
            let outcome = put_totals(alloc, totals, json, out);
            tell(alloc, output.as_bytes(), outcome, errors);
            outcome
        }
        Err(outcome) => outcome,
    }
}

/// With no sheets, scripts come to the rules' sheet of a plant.
#[tactic(auto, using(crate::proofs::Summing::plant_scripts))]
pub fn plant_sheet()
    ensures { PlantSheet }
{}
