#![tactic(auto)]

//! The command `sheet`: it adds up sheets, and then the scripts that its input names, one a line, up to the first that cannot be added.
//! One file is in memory at a time, so their number has no bound but that of the totals.
mod adding; // adding.rt: one file, a sheet or a script
mod names; // names.rt: the scripts that the input names
mod totalling; // totalling.rt: the text for totals

ghost use Rattle.cli_io.specs.World.{name_of};
ghost use Rattle.cli_io.specs.Answers.{Answers};
ghost use Rattle.cli_totals.specs.Sheeted.{texts, AnswersSheet};
ghost use Rattle.cli_totals.specs.Stated.{PlantSheet, TotalsOfAll};

use adding::{KEPT, Kind, add_file};
use cli_error::Answer;
use cli_io::host::Host;
use names::answer_input;
use sheet::NO_TOTALS;

/// The arguments of `sheet`.
#[derive(Clone, Copy)]
pub struct Sheets<'a> {
    /// Whether the totals are written as a line of JSON.
    pub json: bool,
    /// The sheets that are added first.
    pub sheets: &'a [&'a str],
    /// The input that names scripts; none is standard input.
    pub file: Option<&'a str>,
}

/// The answer: the totals of all sheets and of all scripts that the input names.
pub fn answer_sheet<H: Host>(host: &mut H, args: &Sheets<'_>) -> Answer
    ensures { Answers (AnswersSheet H.world args.now.json (texts args.now.sheets.now) (name_of args.now.file)) host.old host.new result }
{
    let sheets = args.sheets;
    let mut front = [0u8; KEPT];
    let mut totals = NO_TOTALS;
    for k in 0..sheets.len() {
        match add_file(host, Kind::Sheet, sheets[k], totals, &mut front) {
            Ok(sum) => totals = sum,
            Err(answer) => return answer,
        }
    }
    answer_input(host, args, totals, &mut front)
}

/// With no sheets, scripts come to the rules' sheet of a plant.
#[tactic(auto, using(crate::proofs::Plants::plant_scripts))]
pub fn plant_sheet()
    ensures { PlantSheet }
{}

/// A text that is written is that of the totals of all sheets and of a script for each line of the input.
pub fn totals_of_all<H: Host>()
    ensures { TotalsOfAll H.world }
{}
