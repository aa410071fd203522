#![tactic(auto)]

//! The commands on scripts and lists: `assemble` and `manual` make the text of a list, `move` that of a moved one, `tidy` a copy of a
//! script, and `check` a row for each script. A script is assembled once, in few places if it is short, and in as many as any list has
//! if these were too few.
mod call; // call.rt: the calls that assemble
mod listed; // listed.rt: a list, the list of a script, and its texts
pub mod assembling; // assembling.rt: `assemble` and `manual`
pub mod moving; // moving.rt: `move`
pub mod tidying; // tidying.rt: `tidy`
pub mod checking; // checking.rt: `check`

ghost use Rattle.cli_lists.specs.Stations.{SameTexts};

/// The texts are those that the station's programs print, which print a refusal too.
#[tactic(auto, using(crate::proofs::Programs::same_texts))]
pub fn same_texts()
    ensures { SameTexts }
{}
