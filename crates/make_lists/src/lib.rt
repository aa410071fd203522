#![tactic(auto)]

//! What the commands make that answer a list, `assemble`, `manual` and `move`, and what `tidy` and `check` make of a script. A script is
//! assembled once, in few places where it is short, and in as many as any list has where these were too few.
pub mod assembling; // assembling.rt: the list of a script, as text and as JSON
mod call; // call.rt: the calls that assemble
pub mod checking; // checking.rt: whether a script is accepted
mod listed; // listed.rt: a list, and the list of a script
pub mod moving; // moving.rt: a list, moved
pub mod tidying; // tidying.rt: the tidy copy of a script

ghost use Rattle.make_lists.specs.Stations.{SameTexts};

/// The texts are those that the station's programs print, which print a refusal too.
#[tactic(auto, using(crate::proofs::Programs::same_texts))]
pub fn same_texts()
    ensures { SameTexts }
{}
