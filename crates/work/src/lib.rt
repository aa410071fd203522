#![tactic(auto)]

//! The work of each command, from what is asked of it to what the call comes to.
pub mod calls; // calls.rt: a call on one input, and one on several
pub mod labels; // labels.rt: symbols, nearest
pub mod lines; // lines.rt: why, list
pub mod lists; // lists.rt: assemble, manual, move, tidy, check
pub mod runs; // runs.rt: run
pub mod sheets; // sheets.rt: sheet
pub mod performing; // performing.rt: the commands
pub mod placing; // placing.rt: where the output goes
pub mod running; // running.rt: the command, from its words to what it comes to
