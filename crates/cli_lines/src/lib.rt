#![tactic(auto)]

//! `why` and `list`: why the lines of scripts have no word, and the listings of scripts.
pub mod explaining; // explaining.rt: `why`
pub mod laws; // laws.rt: what follows of several scripts
pub mod printing; // printing.rt: `list`
mod script; // script.rt: the branch table of a script, and the line in front of its text
mod verdicts; // verdicts.rt: the verdicts on a script, as text and as JSON
