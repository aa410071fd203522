#![tactic(auto)]

//! What is promised of the comparison with the Rust original: each function is a promise, its name the promise's, its clause the statement.
//! None does anything: that its clause holds is what the check proves.

pub mod lines; // lines.rt: a line alone, and one that holds `[`
pub mod sources; // sources.rt: whole sources, their lists and their refusals
