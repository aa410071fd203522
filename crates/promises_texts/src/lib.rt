#![tactic(auto)]

//! What is promised of the texts that programs print and read: each function is a promise, its name the promise's, its clause the statement.
//! None does anything: that its clause holds is what the check proves.

pub mod inputs; // inputs.rt: inputs that are read chunk by chunk
pub mod lists; // lists.rt: lists as texts
pub mod labels; // labels.rt: the labels as text
pub mod sheets; // sheets.rt: sheets of totals as text
pub mod printouts; // printouts.rt: the printout of a script
pub mod runs; // runs.rt: runs on the bench as text
