#![tactic(auto)]

//! What is promised of the bench: each function is a promise, its name the promise's, its clause the statement. None does anything: that
//! its clause holds is what the check proves.
pub mod words; // words.rt: which words are run, and as what
pub mod steps; // steps.rt: what each form's step does, and what the conditions say after a compare
pub mod runs; // runs.rt: when a step may be made, and what a run is
pub mod call; // call.rt: what a call refuses, answers and leaves
