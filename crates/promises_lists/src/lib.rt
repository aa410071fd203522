#![tactic(auto)]

//! What is promised of the owner's three demands, of the manual's words and of the limits: each function is a promise, its name the
//! promise's, its clause the statement. None does anything: that its clause holds is what the check proves.

pub mod refusals; // refusals.rt: when a call refuses, and what an accepted one writes
pub mod words; // words.rt: the manual's words, and where they stand
pub mod examples; // examples.rt: the rules' own examples
pub mod moves; // moves.rt: lists that move
pub mod limits; // limits.rt: the limits, each as a number
