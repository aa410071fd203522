#![tactic(auto)]

//! What is promised of the calls beside assembling and moving: each function is a promise, its name the promise's, its clause the
//! statement. None does anything: that its clause holds is what the check proves.
//!
//! The plain call is assembling by the rules' own words, the manual's call that by the manual's. Refusals 1 to 6 are those of a source at
//! a base: too long, a byte above 127, too many lines, a base or an address from 2^30 on, too many labels; the first pass accepts a
//! source of which none comes. 7 is a slice that is too short. The eleven are the branches BRA, BCC, BCS, BNE, BEQ, BPL, BMI, BGE, BLT,
//! BGT and BLE. The tally keeps the first list and the total of the accepted distances of moves made one after another.
pub mod nearest; // nearest.rt: which label is near an address, and where labels are recorded
pub mod starts; // starts.rt: which names a line records, and where each starts
pub mod symbols; // symbols.rt: the labels with their lines
pub mod numbers; // numbers.rt: what a number's text says
pub mod directives; // directives.rt: which piece of a line is its number, and what the line does with it
pub mod explain; // explain.rt: which line has no word, and why
pub mod manual_call; // manual_call.rt: the call that gives the manual's own words
pub mod pairs; // pairs.rt: how label addresses of 32 bits move
pub mod branches_land; // branches_land.rt: where branches lead
pub mod landing; // landing.rt: where a branch's word stands in the list
pub mod tables; // tables.rt: tables of branch names, and the calls that may be lent one
pub mod sums; // sums.rt: sums in square brackets
pub mod tidy; // tidy.rt: the tidy copy
pub mod sheets; // sheets.rt: the totals of a plant's sources
pub mod joined; // joined.rt: two sheets joined, and what is left in lent totals
