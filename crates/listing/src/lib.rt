#![tactic(auto)]

//! The text of a list, as the station shows it: written, and read back.
pub mod writer; // writer.rt: a text put over the front of a lent slice, part after part
pub mod writing; // writing.rt: a line for each word, and the line of a refusal
pub mod reading; // reading.rt: the list of a text in that form
pub mod distance; // distance.rt: a signed number of 32 bits, for the mover
