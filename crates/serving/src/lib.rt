#![tactic(auto)]

//! A call of the command: its inputs are read, their text is made and put, and what is wrong is said. Nothing is put where an input was
//! not read or has no text.
pub mod one; // one.rt: a call on one input
pub mod several; // several.rt: a call on several inputs
mod gathering; // gathering.rt: the texts of several inputs, one after another
pub mod reading; // reading.rt: the files of a call
pub mod telling; // telling.rt: what is said on standard error

pub use one::serve;
pub use several::serve_each;
