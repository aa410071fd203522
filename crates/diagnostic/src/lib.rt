#![tactic(auto)]

//! What the command says on standard error, and the rows of `check`, as bytes. A text is made whole before it is written, so that it is
//! one write; where memory runs out there is none.
pub mod words; // words.rt: each refusal in words, and what its place counts
pub mod shown; // shown.rt: the line that a refusal speaks of
pub mod reason; // reason.rt: why the system failed, in its own words
pub mod said; // said.rt: the lines of refusals, failures and wrong use
mod bytes; // bytes.rt: texts appended to a text
