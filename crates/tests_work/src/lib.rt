#![tactic(auto)]

//! The tests of whole calls.
#[cfg(test)]
mod of_work;
