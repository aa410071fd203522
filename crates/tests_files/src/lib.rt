#![tactic(auto)]

//! The tests of inputs and outputs that fail, and of the whole file.
#[cfg(test)]
mod of_outcome;
#[cfg(test)]
mod of_serving;
#[cfg(test)]
mod of_wholefile;
