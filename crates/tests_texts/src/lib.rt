#![tactic(auto)]

//! The tests of messages, of JSON, of the cells of labels, and of what is told as numbers.
#[cfg(test)]
mod of_diagnostic;
#[cfg(test)]
mod of_jsontext;
#[cfg(test)]
mod of_label;
#[cfg(test)]
mod of_signs;
