#![tactic(auto)]

//! The tests of the work of each command.
#[cfg(test)]
mod of_make_labels;
#[cfg(test)]
mod of_make_lines;
#[cfg(test)]
mod of_make_lists;
#[cfg(test)]
mod of_make_runs;
#[cfg(test)]
mod of_make_sheet;
