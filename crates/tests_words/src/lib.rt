#![tactic(auto)]

//! The tests of the command line, and of what its words ask for.
#[cfg(test)]
mod of_asked;
#[cfg(test)]
mod of_commandline;
