#![tactic(auto)]

//! The numbers that C gets for what a line's number said and for a run: definitions, in specs/, which the C interface's contracts cite and the
//! table of its numbers is held against.
