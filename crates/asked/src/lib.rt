#![tactic(auto)]

//! What the words of the command line ask for, and what is done before any work: help is printed, wrong use is said, and names that name no file.
pub mod naming; // naming.rt: the names that words give files
pub mod saying; // saying.rt: a text on standard error
pub mod wrong; // wrong.rt: what is said of wrong use
pub mod task; // task.rt: what the words ask for
pub mod printing; // printing.rt: help and the version
pub mod refusing; // refusing.rt: names that are no UTF-8
pub mod misusing; // misusing.rt: wrong use
