#![tactic(auto)]

//! The shell: what a host does for a call, how the files of a call are read, and how an answer is delivered.
pub mod host; // host.rt: what a host does
pub mod reading; // reading.rt: the files of a call
pub mod one; // one.rt: a call on one file
pub mod several; // several.rt: a call on several files
pub mod delivering; // delivering.rt: an answer written or reported
