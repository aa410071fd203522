#![tactic(auto)]

//! What a command is: a function from its inputs to a text or a failure, or a fold over several inputs. Nothing here reads or writes.
pub mod input; // input.rt: a text that was read
pub mod source; // source.rt: what FILE names
pub mod one; // one.rt: a command on one input
pub mod several; // several.rt: a command on several inputs
pub mod blame; // blame.rt: which file a refusal is of
