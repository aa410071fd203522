#![tactic(auto)]

//! Instructions' parts: what a mnemonic names, registers as operands, and words put together from an opcode and its fields.

pub mod mnemonic; // mnemonic.rt: the operation that a mnemonic names
pub mod register; // register.rt: Dn, An and (An)
pub mod word; // word.rt: fields put into words
