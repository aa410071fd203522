#![tactic(auto)]

//! The rules' limits, for the code. What they mean stands in specs/, which has the rules of docs/LANGUAGE.md as definitions.

/// The longest source, in bytes.
pub const MAX_SOURCE: usize = 32768;

/// The most lines of a source.
pub const MAX_LINES: usize = 4096;

/// The most distinct labels.
pub const MAX_LABELS: usize = 256;

/// Addresses of lines and labels lie below this.
pub const ADDRESS_LIMIT: u32 = 1073741824;
