#![tactic(auto)]

//! What `why` and `list` make of a script: why its lines have no word, as text and as JSON, and its printout.
pub mod script; // script.rt: the script and the table that it stands under
pub mod why; // why.rt: why lines have no word
pub mod page; // page.rt: a printout

/// The work of `why` on a script.
#[derive(Clone, Copy, Debug, PartialEq, Eq, Hash)]
pub struct Explaining {
    /// The base at which it is assembled.
    pub base: u32,
    /// Whether it stands under a branch table.
    pub lent: bool,
    /// The line that is asked for, from 1; None for all.
    pub line: Option<usize>,
    /// Whether a line with its name stands in front.
    pub headed: bool,
}

/// The work of `why --json` on a script: its entry in the value.
#[derive(Clone, Copy, Debug, PartialEq, Eq, Hash)]
pub struct ExplainingJson {
    pub base: u32,
    pub lent: bool,
    pub line: Option<usize>,
}

/// The work of `list` on a script.
#[derive(Clone, Copy, Debug, PartialEq, Eq, Hash)]
pub struct Printing {
    pub base: u32,
    pub lent: bool,
    pub headed: bool,
}
