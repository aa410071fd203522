#![tactic(auto)]

//! The command line of `lagvettu`: what its words ask for, what is wrong with them, and the texts of help.
pub mod table; // table.rt: the commands and the options, each with its help
pub mod words; // words.rt: the words of the system, as text
pub mod number; // number.rt: numbers as words give them
pub mod lexing; // lexing.rt: the words of a command as options and operands
pub mod help; // help.rt: the texts of --help and --version
pub mod args; // args.rt: what the words ask for
pub mod asking; // asking.rt: from the words to what they ask for
mod givens; // givens.rt: the options and the operands among what is given
mod values; // values.rt: the numbers among what is given
mod naming; // naming.rt: the names that words give files
mod complaints; // complaints.rt: what is wrong with the words, in words
pub mod laws; // laws.rt: what is promised beside the definition

/// The commands.
#[derive(Clone, Copy, Debug, PartialEq, Eq)]
pub enum Command {
    /// The list of a script.
    Assemble,
    /// The same by the manual's own words.
    Manual,
    /// A list, moved.
    Move,
    /// The labels of a script.
    Symbols,
    /// The nearest label at or below an address.
    Nearest,
    /// Of each line whether it has a word, and if not why.
    Why,
    /// The tidy copy of a script.
    Tidy,
    /// How a run ends.
    Run,
    /// The totals of scripts.
    Sheet,
    /// A script for people.
    List,
    /// Of each script whether it is accepted.
    Check,
}

/// The options.
#[derive(Clone, Copy, Debug, PartialEq, Eq)]
pub enum Setting {
    /// `-o FILE`.
    Output,
    /// `--base N`.
    Base,
    /// `--branches FILE`.
    Branches,
    /// `--line N`.
    Line,
    /// `--a0 N`, and so on.
    A0,
    A1,
    A2,
    A3,
    A4,
    A5,
    A6,
    A7,
    /// `-w ADDRESS FROM TO`.
    Tries,
    /// `-t SHEET`.
    Sheet,
    /// `--json`.
    Json,
    /// `--help`.
    Help,
    /// `--version`.
    Version,
}
