#![tactic(auto)]

//! The command line of `lagvettu`: what its words ask for, what is said where they are wrong, and its texts of help.
pub mod table; // table.rt: the commands and the options, each with what is said of it
pub mod words; // words.rt: the words of the system, as text
pub mod number; // number.rt: numbers as words give them
pub mod asking; // asking.rt: what is asked, from what clap found
pub mod parse; // parse.rt: the words by clap
pub mod message; // message.rt: what is wrong, in words
pub mod help; // help.rt: the texts of --help and --version

/// The commands.
#[derive(Clone, Copy, Debug, PartialEq, Eq)]
pub enum Command {
    /// The list of a script.
    Assemble,
    /// The same by the manual's own words.
    Manual,
    /// A list, moved.
    Move,
    /// The labels of a script.
    Symbols,
    /// The nearest label at or below an address.
    Nearest,
    /// Of each line whether it has a word, and if not why.
    Why,
    /// The tidy copy of a script.
    Tidy,
    /// How a run ends.
    Run,
    /// The totals of scripts.
    Sheet,
    /// A script for people.
    List,
    /// Of each script whether it is accepted.
    Check,
}

/// The options.
#[derive(Clone, Copy, Debug, PartialEq, Eq)]
pub enum Setting {
    /// `-o FILE`.
    Output,
    /// `--base N`.
    Base,
    /// `--branches FILE`.
    Branches,
    /// `--line N`.
    Line,
    /// `--a0 N`, and so on.
    A0,
    A1,
    A2,
    A3,
    A4,
    A5,
    A6,
    A7,
    /// `-w ADDRESS FROM TO`.
    Tries,
    /// `-t SHEET`.
    Sheet,
    /// `--json`.
    Json,
    /// `--help`.
    Help,
    /// `--version`.
    Version,
}

/// What `-w` asks: a run with each value from `from` to `to` as the words at `address`.
#[derive(Clone, Copy, Debug, PartialEq, Eq)]
pub struct Tries {
    pub address: u32,
    pub from: u16,
    pub to: u16,
}

/// What the command line asks. No file stands for standard input, and `-` among several too.
#[derive(Debug, Drop)]
pub struct Asked<'a> {
    pub command: Command,
    /// FILE, as often as it is given.
    pub files: Vec<&'a str>,
    /// `-o`; none for standard output.
    pub output: Option<&'a str>,
    /// `--branches`.
    pub branches: Option<&'a str>,
    /// `--base`, 0 where it is not given.
    pub base: u32,
    /// `--line`.
    pub line: Option<u64>,
    /// `--a0` to `--a7`, each 0 where it is not given.
    pub a: [u32; 8],
    /// `-w`.
    pub tries: Option<Tries>,
    /// `-t`, as often as it is given.
    pub sheets: Vec<&'a str>,
    /// ADDRESS of `nearest`, START of `run`, 0 for the others.
    pub address: u32,
    /// LIMIT of `run`.
    pub limit: u64,
    /// DISTANCE of `move`.
    pub distance: i32,
    /// `--json`.
    pub json: bool,
}

/// What is wrong with the words.
#[derive(Debug, Drop)]
pub enum Wrong {
    /// There is no word.
    NoCommand,
    /// The first word is no command.
    UnknownCommand(String),
    /// An option that the command does not take.
    UnknownOption(Command, String),
    /// A word after the last that the command takes.
    TooMany(Command, String),
    /// An option without its values, with a wrong one, or with one where it takes none.
    Takes(Command, Setting),
    /// A word where a number stands that is none.
    NoNumber(Command, String),
    /// The numbers before FILE are not all there.
    Missing(Command),
    /// The words are wrong in another way.
    Unclear(Command),
    /// There was no memory to read them.
    OutOfMemory,
}
