//! What the words ask for: a call with its arguments, a text, or an error message.
ghost use Rattle.std.specs.Prelude.{◌≡◌};

use crate::Command;
use cli_error::What;
use cli_run::source::Source;

/// What is wrong with the name of a file that is not UTF-8: the system's files are opened by text.
pub const NOT_UTF8: &str = "the name is not UTF-8";

/// `-w`: a run with each value from `from` to `to` as the words at `at`.
#[derive(Clone, Copy, Debug, PartialEq, Eq)]
pub struct Sweep {
    pub at: u32,
    pub from: u16,
    pub to: u16,
}

// In each of these, `json` is `--json`, `base` is `--base`, 0 if it is not given, `branches` is `--branches`, and `file` is FILE: none is
// standard input.

#[derive(Clone, Copy)]
pub struct AssembleArgs<'a> {
    pub json: bool,
    pub base: u32,
    pub branches: Option<&'a str>,
    pub file: Option<&'a str>,
}

#[derive(Clone, Copy)]
pub struct ManualArgs<'a> {
    pub base: u32,
    pub file: Option<&'a str>,
}

#[derive(Clone, Copy)]
pub struct MoveArgs<'a> {
    pub distance: i32,
    pub file: Option<&'a str>,
}

#[derive(Clone, Copy)]
pub struct SymbolsArgs<'a> {
    pub json: bool,
    pub base: u32,
    pub file: Option<&'a str>,
}

#[derive(Clone, Copy)]
pub struct NearestArgs<'a> {
    pub json: bool,
    pub base: u32,
    pub address: u32,
    pub file: Option<&'a str>,
}

#[derive(Drop)]
pub struct WhyArgs<'a> {
    pub json: bool,
    pub base: u32,
    pub branches: Option<&'a str>,
    /// `--line`.
    pub line: Option<u64>,
    /// FILE, as often as it is given.
    pub files: Vec<Source<'a>>,
}

#[derive(Clone, Copy)]
pub struct TidyArgs<'a> {
    pub file: Option<&'a str>,
}

#[derive(Clone, Copy)]
pub struct RunArgs<'a> {
    pub json: bool,
    /// `--a0` to `--a7`, each 0 if it is not given.
    pub a: [u32; 8],
    pub start: u32,
    pub limit: u64,
    /// `-w`.
    pub sweep: Option<Sweep>,
    pub file: Option<&'a str>,
}

#[derive(Drop)]
pub struct SheetArgs<'a> {
    pub json: bool,
    /// `-t`, as often as it is given.
    pub sheets: Vec<&'a str>,
    pub file: Option<&'a str>,
}

#[derive(Drop)]
pub struct ListArgs<'a> {
    pub base: u32,
    pub branches: Option<&'a str>,
    /// FILE, as often as it is given.
    pub files: Vec<Source<'a>>,
}

#[derive(Drop)]
pub struct CheckArgs<'a> {
    pub base: u32,
    pub branches: Option<&'a str>,
    /// FILE, as often as it is given.
    pub files: Vec<Source<'a>>,
}

/// A command with its arguments.
#[derive(Drop)]
pub enum Args<'a> {
    Assemble(AssembleArgs<'a>),
    Manual(ManualArgs<'a>),
    Move(MoveArgs<'a>),
    Symbols(SymbolsArgs<'a>),
    Nearest(NearestArgs<'a>),
    Why(WhyArgs<'a>),
    Tidy(TidyArgs<'a>),
    Run(RunArgs<'a>),
    Sheet(SheetArgs<'a>),
    List(ListArgs<'a>),
    Check(CheckArgs<'a>),
}

/// A call: a command, and the file that its output goes into, none for standard output.
#[derive(Drop)]
pub struct Call<'a> {
    pub args: Args<'a>,
    pub output: Option<&'a str>,
}

/// What the words ask for.
#[derive(Drop)]
pub enum Parsed<'a> {
    /// That a command does its work.
    Run(Call<'a>),
    /// That a text of help or the version is printed.
    Print(Vec<u8>),
    /// A usage error of this command, none if the first word names none, and what is wrong.
    Misuse(Option<Command>, Vec<u8>),
    /// The name of a file that would be opened or written, which is not UTF-8.
    Unnamed(What, &'a str),
}
