//! The commands and the options: what each is called, what it takes, and what is said of it.
ghost use Rattle.std.specs.Prelude.{◌≡◌};
ghost use Rattle.cli_args.specs.Table.{command_name, command_values, takes_several, takes_address, takes_option, takes_base, takes_json, is_run, is_move, option_name, option_taken, option_values, command_input, command_summary, values_in_usage, files_in_usage, several_text, option_help, is_later_register, is_in_usage, has_values};
ghost use Rattle.cli_args.specs.Table.{named_command};

use crate::{Command, Setting};

/// The commands, in the order of the help.
pub static COMMANDS: [Command; 11] = [
    Command::Assemble,
    Command::Manual,
    Command::Move,
    Command::Symbols,
    Command::Nearest,
    Command::Why,
    Command::Tidy,
    Command::Run,
    Command::Sheet,
    Command::List,
    Command::Check,
];

/// The options, in the order of the help.
pub static SETTINGS: [Setting; 17] = [
    Setting::Output,
    Setting::Base,
    Setting::Branches,
    Setting::Line,
    Setting::A0,
    Setting::A1,
    Setting::A2,
    Setting::A3,
    Setting::A4,
    Setting::A5,
    Setting::A6,
    Setting::A7,
    Setting::Tries,
    Setting::Sheet,
    Setting::Json,
    Setting::Help,
    Setting::Version,
];

const SCRIPT: &str = "a script";

const LIST: &str = "a list, of assemble or manual";

const NAMES: &str = "the names of scripts, one a line";

impl Command {
    /// Its name.
    pub fn name<'a>(self) -> &'a str
        ensures { result.now ≡ command_name self }
    {
        match self {
            Command::Assemble => "assemble",
            Command::Manual => "manual",
            Command::Move => "move",
            Command::Symbols => "symbols",
            Command::Nearest => "nearest",
            Command::Why => "why",
            Command::Tidy => "tidy",
            Command::Run => "run",
            Command::Sheet => "sheet",
            Command::List => "list",
            Command::Check => "check",
        }
    }

    /// The numbers before FILE.
    pub fn values(self) -> &'static str
        ensures { result.now ≡ command_values self }
    {
        match self {
            Command::Move => "DISTANCE",
            Command::Nearest => "ADDRESS",
            Command::Run => "START LIMIT",
            _ => "",
        }
    }

    // What FILE has.
    pub(crate) fn input(self) -> &'static str
        ensures { result.now ≡ command_input self }
    {
        match self {
            Command::Move | Command::Run => LIST,
            Command::Sheet => NAMES,
            _ => SCRIPT,
        }
    }

    // What is printed.
    pub(crate) fn summary(self) -> &'static str
        ensures { result.now ≡ command_summary self }
    {
        match self {
            Command::Assemble => "the list of a script, a line for each word: address, word, mark",
            Command::Manual => "the same list by the manual's own words, for a real 68000",
            Command::Move => "a list, moved by DISTANCE bytes",
            Command::Symbols => "the labels of a script, a line for each: name, address, line",
            Command::Nearest => {
                "the nearest label at or below ADDRESS, and how far past it that is"
            }
            Command::Why => "of each line of a script, whether it has a word, and if not why",
            Command::Tidy => {
                "the tidy copy of a script: the lines that are read, without needless blanks"
            }
            Command::Run => {
                "how a run of at most LIMIT steps ends: why, steps, PC, D0 to D7, flags"
            }
            Command::Sheet => "the totals of scripts: lines by class, words, labels, scripts",
            Command::List => {
                "a script for people: each line with its address and words, then the labels"
            }
            Command::Check => "of each script whether it is accepted, and if not why",
        }
    }

    // The numbers before FILE in the usage, after a space.
    pub(crate) fn values_in_usage(self) -> &'static str
        ensures { result.now ≡ values_in_usage self }
    {
        match self {
            Command::Move => " DISTANCE",
            Command::Nearest => " ADDRESS",
            Command::Run => " START LIMIT",
            _ => "",
        }
    }

    // FILE in the usage.
    pub(crate) fn files_in_usage(self) -> &'static str
        ensures { result.now ≡ files_in_usage self }
    {
        if self.takes_several() {
            " [FILE ..]"
        } else {
            " [FILE]"
        }
    }

    // What is said of several files, after what FILE has.
    pub(crate) fn several(self) -> &'static str
        ensures { result.now ≡ several_text self }
    {
        match self {
            Command::Check => "; of several each has a line.\n\n",
            Command::Why | Command::List =>
                "; of several each is printed behind a line with its name.\n\n",
            _ => ".\n\n",
        }
    }

    /// Whether it takes several files.
    pub fn takes_several(self) -> bool
        ensures { result ≡ takes_several self }
    {
        matches!(self, Command::Why | Command::List | Command::Check)
    }

    // Whether ADDRESS or START stands before FILE.
    pub(crate) fn takes_address(self) -> bool
        ensures { result ≡ takes_address self }
    {
        matches!(self, Command::Nearest | Command::Run)
    }

    pub(crate) fn is_run(self) -> bool
        ensures { result ≡ is_run self }
    {
        matches!(self, Command::Run)
    }

    pub(crate) fn is_move(self) -> bool
        ensures { result ≡ is_move self }
    {
        matches!(self, Command::Move)
    }

    /// Whether it takes an option.
    pub fn takes(self, setting: Setting) -> bool
        ensures { result ≡ takes_option self setting }
    {
        match setting {
            Setting::Output | Setting::Help | Setting::Version => true,
            Setting::Base => self.takes_base(),
            Setting::Branches => matches!(
                self,
                Command::Assemble | Command::Why | Command::List | Command::Check
            ),
            Setting::Line => matches!(self, Command::Why),
            Setting::Sheet => matches!(self, Command::Sheet),
            Setting::Json => self.has_json(),
            _ => matches!(self, Command::Run),
        }
    }

    fn takes_base(self) -> bool
        ensures { result ≡ takes_base self }
    {
        matches!(
            self,
            Command::Assemble
                | Command::Manual
                | Command::Symbols
                | Command::Nearest
                | Command::Why
                | Command::List
                | Command::Check
        )
    }

    fn has_json(self) -> bool
        ensures { result ≡ takes_json self }
    {
        matches!(
            self,
            Command::Assemble
                | Command::Symbols
                | Command::Nearest
                | Command::Why
                | Command::Run
                | Command::Sheet
        )
    }
}

impl Setting {
    /// Its name among the words.
    pub fn name(self) -> &'static str
        ensures { result.now ≡ option_name self }
    {
        match self {
            Setting::Output => "-o",
            Setting::Base => "--base",
            Setting::Branches => "--branches",
            Setting::Line => "--line",
            Setting::A0 => "--a0",
            Setting::A1 => "--a1",
            Setting::A2 => "--a2",
            Setting::A3 => "--a3",
            Setting::A4 => "--a4",
            Setting::A5 => "--a5",
            Setting::A6 => "--a6",
            Setting::A7 => "--a7",
            Setting::Tries => "-w",
            Setting::Sheet => "-t",
            Setting::Json => "--json",
            Setting::Help => "--help",
            Setting::Version => "--version",
        }
    }

    // Whether it is --a1 to --a7.
    pub(crate) fn is_later_register(self) -> bool
        ensures { result ≡ is_later_register self }
    {
        matches!(
            self,
            Setting::A1
                | Setting::A2
                | Setting::A3
                | Setting::A4
                | Setting::A5
                | Setting::A6
                | Setting::A7
        )
    }

    // Whether it has values.
    pub(crate) fn has_values(self) -> bool
        ensures { result ≡ has_values self }
    {
        !matches!(self, Setting::Json | Setting::Help | Setting::Version)
    }

    // Whether the usage of a command tells it.
    pub(crate) fn is_in_usage(self) -> bool
        ensures { result ≡ is_in_usage self }
    {
        !matches!(self, Setting::Help | Setting::Version)
    }

    /// Its values, empty where it takes none.
    pub fn values(self) -> &'static str
        ensures { result.now ≡ option_values self }
    {
        match self {
            Setting::Output | Setting::Branches => "FILE",
            Setting::Tries => "ADDRESS FROM TO",
            Setting::Sheet => "SHEET",
            Setting::Json | Setting::Help | Setting::Version => "",
            _ => "N",
        }
    }

    // What it is said to take.
    pub(crate) fn taken(self) -> &'static str
        ensures { result.now ≡ option_taken self }
    {
        match self {
            Setting::Json | Setting::Help | Setting::Version => "nothing",
            _ => self.values(),
        }
    }

    // What is said of it: nothing of --a1 to --a7, which stand with --a0.
    pub(crate) fn help(self) -> &'static str
        ensures { result.now ≡ option_help self }
    {
        match self {
            Setting::Output => "write FILE, whole or not at all, in place of standard output",
            Setting::Base => "assemble at this base, hexadecimal, in place of 0",
            Setting::Branches => {
                "take the branches' names from this table, in place of the built-in eleven"
            }
            Setting::Line => "say it of line N alone",
            Setting::A0 => { "start with this in A0, hexadecimal, in place of 0; so --a1 to --a7" }
            Setting::Tries => {
                "run with each value from FROM to TO as the words at ADDRESS, a row each"
            }
            Setting::Sheet => "add a sheet, as sheet prints it; any number of times",
            Setting::Json => "print one line of JSON in place of the text",
            Setting::Help => "print this",
            Setting::Version => "print the version",
            _ => "",
        }
    }
}

// The command of this name.
pub(crate) fn command_named(name: &str) -> Option<Command>
    ensures { result ≡ named_command name.now }
{
    COMMANDS
        .iter()
        .copied()
        .find(|command| command.name() == name)
}
