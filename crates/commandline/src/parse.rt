//! The words by clap: which command, and what it is asked.
ghost use Rattle.std.specs.Prelude.{◌≡◌, map, IfOk, string_bytes};
ghost use Rattle.commandline.specs.Start.{StartAnswer, WordAnswer, IsUnknown, IsRequest};

use crate::asking::{ADDRESS, DISTANCE, FILE, LIMIT, asked_from};
use crate::table::{SETTINGS, command_named, setting_named};
use crate::{Asked, Command, Setting, Wrong};
use clap::error::ErrorKind;
use clap::{Arg, ArgAction, Error};
use std::alloc::{AllocError, Global};

/// What the first word asks for.
#[derive(Clone, Copy, Debug, PartialEq, Eq)]
pub enum Start {
    /// `--help`.
    Help,
    /// `--version`.
    Version,
    /// A command.
    Of(Command),
}

/// What the words of a command ask for.
#[derive(Debug, Drop)]
pub enum Request<'a> {
    /// `--help`.
    Help,
    /// `--version`.
    Version,
    /// That the command does its work.
    Work(Asked<'a>),
}

/// What the first word asks for.
pub fn start_of(alloc: Global, words: &[String]) -> Result<Start, Wrong>
    ensures { StartAnswer (map (λ w. string_bytes w) words.now) result }
{
    match words.first() {
        None => Err(Wrong::NoCommand),
        Some(word) => start_by(alloc, word.as_str()),
    }
}

fn start_by(alloc: Global, word: &str) -> Result<Start, Wrong>
    ensures { WordAnswer word.now result }
{
    if word == "--help" {
        return Ok(Start::Help);
    }
    if word == "--version" {
        return Ok(Start::Version);
    }
    match command_named(word) {
        Some(command) => Ok(Start::Of(command)),
        None => Err(no_command(alloc, word)),
    }
}

fn no_command(alloc: Global, word: &str) -> Wrong
    ensures { IsUnknown word.now result }
{
    match String::from_str(alloc, word) {
        Ok(word) => Wrong::UnknownCommand(word),
        Err(_) => Wrong::OutOfMemory,
    }
}

// An option, as clap takes it.
fn option<'a>(alloc: Global, setting: Setting, id: &'a str) -> Arg<'a> {
    let arg = named(alloc, setting.letter(), id);
    match setting {
        Setting::Help => arg.action(ArgAction::Help),
        Setting::Version => arg.action(ArgAction::Version),
        Setting::Json => arg.action(ArgAction::SetTrue),
        Setting::Sheet => arg.action(ArgAction::Append).allow_hyphen_values(true),
        Setting::Tries => arg
            .num_args(3)
            .action(ArgAction::Set)
            .allow_hyphen_values(true),
        _ => arg.action(ArgAction::Set).allow_hyphen_values(true),
    }
}

// An option by its letter, or else by its name.
fn named<'a>(alloc: Global, letter: Option<char>, id: &'a str) -> Arg<'a> {
    let arg = Arg::new(alloc, id);
    match letter {
        Some(letter) => arg.short(letter),
        None => arg.long(id),
    }
}

// A number before FILE, or FILE itself.
fn place<'a>(alloc: Global, id: &'a str) -> Arg<'a> {
    Arg::new(alloc, id).action(ArgAction::Set)
}

// FILE, which some commands take several times.
fn file<'a>(alloc: Global, several: bool, id: &'a str) -> Arg<'a> {
    if several {
        Arg::new(alloc, id).num_args(1..).action(ArgAction::Append)
    } else {
        place(alloc, id)
    }
}

// A command before its options and places are told.
fn bare<'a>(alloc: Global, name: &'a str, nothing: &'a str) -> clap::Command<'a> {
    clap::Command::new(alloc, name)
        .no_binary_name(true)
        .disable_help_flag(true)
        .disable_version_flag(true)
        .args_override_self(true)
        .version(nothing)
        .override_help(nothing)
}

// With the options that the command takes.
fn with_options<'a>(alloc: Global, command: Command) -> Result<clap::Command<'a>, AllocError> {
    let mut built = bare(alloc, command.name(), "");
    for setting in SETTINGS {
        if command.takes(setting) {
            built = built.arg(option(alloc, setting, setting.id()))?;
        }
    }
    Ok(built)
}

// With the numbers before FILE.
fn with_numbers<'a>(
    alloc: Global,
    command: Command,
    built: clap::Command<'a>,
) -> Result<clap::Command<'a>, AllocError> {
    match command {
        Command::Move => built.arg(place(alloc, DISTANCE).allow_hyphen_values(true)),
        Command::Nearest => built.arg(place(alloc, ADDRESS)),
        Command::Run => built.arg(place(alloc, ADDRESS))?.arg(place(alloc, LIMIT)),
        _ => Ok(built),
    }
}

// With FILE.
fn whole<'a>(alloc: Global, command: Command) -> Result<clap::Command<'a>, AllocError> {
    let built = with_options(alloc, command)?;
    let numbered = with_numbers(alloc, command, built)?;
    numbered.arg(file(alloc, command.takes_several(), FILE))
}

// The word that clap does not know.
fn unknown_word(text: &str) -> Option<&str> {
    let (_, rest) = text.split_once('\'')?;
    let (word, _) = rest.split_once("' found\n")?;
    Some(word)
}

// The option of which clap speaks: after `front`, up to a space or a quote.
fn option_in(text: &str, front: &str) -> Option<Setting> {
    let (_, rest) = text.rsplit_once(front)?;
    let (quoted, _) = rest.split_once('\'')?;
    let name = match quoted.split_once(' ') {
        Some((name, _)) => name,
        None => quoted,
    };
    setting_named(name)
}

// Whether a word stands after `--`, where no option does.
fn stands_behind(words: &[String], word: &str) -> bool {
    let mut behind = false;
    for each in words {
        if behind && each.as_str() == word {
            return true;
        }
        behind = behind || each.as_str() == "--";
    }
    false
}

// A word that is not taken: an option, or one FILE too many.
fn not_taken(alloc: Global, command: Command, words: &[String], word: &str) -> Wrong {
    match String::from_str(alloc, word) {
        Err(_) => Wrong::OutOfMemory,
        Ok(owned) => {
            if word.len() > 1 && word.starts_with('-') && !stands_behind(words, word) {
                Wrong::UnknownOption(command, owned)
            } else {
                Wrong::TooMany(command, owned)
            }
        }
    }
}

// The option whose values are wrong.
fn wrong_option(kind: ErrorKind, text: &str) -> Option<Setting> {
    match kind {
        ErrorKind::InvalidValue => option_in(text, "required for '"),
        ErrorKind::TooFewValues => option_in(text, "required by '"),
        ErrorKind::WrongNumberOfValues => option_in(text, "required for '"),
        ErrorKind::TooManyValues => option_in(text, "' for '"),
        _ => None,
    }
}

// What clap says is wrong, with its words.
fn wrong_of(alloc: Global, command: Command, words: &[String], error: &Error) -> Wrong {
    let Ok(text) = format!(in alloc; "{error}") else {
        return Wrong::OutOfMemory;
    };
    if let Some(setting) = wrong_option(error.kind(), text.as_str()) {
        return Wrong::Takes(command, setting);
    }
    match unknown_word(text.as_str()) {
        Some(word) => not_taken(alloc, command, words, word),
        None => Wrong::Unclear(command),
    }
}

// The same, or that help or the version is asked for.
fn ended<'a>(
    alloc: Global,
    command: Command,
    words: &[String],
    error: &Error,
) -> Result<Request<'a>, Wrong>
    ensures { IfOk result (λ r. IsRequest command r) }
{
    match error.kind() {
        ErrorKind::DisplayHelp => Ok(Request::Help),
        ErrorKind::DisplayVersion => Ok(Request::Version),
        ErrorKind::OutOfMemory => Err(Wrong::OutOfMemory),
        _ => Err(wrong_of(alloc, command, words, error)),
    }
}

/// What the words of a command ask for: those after its name.
pub fn request_of<'a>(
    alloc: Global,
    command: Command,
    words: &'a [String],
) -> Result<Request<'a>, Wrong>
    ensures { IfOk result (λ r. IsRequest command r) }
{
    let Ok(built) = whole(alloc, command) else {
        return Err(Wrong::OutOfMemory);
    };
    match built.try_get_matches_from(words) {
        Err(error) => ended(alloc, command, words, &error),
        Ok(matches) => match asked_from(alloc, command, &matches) {
            Ok(asked) => Ok(Request::Work(asked)),
            Err(wrong) => Err(wrong),
        },
    }
}
