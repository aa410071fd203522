//! The words of a command as options and operands, one after another.
ghost use Rattle.std.specs.Prelude.{◌≡◌, ◌+◌, ◌≤◌, ◌∷◌, ◌++◌, [], None, Some, eqb, get_or, map, take, length, option_map, string_bytes};
ghost use Rattle.std.specs.List.{position_or_len, count_by};
ghost use Rattle.cli_args.specs.Table.{is_run, takes_address, is_move};
ghost use Rattle.cli_args.specs.Given.{attached, given_as, taken_as, found_in, is_long, is_dashed, char_bytes, named_option, is_operand, operand_count, number_count, goes, operand_step, setting_step, unknown_step, option_step, ready_step, step, end_of, given_in};
ghost use Rattle.cli_args.specs.Lexed.{found_of, given_of, givens_of, mode_of, IsStep, IsGiven};

use crate::table::SETTINGS;
use crate::{Command, Setting};
use std::alloc::Global;

/// An option with its values, or an operand.
#[derive(Clone, Copy)]
pub enum Given<'a> {
    /// An option without a value.
    Flag(Setting),
    /// An option with one.
    Value(Setting, &'a str),
    /// `-w`.
    Tries(&'a str, &'a str, &'a str),
    /// A number before FILE, or FILE.
    Operand(&'a str),
}

/// What the next word is.
#[derive(Clone, Copy)]
pub enum Mode<'a> {
    /// An option, `--` or an operand.
    Ready,
    /// An operand, after `--`.
    Plain,
    /// The value of an option.
    ValueOf(Setting),
    /// The first value of `-w`.
    First,
    Second(&'a str),
    Third(&'a str, &'a str),
}

/// What is wrong with the words of a command.
#[derive(Clone, Copy)]
pub enum Wrong<'a> {
    /// An option that the command does not take.
    NoOption(&'a [u8]),
    /// An operand after the last that the command takes.
    TooMany(&'a str),
    /// An option without its values, with a wrong one, or with one if it takes none.
    Takes(Setting),
    /// A word that is not the number that it has to be.
    NoNumber(&'a str),
    /// The numbers before FILE are not all there.
    Missing,
}

/// Where the reading of words ends.
#[derive(Clone, Copy)]
pub enum Stop<'a> {
    Help,
    Version,
    Wrong(Wrong<'a>),
    NoMemory,
}

// ---- A word that is an option.

// Whether an option has a name of several letters.
fn is_long(setting: Setting) -> bool
    ensures { result ≡ is_long setting }
{
    !matches!(setting, Setting::Output | Setting::Tries | Setting::Sheet)
}

// How many bytes a character has that begins so.
#[tactic(auto, unfolding(crate::specs::Given::char_bytes))]
fn char_bytes(b: u8) -> usize
    ensures value { result ≡ char_bytes b }
    ensures few { result ≤ 4 }
{
    if b < 128 {
        return 1;
    }
    if b < 224 {
        return 2;
    }
    if b < 240 { 3 } else { 4 }
}

// A dash, and more.
#[tactic(auto, unfolding(crate::specs::Given::is_dashed))]
fn is_dashed(word: &[u8]) -> bool
    ensures { result ≡ is_dashed word.now }
{
    if word.len() <= 1 {
        return false;
    }
    word[0] == b'-'
}

// The value that is attached to an option, by what follows its name.
fn attached(long: bool, rest: &str) -> Option<Option<&str>>
    ensures { option_map (option_map (λ s. s.now)) result ≡ attached long rest.now }
{
    if rest.is_empty() {
        return Some(None);
    }
    match rest.strip_prefix("=") {
        Some(value) => Some(Some(value)),
        None => { if long { None } else { Some(Some(rest)) } }
    }
}

// A word as an option, with the value that is attached to it.
#[tactic(auto, using(crate::proofs::After::stripped, crate::proofs::After::not_stripped))]
fn given_as(setting: Setting, word: &str) -> Option<Option<&str>>
    ensures { option_map (option_map (λ s. s.now)) result ≡ given_as setting word.now }
{
    match word.strip_prefix(setting.name()) {
        Some(rest) => attached(is_long(setting), rest),
        None => None,
    }
}

// The same, if the command takes the option.
fn taken_as(command: Command, setting: Setting, word: &str) -> Option<Option<&str>>
    ensures { option_map (option_map (λ s. s.now)) result ≡ taken_as command setting word.now }
{
    if !command.takes(setting) {
        return None;
    }
    given_as(setting, word)
}

// An option of the command, and the value that is attached to it.
#[derive(Clone, Copy)]
pub struct Found<'a> {
    of: Setting,
    with: Option<&'a str>,
}

// The option that a word is.
fn found_in(command: Command, word: &str) -> Option<Found<'_>>
    ensures { option_map found_of result ≡ found_in command word.now SETTINGS }
{
    for k in 0..SETTINGS.len() {
        let of = SETTINGS[k];
        match taken_as(command, of, word) {
            Some(with) => return Some(Found { of, with }),
            None => {}
        }
    }
    None
}

// The option that a word names.
#[tactic(auto, unfolding(crate::specs::Given::named_option))]
fn named_option(word: &str) -> &[u8]
    ensures { result.now ≡ named_option word.now }
{
    let bytes = word.as_bytes();
    if 1 < bytes.len() && bytes[1] == b'-' {
        return before_equals(word);
    }
    first_char(bytes)
}

// What stands in front of =.
fn before_equals(word: &str) -> &[u8]
    ensures { result.now ≡ take (position_or_len (λ b. eqb b 61) word.now) word.now }
{
    match word.split_once('=') {
        Some((name, _)) => name.as_bytes(),
        None => word.as_bytes(),
    }
}

// A dash and a character.
fn first_char(bytes: &[u8]) -> &[u8]
    ensures { result.now ≡ take (1 + char_bytes (get_or bytes.now 1 0)) bytes.now }
{
    if bytes.len() < 2 {
        return bytes;
    }
    let end = char_bytes(bytes[1]) + 1;
    &bytes[..end.min(bytes.len())]
}

// ---- A word.

// Whether it is an operand.
fn is_operand(given: &Given<'_>) -> bool
    ensures { result ≡ is_operand (given_of given.now) }
{
    match given {
        Given::Operand(_) => true,
        Given::Flag(_) | Given::Value(_, _) | Given::Tries(_, _, _) => false,
    }
}

// How many operands are given.
fn count_operands(givens: &[Given<'_>]) -> usize
    ensures { result ≡ count_by (λ g. is_operand (given_of g)) givens.now }
{
    givens.iter().filter(|given| is_operand(given)).count()
}

// The same of what they are.
#[tactic(auto, using(crate::proofs::Counting::count_of_map))]
fn operand_count(givens: &[Given<'_>]) -> usize
    ensures { result ≡ operand_count (givens_of givens.now) }
{
    count_operands(givens)
}

// How many numbers stand before FILE.
pub(crate) fn number_count(command: Command) -> usize
    ensures { result ≡ number_count command }
{
    if command.is_run() {
        return 2;
    }
    if command.takes_address() {
        return 1;
    }
    if command.is_move() { 1 } else { 0 }
}

// Adds what is given; the next word is what `mode` says.
fn give<'a>(
    givens: &mut Vec<Given<'a>>,
    given: Given<'a>,
    mode: Mode<'a>,
) -> Result<Mode<'a>, Stop<'a>>
    ensures { IsStep (goes (givens_of givens.old.items ++ given_of given.entry ∷ []) (mode_of mode.entry)) givens.new.items result }
{
    match givens.push(given) {
        Ok(()) => Ok(mode),
        Err(_) => Err(Stop::NoMemory),
    }
}

// An operand: a number, FILE, or one too many.
fn read_operand<'a>(
    command: Command,
    givens: &mut Vec<Given<'a>>,
    mode: Mode<'a>,
    word: &'a str,
) -> Result<Mode<'a>, Stop<'a>>
    ensures { IsStep (operand_step command (givens_of givens.old.items) (mode_of mode.entry) word.now) givens.new.items result }
{
    if command.takes_several() {
        return give(givens, Given::Operand(word), mode);
    }
    if number_count(command) < operand_count(givens) {
        return Err(Stop::Wrong(Wrong::TooMany(word)));
    }
    give(givens, Given::Operand(word), mode)
}

// An option of the command, without a value so far.
fn read_flag<'a>(givens: &mut Vec<Given<'a>>, setting: Setting) -> Result<Mode<'a>, Stop<'a>>
    ensures { IsStep (setting_step (givens_of givens.old.items) setting None) givens.new.items result }
{
    match setting {
        Setting::Help => Err(Stop::Help),
        Setting::Version => Err(Stop::Version),
        Setting::Json => give(givens, Given::Flag(Setting::Json), Mode::Ready),
        Setting::Tries => Ok(Mode::First),
        _ => Ok(Mode::ValueOf(setting)),
    }
}

// One with a value that is attached to it.
fn read_attached<'a>(
    givens: &mut Vec<Given<'a>>,
    setting: Setting,
    value: &'a str,
) -> Result<Mode<'a>, Stop<'a>>
    ensures { IsStep (setting_step (givens_of givens.old.items) setting (Some value.now)) givens.new.items result }
{
    match setting {
        Setting::Help | Setting::Version | Setting::Json | Setting::Tries => Err(Stop::Wrong(
            Wrong::Takes(setting),
        )),
        _ => give(givens, Given::Value(setting, value), Mode::Ready),
    }
}

// A word that is no option of the command: DISTANCE may begin with a dash.
fn read_unknown<'a>(
    command: Command,
    givens: &mut Vec<Given<'a>>,
    word: &'a str,
) -> Result<Mode<'a>, Stop<'a>>
    ensures { IsStep (unknown_step command (givens_of givens.old.items) word.now) givens.new.items result }
{
    if !command.is_move() {
        return Err(Stop::Wrong(Wrong::NoOption(named_option(word))));
    }
    if operand_count(givens) == 0 {
        return read_operand(command, givens, Mode::Ready, word);
    }
    Err(Stop::Wrong(Wrong::NoOption(named_option(word))))
}

// A word that begins with a dash, and is longer.
fn read_dashed<'a>(
    command: Command,
    givens: &mut Vec<Given<'a>>,
    word: &'a str,
) -> Result<Mode<'a>, Stop<'a>>
    ensures { IsStep (option_step command (givens_of givens.old.items) word.now (found_in command word.now SETTINGS)) givens.new.items result }
{
    match found_in(command, word) {
        Some(
            Found {
                of,
                with: Some(value),
            },
        ) => read_attached(givens, of, value),
        Some(Found { of, with: None }) => read_flag(givens, of),
        None => read_unknown(command, givens, word),
    }
}

// A word that may be an option, -- or an operand.
fn read_ready<'a>(
    command: Command,
    givens: &mut Vec<Given<'a>>,
    word: &'a str,
) -> Result<Mode<'a>, Stop<'a>>
    ensures { IsStep (ready_step command (givens_of givens.old.items) word.now) givens.new.items result }
{
    if word == "--" {
        return Ok(Mode::Plain);
    }
    if is_dashed(word.as_bytes()) {
        return read_dashed(command, givens, word);
    }
    read_operand(command, givens, Mode::Ready, word)
}

// The next word.
fn read_word<'a>(
    command: Command,
    givens: &mut Vec<Given<'a>>,
    mode: Mode<'a>,
    word: &'a str,
) -> Result<Mode<'a>, Stop<'a>>
    ensures { IsStep (step command (givens_of givens.old.items) (mode_of mode.entry) word.now) givens.new.items result }
{
    match mode {
        Mode::Ready => read_ready(command, givens, word),
        Mode::Plain => read_operand(command, givens, Mode::Plain, word),
        Mode::ValueOf(setting) => give(givens, Given::Value(setting, word), Mode::Ready),
        Mode::First => Ok(Mode::Second(word)),
        Mode::Second(address) => Ok(Mode::Third(address, word)),
        Mode::Third(address, from) => give(givens, Given::Tries(address, from, word), Mode::Ready),
    }
}

// ---- All words.

// An option whose values are not all there.
fn read_end<'a>(givens: Vec<Given<'a>>, mode: Mode<'a>) -> Result<Vec<Given<'a>>, Stop<'a>>
    ensures { IsGiven (end_of (givens_of givens.entry.items) (mode_of mode.entry)) result }
{
    match mode {
        Mode::Ready | Mode::Plain => Ok(givens),
        Mode::ValueOf(setting) => Err(Stop::Wrong(Wrong::Takes(setting))),
        Mode::First | Mode::Second(_) | Mode::Third(_, _) => Err(Stop::Wrong(Wrong::Takes(
            Setting::Tries,
        ))),
    }
}

/// The words of a command, those after its name; or the first of them that is wrong, or asks for help or the version.
pub fn read_words<'a>(
    alloc: Global,
    command: Command,
    words: &'a [String],
) -> Result<Vec<Given<'a>>, Stop<'a>>
    ensures { IsGiven (given_in command (map (λ w. string_bytes w) words.now)) result }
{
    let mut givens = Vec::new(alloc);
    let mut mode = Mode::Ready;
    for k in 0..words.len() {
        match read_word(command, &mut givens, mode, words[k].as_str()) {
            Ok(next) => mode = next,
            Err(stop) => return Err(stop),
        }
    }
    read_end(givens, mode)
}
