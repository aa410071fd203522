//! The texts of `--help` and `--version`.
ghost use Rattle.std.specs.Prelude.{◌≡◌, ◌++◌, ◌-◌, length, IfOk, string_bytes};
ghost use Rattle.cli_args.specs.Help.{spaces, lines_of, is_told, setting_line, option_text, command_line, usage_text, help_text, command_help_text};

use crate::table::{COMMANDS, SETTINGS};
use crate::{Command, Setting};
use std::alloc::{AllocError, Global};

/// What `--version` prints.
pub const VERSION: &str = "lagvettu 1.0\n";

// In front of the commands.
const FRONT: &str =
    "usage: lagvettu COMMAND [options] [FILE]\n\nCommands, each with what it prints:\n";

// After the commands, before the refusals.
const BEHIND: &str = "
lagvettu COMMAND --help says which options it takes; they stand before or behind FILE, and -- ends them.
FILE is standard input where it is not named or is -. Addresses, bases and registers are hexadecimal, with or
without $ or 0x; other numbers are decimal, or hexadecimal behind $ or 0x.

Exit status: 0 accepted, 1 refused, 2 wrong use, 3 input or output failed.

Refusals; they are said on standard error. Lines count from 1, offsets and indexes from 0:
";

// After the options of a command.
const END: &str =
    "\nlagvettu --help says how numbers are written, the exit status and the refusals.\n";

// Three texts, one after the other.
fn joined(alloc: Global, first: &str, second: &str, third: &str) -> Result<String, AllocError>
    ensures { IfOk result (λ t. string_bytes t ≡ first.now ++ second.now ++ third.now) }
{
    let mut text = String::from_str(alloc, first)?;
    text.push_str(second)?;
    text.push_str(third)?;
    Ok(text)
}

// So many spaces.
#[tactic(auto, using(crate::proofs::Lines::one_space_more))]
fn spaces(alloc: Global, count: usize) -> Result<String, AllocError>
    ensures { IfOk result (λ t. string_bytes t ≡ spaces count) }
{
    let mut text = String::new(alloc);
    for k in 0..count {
        text.push_str(" ")?;
    }
    Ok(text)
}

// The text, and spaces up to a width.
fn padded(alloc: Global, text: &str, width: usize) -> Result<String, AllocError>
    ensures { IfOk result (λ t. string_bytes t ≡ text.now ++ spaces (width - length text.now)) }
{
    let more = spaces(alloc, width.saturating_sub(text.len()))?;
    joined(alloc, text, more.as_str(), "")
}

// A command and what it prints.
fn command_line(alloc: Global, command: Command) -> Result<String, AllocError>
    ensures { IfOk result (λ t. string_bytes t ≡ command_line command) }
{
    let name = padded(alloc, command.name(), 8)?;
    let front = joined(alloc, "  ", name.as_str(), "  ")?;
    joined(alloc, front.as_str(), command.summary(), "\n")
}

// The lines of the commands.
#[tactic(auto, using(crate::proofs::Lines::first, crate::proofs::Lines::next, crate::proofs::Lines::last))]
fn command_lines(alloc: Global) -> Result<String, AllocError>
    ensures { IfOk result (λ t. string_bytes t ≡ lines_of command_line COMMANDS) }
{
    let mut text = String::new(alloc);
    for k in 0..COMMANDS.len() {
        let line = command_line(alloc, COMMANDS[k])?;
        text.push_str(line.as_str())?;
    }
    Ok(text)
}

/// The help of all commands, with the list of the refusals at its end.
pub fn help(alloc: Global, refusals: &str) -> Result<String, AllocError>
    ensures { IfOk result (λ t. string_bytes t ≡ help_text refusals.now) }
{
    let lines = command_lines(alloc)?;
    let front = joined(alloc, FRONT, lines.as_str(), BEHIND)?;
    joined(alloc, front.as_str(), refusals, "")
}

// Whether the help of a command has a line of an option: --a1 to --a7 stand with --a0.
fn is_told(command: Command, setting: Setting) -> bool
    ensures { result ≡ is_told command setting }
{
    command.takes(setting) && !setting.is_later_register()
}

// An option with what is said of it, where it is told.
fn setting_line(alloc: Global, command: Command, setting: Setting) -> Result<String, AllocError>
    ensures { IfOk result (λ t. string_bytes t ≡ setting_line command setting) }
{
    if !is_told(command, setting) {
        return Ok(String::new(alloc));
    }
    let name = joined(alloc, "  ", setting.name(), " ")?;
    let left = joined(alloc, name.as_str(), setting.values(), "")?;
    let column = padded(alloc, left.as_str(), 22)?;
    joined(alloc, column.as_str(), setting.help(), "\n")
}

// The lines of the options.
#[tactic(auto, using(crate::proofs::Lines::first, crate::proofs::Lines::next, crate::proofs::Lines::last))]
fn setting_lines(alloc: Global, command: Command) -> Result<String, AllocError>
    ensures { IfOk result (λ t. string_bytes t ≡ lines_of (setting_line command) SETTINGS) }
{
    let mut text = String::new(alloc);
    for k in 0..SETTINGS.len() {
        let line = setting_line(alloc, command, SETTINGS[k])?;
        text.push_str(line.as_str())?;
    }
    Ok(text)
}

// An option in the usage: --help and --version are not told there.
fn option_text(alloc: Global, command: Command, setting: Setting) -> Result<String, AllocError>
    ensures { IfOk result (λ t. string_bytes t ≡ option_text command setting) }
{
    if !(is_told(command, setting) && setting.is_in_usage()) {
        return Ok(String::new(alloc));
    }
    if !setting.has_values() {
        return joined(alloc, " [", setting.name(), "]");
    }
    let front = joined(alloc, " [", setting.name(), " ")?;
    joined(alloc, front.as_str(), setting.values(), "]")
}

// The options in the usage.
#[tactic(auto, using(crate::proofs::Lines::first, crate::proofs::Lines::next, crate::proofs::Lines::last))]
fn options_text(alloc: Global, command: Command) -> Result<String, AllocError>
    ensures { IfOk result (λ t. string_bytes t ≡ lines_of (option_text command) SETTINGS) }
{
    let mut text = String::new(alloc);
    for k in 0..SETTINGS.len() {
        let option = option_text(alloc, command, SETTINGS[k])?;
        text.push_str(option.as_str())?;
    }
    Ok(text)
}

// The usage of a command.
fn usage(alloc: Global, command: Command) -> Result<String, AllocError>
    ensures { IfOk result (λ t. string_bytes t ≡ usage_text command) }
{
    let options = options_text(alloc, command)?;
    let name = joined(
        alloc,
        "usage: lagvettu ",
        command.name(),
        command.values_in_usage(),
    )?;
    joined(
        alloc,
        name.as_str(),
        options.as_str(),
        command.files_in_usage(),
    )
}

/// The help of one command.
pub fn command_help(alloc: Global, command: Command) -> Result<String, AllocError>
    ensures { IfOk result (λ t. string_bytes t ≡ command_help_text command) }
{
    let usage = usage(alloc, command)?;
    let prints = joined(alloc, usage.as_str(), "\n\nPrints ", command.summary())?;
    let has = joined(alloc, prints.as_str(), ".\nFILE has ", command.input())?;
    let lines = setting_lines(alloc, command)?;
    let body = joined(alloc, has.as_str(), command.several(), lines.as_str())?;
    joined(alloc, body.as_str(), END, "")
}
