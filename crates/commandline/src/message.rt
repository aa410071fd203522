//! What is wrong with the words, in words.
ghost use Rattle.std.specs.Prelude.{◌≡◌, ◌++◌, IfOk, string_bytes};
ghost use Rattle.commandline.specs.Message.{message_text, command_of};

use crate::{Command, Wrong};
use std::alloc::{AllocError, Global};

/// What is wrong, without the command's name.
pub fn message(alloc: Global, wrong: &Wrong) -> Result<String, AllocError>
    ensures { IfOk result (λ t. string_bytes t ≡ message_text wrong.now) }
{
    match wrong {
        Wrong::NoCommand => String::from_str(alloc, "no command"),
        Wrong::UnknownCommand(word) => joined(alloc, "no command ", word.as_str(), ""),
        Wrong::UnknownOption(_, word) => joined(alloc, "no option ", word.as_str(), ""),
        Wrong::TooMany(_, word) => joined(alloc, "one FILE too many: ", word.as_str(), ""),
        Wrong::Takes(_, setting) => joined(alloc, setting.name(), " takes ", setting.taken()),
        Wrong::NoNumber(_, word) => joined(alloc, "no such number: ", word.as_str(), ""),
        Wrong::Missing(command) => joined(alloc, command.values(), " is missing", ""),
        Wrong::Unclear(_) => String::from_str(alloc, "the words are not understood"),
        Wrong::OutOfMemory => String::from_str(alloc, "out of memory"),
    }
}

// Three texts, one after the other.
pub(crate) fn joined(
    alloc: Global,
    first: &str,
    second: &str,
    third: &str,
) -> Result<String, AllocError>
    ensures { IfOk result (λ t. string_bytes t ≡ first.now ++ second.now ++ third.now) }
{
    let mut text = String::from_str(alloc, first)?;
    text.push_str(second)?;
    text.push_str(third)?;
    Ok(text)
}

/// The command whose words are wrong: none where the first word is no command, or there was no memory.
pub fn command_of(wrong: &Wrong) -> Option<Command>
    ensures { result ≡ command_of wrong.now }
{
    match wrong {
        Wrong::UnknownOption(command, _)
        | Wrong::TooMany(command, _)
        | Wrong::NoNumber(command, _)
        | Wrong::Takes(command, _)
        | Wrong::Missing(command)
        | Wrong::Unclear(command) => Some(*command),
        _ => None,
    }
}
