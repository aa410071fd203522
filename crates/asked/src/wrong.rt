//! What is said of wrong use.
ghost use Rattle.std.specs.Prelude.{◌≡◌, IfOk};
ghost use Rattle.commandline.specs.Message.{message_text};
ghost use Rattle.commandline.specs.Table.{command_name};
ghost use Rattle.diagnostic.specs.Said.{wrong_use_text};
ghost use Rattle.asked.specs.Names.{shown};
ghost use Rattle.asked.specs.Said.{wrong_text};

use crate::naming::shown;
use commandline::message::message;
use commandline::{Command, Wrong};
use diagnostic::said::{no_command, no_memory, not_a_command, wrong_use};
use std::alloc::{AllocError, Global};

/// What is wrong with the words, and where their right use is told.
pub fn wrong_text(alloc: Global, wrong: &Wrong) -> Result<Vec<u8>, AllocError>
    ensures { IfOk result (λ t. t.items ≡ wrong_text wrong.now) }
{
    match wrong {
        Wrong::NoCommand => no_command().to_vec(alloc),
        Wrong::UnknownCommand(word) => not_a_command(alloc, shown(word.as_str().as_bytes())),
        Wrong::UnknownOption(command, _)
        | Wrong::TooMany(command, _)
        | Wrong::Takes(command, _)
        | Wrong::NoNumber(command, _)
        | Wrong::Missing(command)
        | Wrong::Unclear(command) => of_command(alloc, *command, wrong),
        Wrong::OutOfMemory => no_memory().to_vec(alloc),
    }
}

// The same for the words of a command.
fn of_command(alloc: Global, command: Command, wrong: &Wrong) -> Result<Vec<u8>, AllocError>
    ensures { IfOk result (λ t. t.items ≡ wrong_use_text (command_name command) (shown (message_text wrong.now))) }
{
    let message = message(alloc, wrong)?;
    wrong_use(alloc, command.name().as_bytes(), shown(message.as_bytes()))
}
