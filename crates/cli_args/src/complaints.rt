//! What is wrong with the words, in words.
ghost use Rattle.std.specs.Prelude.{◌≡◌, ◌++◌, IfOk};
ghost use Rattle.cli_args.specs.Asked.{complaint_text, shown};
ghost use Rattle.cli_args.specs.Lexed.{complaint_of};

use crate::Command;
use crate::lexing::Wrong;
use crate::naming::shown;
use std::alloc::{AllocError, Global};

// Three texts, one after the other.
pub(crate) fn joined(
    alloc: Global,
    first: &[u8],
    second: &[u8],
    third: &[u8],
) -> Result<Vec<u8>, AllocError>
    ensures { IfOk result (λ t. t.items ≡ first.now ++ second.now ++ third.now) }
{
    let mut text = first.to_vec(alloc)?;
    text.extend_from_slice(second)?;
    text.extend_from_slice(third)?;
    Ok(text)
}

// What is wrong, with the byte 0 of a word that was not UTF-8.
fn whole_complaint(alloc: Global, command: Command, wrong: Wrong<'_>) -> Result<Vec<u8>, AllocError>
    ensures { IfOk result (λ t. t.items ≡ complaint_text command (complaint_of wrong.entry)) }
{
    match wrong {
        Wrong::NoOption(word) => joined(alloc, "no option ".as_bytes(), word, &[]),
        Wrong::TooMany(word) => joined(
            alloc,
            "one FILE too many: ".as_bytes(),
            word.as_bytes(),
            &[],
        ),
        Wrong::Takes(setting) => joined(
            alloc,
            setting.name().as_bytes(),
            " takes ".as_bytes(),
            setting.taken().as_bytes(),
        ),
        Wrong::NoNumber(word) => joined(alloc, "no such number: ".as_bytes(), word.as_bytes(), &[]),
        Wrong::Missing => joined(
            alloc,
            command.values().as_bytes(),
            " is missing".as_bytes(),
            &[],
        ),
    }
}

/// What is wrong with the words of a command.
pub(crate) fn complaint_text(
    alloc: Global,
    command: Command,
    wrong: Wrong<'_>,
) -> Result<Vec<u8>, AllocError>
    ensures { IfOk result (λ t. t.items ≡ shown (complaint_text command (complaint_of wrong.entry))) }
{
    let text = whole_complaint(alloc, command, wrong)?;
    shown(text.as_slice()).to_vec(alloc)
}
