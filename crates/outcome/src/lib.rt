#![tactic(auto)]

//! What a call of the command comes to: its whole text is written, or nothing is; and the exit status.
pub mod reading; // reading.rt: an input to its end
pub mod making; // making.rt: a text out of what was read
pub mod opening; // opening.rt: where inputs come from
pub mod output; // output.rt: where a text goes
pub mod writing; // writing.rt: a text whole, or nothing

ghost use Rattle.std.specs.Prelude.{◌≡◌};
ghost use Rattle.outcome.specs.Outcome.{status};
ghost use Rattle.outcome.specs.Made.{of_which};
ghost use Rattle.outcome.specs.declared.Unmade.TheVariants.{Stopped};
ghost use Rattle.answer.specs.Refusal.{number_of};

use answer::Refusal;
use std::io::Error;

/// A file that a call reads.
#[derive(Clone, Copy, Debug, PartialEq, Eq, Hash)]
pub enum Which {
    /// The file that it is given last, or standard input.
    Input,
    /// The branch table.
    Table,
    /// A sheet that is named as an option: which of them, from 0.
    Sheet(usize),
    /// A script that the input names.
    Script,
}

/// Why a call that read all there is prints nothing.
#[derive(Clone, Copy, Debug, PartialEq, Eq, Hash)]
pub enum Stop {
    /// A refusal, and the file that it speaks of.
    Refused(Which, Refusal),
    /// The input is no list's text: its first wrong line, from 1.
    NotAList(usize),
    /// A sheet is no sheet's text: its first wrong line, from 1.
    NotASheet(usize),
}

/// Why there is no text.
#[derive(Clone, Copy, Debug, PartialEq, Eq, Hash)]
pub enum Unmade {
    /// The call prints nothing.
    Stopped(Stop),
    /// There is no memory to make it in.
    NoMemory,
}

impl From<Stop> for Unmade {
    ghost from_gives = { λ stop unmade. unmade ≡ Stopped stop };

    fn from(stop: Stop) -> Unmade {
        Unmade::Stopped(stop)
    }
}

/// What failed of input or output.
#[derive(Clone, Copy, Debug, PartialEq, Eq, Hash)]
pub enum What {
    /// A file was not opened.
    Open,
    /// A file that was opened was not read to its end.
    Read,
    /// The output was not written whole.
    Write,
}

/// What a call of the command comes to.
#[derive(Clone, Copy, Drop)]
pub enum Outcome {
    /// The text was written whole.
    Accepted,
    /// The text was written whole, and not all inputs are accepted.
    NotAll,
    /// Nothing was written, and this is why.
    Stopped(Stop),
    /// Nothing was written: there was no memory to make the text in.
    NoMemory,
    /// The words of the call ask for nothing that there is.
    WrongUse,
    /// What failed, of which file, none where it is the output, and the system's reason.
    Failed(What, Option<Which>, Error),
}

/// The exit status: 0 accepted, 1 refused, or no list or no sheet, 2 wrong use, 3 input or output failed, or no memory.
#[tactic(auto, unfolding(crate::specs::Outcome::status))]
pub fn status(outcome: &Outcome) -> u8
    ensures { result ≡ status outcome.now }
{
    match outcome {
        Outcome::Accepted => 0,
        Outcome::NotAll | Outcome::Stopped(_) => 1,
        Outcome::WrongUse => 2,
        Outcome::NoMemory | Outcome::Failed(_, _, _) => 3,
    }
}

/// Of which file a refusal speaks in a call that reads an input, and a branch table if one is lent.
#[tactic(auto, unfolding(crate::specs::Made::of_which))]
pub fn of_which(refusal: Refusal) -> Which
    ensures { result ≡ of_which (number_of refusal) }
{
    match refusal {
        Refusal::BadCommand(_) | Refusal::BadBranchName(_) => Which::Table,
        _ => Which::Input,
    }
}
