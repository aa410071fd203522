#![tactic(auto)]

//! What a call answers: its whole output, or an error message and no output; and why a call fails, which decides the message and the exit
//! status. A text is made whole before it is written, so that it is one write; if memory runs out there is none.
pub mod words; // words.rt: each refusal in words, and what its place counts
pub mod shown; // shown.rt: the line that a refusal speaks of
pub mod reason; // reason.rt: why the system failed, in its own words
pub mod message; // message.rt: the messages of refusals, failures and usage errors
mod bytes; // bytes.rt: texts appended to a text

ghost use Rattle.std.specs.Prelude.{◌≡◌, IfOk, OnOk};
ghost use Rattle.cli_error.specs.declared.Failure.TheVariants.{NoMemory};
ghost use Rattle.cli_error.specs.Answered.{Made, answer_of, fails};
ghost use Rattle.cli_error.specs.Gives.{code, Fails, Makes, Gives};
ghost use Rattle.cli_error.specs.Fault.{Fault, message, status};

use answer::Refusal;
use message::{
    failure_message, misuse_message, no_list_message, no_sheet_message, refusal_message,
};
use std::alloc::{AllocError, Global};

/// What failed of input or output.
#[derive(Clone, Copy, Debug, PartialEq, Eq, Hash)]
pub enum What {
    /// A file was not opened.
    Open,
    /// A file that was opened was not read to its end.
    Read,
    /// The output was not written whole.
    Write,
}

/// How a process ends.
#[derive(Clone, Copy, Debug, PartialEq, Eq)]
pub enum Status {
    /// All is accepted.
    Accepted,
    /// An input is refused, or is not what it should be.
    Refused,
    /// A usage error.
    Misused,
    /// Input or output failed, or there was no memory.
    Failed,
}

impl Status {
    /// Its number.
    pub fn code(self) -> u8
        ensures { result ≡ code self }
    {
        match self {
            Status::Accepted => 0,
            Status::Refused => 1,
            Status::Misused => 2,
            Status::Failed => 3,
        }
    }
}

/// Why a call has no output.
#[derive(Clone, Copy, Drop)]
pub enum Failure<'a> {
    /// A text is refused: its name, the refusal, and the text whose line is shown.
    Refused(&'a str, Refusal, &'a [u8]),
    /// The text of this name is no list's: its first wrong line, from 1.
    NotAList(&'a str, usize),
    /// The text of this name is no sheet's: its first wrong line, from 1.
    NotASheet(&'a str, usize),
    /// The file of this name was not opened, read or written, by these words of the system.
    Failed(What, &'a str, &'a [u8]),
    /// A usage error of this command, none if the first word names none, and what is wrong.
    Misused(Option<&'a str>, &'a [u8]),
    /// There is no memory.
    NoMemory,
}

/// What a call answers.
#[derive(Drop)]
pub enum Answer {
    /// The whole output.
    Output(Vec<u8>, Status),
    /// No output, and the text for standard error.
    Failure(Vec<u8>, Status),
    /// No output, since there is no memory.
    NoMemory,
}

impl<'a> Failure<'a> {
    /// Its message.
    pub fn message(self, alloc: Global) -> Result<Vec<u8>, AllocError>
        ensures text { (f : Fault) → Fails (fails f) self.entry → IfOk result (λ text. message f ≡ text.items) }
        ensures memory { OnOk result (self.entry ≡ NoMemory → ⊥) }
    {
        match self {
            Failure::Refused(name, refusal, text) => refusal_message(
                alloc,
                name.as_bytes(),
                refusal,
                text,
            ),
            Failure::NotAList(name, line) => no_list_message(alloc, name.as_bytes(), line),
            Failure::NotASheet(name, line) => no_sheet_message(alloc, name.as_bytes(), line),
            Failure::Failed(what, name, reason) => failure_message(
                alloc,
                what,
                name.as_bytes(),
                reason,
            ),
            Failure::Misused(command, wrong) => misuse_message(alloc, command, wrong),
            Failure::NoMemory => Err(AllocError),
        }
    }

    /// The exit status.
    pub fn status(self) -> Status
        ensures { (f : Fault) → Fails (fails f) self.entry → (self.entry ≡ NoMemory → ⊥) → status f ≡ code result }
    {
        match self {
            Failure::Refused(_, _, _) | Failure::NotAList(_, _) | Failure::NotASheet(_, _) =>
                Status::Refused,
            Failure::Misused(_, _) => Status::Misused,
            Failure::Failed(_, _, _) | Failure::NoMemory => Status::Failed,
        }
    }
}

impl Answer {
    /// The answer to a call that fails.
    pub fn failed(alloc: Global, failure: Failure<'_>) -> Answer
        ensures { (m : Made) → Fails m failure.entry → Gives (answer_of m) result }
    {
        match failure.message(alloc) {
            Ok(text) => Answer::Failure(text, failure.status()),
            Err(_) => Answer::NoMemory,
        }
    }

    /// The answer to a call of which this was made.
    pub fn of(alloc: Global, made: Result<Vec<u8>, Failure<'_>>) -> Answer
        ensures { (m : Made) → Makes m made.entry → Gives (answer_of m) result }
    {
        match made {
            Ok(text) => Answer::Output(text, Status::Accepted),
            Err(failure) => Answer::failed(alloc, failure),
        }
    }
}
