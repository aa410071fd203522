//! What the words ask for.
ghost use Rattle.std.specs.Prelude.{◌≡◌, List, map, Ok, IfOk, string_bytes};
ghost use Rattle.rules.specs.Text.{Text};
ghost use Rattle.commandline.specs.Help.{help_text};
ghost use Rattle.commandline.specs.Start.{StartAnswer};
ghost use Rattle.commandline.specs.declared.parse.Start.TheVariants.{Of};
ghost use Rattle.diagnostic.specs.Refusals.{refusals_text};
ghost use Rattle.asked.specs.Task.{IsTask};

use commandline::help::{VERSION, command_help, help};
use commandline::parse::{Request, Start, request_of, start_of};
use commandline::{Asked, Command, Wrong};
use diagnostic::words::refusals;
use std::alloc::{AllocError, Global};

/// What the words ask for.
#[derive(Drop)]
pub enum Task<'a> {
    /// That a text is printed, of help or the version.
    Print(Vec<u8>),
    /// That a command does its work.
    Work(Asked<'a>),
    /// Nothing that there is.
    Wrong(Wrong),
}

// The help of all commands.
#[tactic(auto, using(crate::proofs::Texts::nothing_between))]
fn whole_help(alloc: Global) -> Result<Vec<u8>, AllocError>
    ensures { IfOk result (λ t. t.items ≡ help_text refusals_text) }
{
    let mut text = help(alloc, "")?.into_bytes();
    text.extend_from_slice(refusals())?;
    Ok(text)
}

// The version.
fn version(alloc: Global) -> Result<Vec<u8>, AllocError>
    ensures { IfOk result (λ t. t.items ≡ VERSION.now) }
{
    VERSION.as_bytes().to_vec(alloc)
}

// What the words of a command ask for: those after its name.
fn of_command<'a>(
    alloc: Global,
    command: Command,
    behind: &'a [String],
) -> Result<Task<'a>, AllocError>
    ensures { (ws : List Text) → StartAnswer ws (Ok (Of command)) → IfOk result (λ t. IsTask ws t) }
{
    match request_of(alloc, command, behind) {
        Ok(Request::Help) => Ok(Task::Print(command_help(alloc, command)?.into_bytes())),
        Ok(Request::Version) => Ok(Task::Print(version(alloc)?)),
        Ok(Request::Work(asked)) => Ok(Task::Work(asked)),
        Err(wrong) => Ok(Task::Wrong(wrong)),
    }
}

/// What the words after the program's name ask for.
pub fn task_of<'a>(alloc: Global, words: &'a [String]) -> Result<Task<'a>, AllocError>
    ensures { IfOk result (λ t. IsTask (map (λ w. string_bytes w) words.now) t) }
{
    match start_of(alloc, words) {
        Ok(Start::Help) => Ok(Task::Print(whole_help(alloc)?)),
        Ok(Start::Version) => Ok(Task::Print(version(alloc)?)),
        Ok(Start::Of(command)) => of_command(alloc, command, words.get(1..).unwrap_or(&[])),
        Err(wrong) => Ok(Task::Wrong(wrong)),
    }
}
