//! The files of a call, each read to its end; the front is kept.
ghost use Rattle.std.specs.Prelude.{◌≡◌, IfOk, IfErr, Some};
ghost use Rattle.rules.specs.Text.{Text};
ghost use Rattle.cli_error.specs.Fault.{failed};
ghost use Rattle.cli_error.specs.Answered.{failure_of};
ghost use Rattle.cli_error.specs.Gives.{Gives};
ghost use Rattle.cli_io.specs.World.{name_of, input_name, WasRead, IsReason};
ghost use Rattle.cli_io.specs.Tabled.{TableRead, TableNotRead, NotRead, IsTabled};

use crate::host::{Host, HostError};
use cli_error::{Answer, Failure};
use cli_run::input::{Input, TABLE, input_of};
use std::alloc::Global;

/// How an input is called: standard input has no name.
pub fn input_name(name: Option<&str>) -> &str
    ensures { result.now ≡ input_name (name_of name.entry) }
{
    match name {
        Some(name) => name,
        None => "standard input",
    }
}

/// The answer to a call whose file of that name is not read.
pub fn unread(alloc: Global, name: &str, error: &HostError) -> Answer
    ensures { (reason : Text) → IsReason error.now.reason reason → Gives (failure_of (failed error.now.what name.now reason)) result }
{
    match &error.reason {
        Some(reason) => Answer::failed(alloc, Failure::Failed(error.what, name, reason.as_slice())),
        None => Answer::NoMemory,
    }
}

/// Reads a file, keeps its front, and returns how many bytes it has; or the answer if it is not read.
pub fn read_file<H: Host>(
    host: &mut H,
    name: Option<&str>,
    front: &mut [u8],
) -> Result<usize, Answer>
    ensures read { IfOk result (λ n. WasRead (H.world.reads host.old host.new (name_of name.entry)) front.new n) }
    ensures unread { IfErr result (NotRead H.world host.old host.new (name_of name.entry)) }
{
    let alloc = host.alloc();
    match host.read(name, front) {
        Ok(total) => Ok(total),
        Err(error) => Err(unread(alloc, input_name(name), &error)),
    }
}

/// Reads the branch table, if one is named.
pub fn read_table<H: Host>(
    host: &mut H,
    branches: Option<&str>,
    front: &mut [u8; TABLE],
) -> Result<usize, Answer>
    ensures read { IfOk result (λ n. TableRead H.world host.old host.new (name_of branches.entry) front.new n) }
    ensures unread { IfErr result (TableNotRead H.world host.old host.new (name_of branches.entry)) }
{
    match branches {
        Some(name) => read_file(host, Some(name), front),
        None => Ok(0),
    }
}

/// The branch table that was read.
pub fn table_of<'a>(
    branches: Option<&'a str>,
    front: &'a [u8; TABLE],
    total: usize,
) -> Option<Input<'a>>
    ensures { IsTabled (name_of branches.entry) front.now total result }
{
    match branches {
        Some(name) => Some(input_of(name, front, total)),
        None => None,
    }
}
