//! An answer written or reported.
ghost use Rattle.std.specs.Prelude.{◌≡◌};
ghost use Rattle.cli_error.specs.Answered.{Answered};
ghost use Rattle.cli_error.specs.Gives.{code, Gives};
ghost use Rattle.cli_error.specs.Messages.{no_memory_text, failed_text};
ghost use Rattle.cli_error.specs.declared.What.TheVariants.{Write};
ghost use Rattle.rules.specs.Text.{Text};
ghost use Rattle.cli_io.specs.World.{name_of, output_name, IsReason};
ghost use Rattle.cli_io.specs.Delivered.{ReportsWhy, Delivered};

use crate::host::{Host, HostError};
use cli_error::message::{failure_message, memory_message};
use cli_error::{Answer, Status, What};

// How the output is called.
fn output_name(to: Option<&str>) -> &str
    ensures { result.now ≡ output_name (name_of to.entry) }
{
    match to {
        Some(path) => path,
        None => "standard output",
    }
}

// Reports that the output was not written.
fn report_unwritten<H: Host>(host: &mut H, to: Option<&str>, error: &HostError)
    ensures { (s : Text) → IsReason error.now.reason s → ReportsWhy H.world (name_of to.entry) host.old host.new s }
{
    match &error.reason {
        Some(reason) => {
            match failure_message(
                host.alloc(),
                What::Write,
                output_name(to).as_bytes(),
                reason,
            ) {
                Ok(text) => host.report(&text),
                Err(_) => host.report(memory_message()),
            }
        }
        None => host.report(memory_message()),
    }
}

/// Writes the output of an answer to the file of a path, or to standard output; or reports why there is none.
pub fn deliver<H: Host>(host: &mut H, to: Option<&str>, answer: Answer) -> Status
    ensures { (a : Answered) → Gives a answer → Delivered H.world (name_of to.entry) host.old host.new (code result) a }
{
    match answer {
        Answer::Output(text, status) => match host.write(to, &text) {
            Ok(()) => status,
            Err(error) => {
                report_unwritten(host, to, &error);
                Status::Failed
            }
        },
        Answer::Failure(text, status) => {
            host.report(&text);
            status
        }
        Answer::NoMemory => {
            host.report(memory_message());
            Status::Failed
        }
    }
}
