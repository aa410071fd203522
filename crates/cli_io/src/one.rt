//! A call on one file.
ghost use Rattle.std.specs.Prelude.{◌≡◌, Option, length};
ghost use Rattle.cli_run.specs.Input.{Named, IsTable};
ghost use Rattle.cli_io.specs.World.{name_of};
ghost use Rattle.cli_io.specs.Answers.{Answers, AnswersFrom, AnswersOne};

use crate::host::Host;
use crate::reading::{input_name, read_file, read_table, table_of};
use cli_error::Answer;
use cli_run::input::{Input, TABLE, input_of};
use cli_run::one::One;

// The answer with a branch table that was read, if there is one: the file is read, and its text is made.
fn answer_with<'a, H: Host, M: One>(
    host: &mut H,
    work: &M,
    table: Option<Input<'a>>,
    file: Option<&'a str>,
    front: &'a mut [u8],
) -> Answer
    requires { length front.old ≡ M.kept }
    ensures { (t : Option Named) → IsTable t table.entry → AnswersFrom H.world (name_of file.entry) (M.made work.now t) host.old host.new result }
{
    match read_file(host, file, front) {
        Ok(total) => {
            let input = input_of(input_name(file), front, total);
            Answer::of(host.alloc(), work.make(host.alloc(), table, input))
        }
        Err(answer) => answer,
    }
}

/// The answer: the branch table is read, if one is named, and then the file, or standard input.
pub fn answer_one<H: Host, M: One>(
    host: &mut H,
    work: &M,
    branches: Option<&str>,
    file: Option<&str>,
) -> Answer
    ensures { Answers (AnswersOne H.world (name_of branches.entry) (name_of file.entry) (M.made work.now)) host.old host.new result }
{
    let mut names = [0u8; TABLE];
    match vec![in host.alloc(); 0u8; M::kept()] {
        Ok(mut front) => match read_table(host, branches, &mut names) {
            Ok(total) => {
                let table = table_of(branches, &names, total);
                answer_with(host, work, table, file, &mut front)
            }
            Err(answer) => answer,
        },
        Err(_) => Answer::NoMemory,
    }
}
