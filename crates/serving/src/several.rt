//! A call on several inputs.
ghost use Rattle.std.specs.Prelude.{◌≡◌, ◌⊎◌, ◌^◌, ◌<◌, false, ℕ, List, Option, map, option_map};
ghost use Rattle.rules.specs.Text.{Text};
ghost use Rattle.outcome.specs.declared.making.Joining.{Joining};
ghost use Rattle.serving.specs.Said.{called, called_by, with_input, Tells};
ghost use Rattle.serving.specs.Served.{IsRead, lent};
ghost use Rattle.serving.specs.Gathered.{NoRoom, PutAll, ServedEach};

use crate::gathering::{Gathered, gather};
use crate::reading::read_table;
use crate::telling::{Names, names_of, told, with_input};
use outcome::making::{Joining, MakeNamed};
use outcome::opening::Opening;
use outcome::output::Output;
use outcome::{Outcome, What};
use station::TABLE;
use station::input::Input;
use std::alloc::Global;
use std::io::Write;

// Puts the text of all inputs.
fn put_all<O: Output>(gathered: &Gathered, out: &mut O) -> Outcome
    ensures { PutAll gathered.now.text.items gathered.now.all (λ s r. O.puts out.old out.new s r) result }
{
    match out.put(&gathered.text) {
        Ok(()) => {
            if gathered.all {
                Outcome::Accepted
            } else {
                Outcome::NotAll
            }
        }
        Err(e) => Outcome::Failed(What::Write, None, e),
    }
}

// Reads the inputs after the table, and puts the text of all.
fn serve_inputs<'a, F: Opening, M: MakeNamed<N>, O: Output, E: Write, const N: usize>(
    alloc: Global,
    files: &F,
    work: &M,
    joining: Joining,
    names: Names<'a>,
    table: &[u8; TABLE],
    branches: Input,
    inputs: &[Option<&'a str>],
    out: &mut O,
    errors: &mut E,
) -> Outcome
    requires whole { branches.failed ≡ false }
    requires size { N < 2 ^ 63 }
    ensures { (t : Option (List ℕ)) → IsRead t table.now branches → ServedEach (F.holds files.now) (λ a s b. M.promised work.now s a b) (λ a b. M.accepts work.now a b) t joining N (map (option_map (λ s. s.now)) inputs.now) (λ s r. O.puts out.old out.new s r) (out.new ≡ out.old) (λ n s o. Tells (with_input (called names.entry) n) s o (E.contents errors.old) (E.contents errors.new)) (NoRoom (E.contents errors.old) (E.contents errors.new)) result }
{
    let mut front = [0u8; N];
    match gather(
        alloc, files, work, joining, names, table, branches, inputs, &mut front, errors,
    ) {
        Ok(gathered) => {
            let outcome = put_all(&gathered, out);
            told(alloc, with_input(names, None), &[], outcome, errors)
        }
        Err(halted) => halted,
    }
}

/// Opens and reads the branch table, if one is named, and then each of the inputs in their order; makes their texts and puts all as one. Nothing is
/// put where one of them was not read, or has no text, and why is said on standard error; `output` is the output's name there.
pub fn serve_each<'a, F: Opening, M: MakeNamed<N>, O: Output, E: Write, const N: usize>(
    alloc: Global,
    files: &F,
    work: &M,
    joining: Joining,
    branches: Option<&'a str>,
    inputs: &[Option<&'a str>],
    output: &'a str,
    out: &mut O,
    errors: &mut E,
) -> Outcome
    requires { N < 2 ^ 63 }
    ensures { ServedEach (F.holds files.now) (λ a s b. M.promised work.now s a b) (λ a b. M.accepts work.now a b) (lent (F.holds files.now) (option_map (λ s. s.now) branches.entry)) joining N (map (option_map (λ s. s.now)) inputs.now) (λ s r. O.puts out.old out.new s r) (out.new ≡ out.old) (λ n s o. Tells (called_by (option_map (λ s. s.now) branches.entry) n output.now) s o (E.contents errors.old) (E.contents errors.new)) (NoRoom (E.contents errors.old) (E.contents errors.new)) result }
{
    let names = names_of(branches, None, output);
    let mut table = [0u8; TABLE];
    match read_table(files, branches, &mut table) {
        Ok(read) => serve_inputs(
            alloc, files, work, joining, names, &table, read, inputs, out, errors,
        ),
        Err(unread) => told(alloc, names, &[], unread, errors),
    }
}
