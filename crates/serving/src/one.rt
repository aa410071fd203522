//! A call on one input.
ghost use Rattle.std.specs.Prelude.{◌≡◌, ◌^◌, ◌<◌, false, option_map};
ghost use Rattle.rules.specs.Text.{Text};
ghost use Rattle.station.specs.Reads.{Reads};
ghost use Rattle.outcome.specs.Outcome.{Ended};
ghost use Rattle.serving.specs.Said.{called, called_by, Tells};
ghost use Rattle.serving.specs.Served.{IsRead, Served, lent};
ghost use Rattle.std.specs.Prelude.{Option, List, ℕ};

use crate::reading::{Both, kept_of, read_both};
use crate::telling::{Names, names_of, told};
use outcome::Outcome;
use outcome::making::Make;
use outcome::opening::Opening;
use outcome::output::Output;
use outcome::writing::finish;
use station::TABLE;
use std::alloc::Global;
use std::io::Write;

// Makes the text of what was read, and puts it.
fn make_text<M: Make<N>, O: Output, const N: usize>(
    alloc: Global,
    work: &M,
    table: &[u8; TABLE],
    front: &[u8; N],
    read: Both,
    out: &mut O,
) -> Outcome
    requires { (read.branches.failed ≡ false) × (read.input.failed ≡ false) }
    ensures { (a b : Text) → Reads a table.now read.branches → Reads b front.now read.input → Ended (M.promised work.now a b) (λ s r. O.puts out.old out.new s r) (out.new ≡ out.old) result }
{
    match work.make(alloc, table, read.branches, front, read.input) {
        Ok(text) => finish(out, Ok(&text)),
        Err(unmade) => finish(out, Err(unmade)),
    }
}

// The same, and says what is wrong.
fn serve_read<M: Make<N>, O: Output, E: Write, const N: usize>(
    alloc: Global,
    work: &M,
    names: Names<'_>,
    table: &[u8; TABLE],
    front: &[u8; N],
    read: Both,
    out: &mut O,
    errors: &mut E,
) -> Outcome
    requires { (read.branches.failed ≡ false) × (read.input.failed ≡ false) }
    ensures { (t i : Option (List ℕ)) → IsRead t table.now read.branches → IsRead i front.now read.input → Served (M.promised work.now) t i N (λ s r. O.puts out.old out.new s r) (out.new ≡ out.old) (λ s o. Tells (called names.entry) s o (E.contents errors.old) (E.contents errors.new)) result }
{
    let outcome = make_text(alloc, work, table, front, read, out);
    told(alloc, names, kept_of(front, read.input), outcome, errors)
}

/// Opens and reads the branch table, if one is named, and then the file, or standard input; makes their text and puts it. Nothing is put where
/// one of them was not read, or there is no text, and why is said on standard error; `output` is the output's name there.
pub fn serve<F: Opening, M: Make<N>, O: Output, E: Write, const N: usize>(
    alloc: Global,
    files: &F,
    work: &M,
    branches: Option<&str>,
    file: Option<&str>,
    output: &str,
    out: &mut O,
    errors: &mut E,
) -> Outcome
    requires { N < 2 ^ 63 }
    ensures { Served (M.promised work.now) (lent (F.holds files.now) (option_map (λ s. s.now) branches.entry)) (F.holds files.now (option_map (λ s. s.now) file.entry)) N (λ s r. O.puts out.old out.new s r) (out.new ≡ out.old) (λ s o. Tells (called_by (option_map (λ s. s.now) branches.entry) (option_map (λ s. s.now) file.entry) output.now) s o (E.contents errors.old) (E.contents errors.new)) result }
{
    let names = names_of(branches, file, output);
    let mut table = [0u8; TABLE];
    let mut front = [0u8; N];
    match read_both(files, branches, file, &mut table, &mut front) {
        Ok(read) => serve_read(alloc, work, names, &table, &front, read, out, errors),
        Err(unread) => told(alloc, names, &[], unread, errors),
    }
}
