//! The files of a call, each opened and read to its end; the front is kept.
ghost use Rattle.std.specs.Prelude.{◌≡◌, ◌<◌, ◌≤◌, ◌⊎◌, false, length, take, option_map, IfOk, IfErr};
ghost use Rattle.rules.specs.Text.{Text};
ghost use Rattle.station.specs.Reads.{Reads};
ghost use Rattle.outcome.specs.declared.Which.TheVariants as Of;
ghost use Rattle.serving.specs.Served.{IsRead, Unread, lent};

use outcome::opening::Opening;
use outcome::reading::{Noting, read_kept};
use outcome::{Outcome, What, Which};
use station::TABLE;
use station::input::Input;
use std::io::Read;

/// What a read of an input asks for.
const CHUNK: usize = 8192;

/// What a read of a branch table asks for, which has at most 97 bytes.
const TABLE_CHUNK: usize = 512;

/// Where a call stands that has read its table and its input.
#[derive(Clone, Copy)]
pub(crate) struct Both {
    pub branches: Input,
    pub input: Input,
}

// Reads a file that is open.
#[tactic(auto, using(crate::proofs::Whole::is_read))]
fn read_opened<R: Read + Drop, const CHUNK: usize>(
    which: Which,
    reader: R,
    front: &mut [u8],
) -> Result<Input, Outcome>
    requires { (0 < CHUNK) × (CHUNK ≤ 65536) }
    ensures ok { IfOk result (λ i. IsRead (R.remaining reader) front.new i) }
    ensures err { IfErr result (Unread which) }
{
    let mut from = Noting::new(reader);
    match read_kept::<_, CHUNK>(&mut from, front) {
        Ok(input) => Ok(input),
        Err(e) => Err(Outcome::Failed(What::Read, Some(which), e)),
    }
}

/// Opens a file, or standard input where there is no name, and reads it.
pub fn read_file<F: Opening, const CHUNK: usize>(
    files: &F,
    which: Which,
    name: Option<&str>,
    front: &mut [u8],
) -> Result<Input, Outcome>
    requires { (0 < CHUNK) × (CHUNK ≤ 65536) }
    ensures ok { IfOk result (λ i. IsRead (F.holds files.now (option_map (λ s. s.now) name.entry)) front.new i) }
    ensures err { IfErr result (Unread which) }
{
    match files.open(name) {
        Ok(reader) => read_opened::<_, CHUNK>(which, reader, front),
        Err(e) => Err(Outcome::Failed(What::Open, Some(which), e)),
    }
}

/// Reads an input.
pub(crate) fn read_input<F: Opening>(
    files: &F,
    name: Option<&str>,
    front: &mut [u8],
) -> Result<Input, Outcome>
    ensures ok { IfOk result (λ i. IsRead (F.holds files.now (option_map (λ s. s.now) name.entry)) front.new i) }
    ensures err { IfErr result (Unread Of.Input) }
{
    read_file::<F, CHUNK>(files, Which::Input, name, front)
}

// Of a table that is not lent.
fn no_table() -> Input
    ensures whole { result.failed ≡ false }
    ensures none { result.total ≡ 0 }
{
    Input {
        total: 0,
        more: false,
        failed: false,
    }
}

/// Reads the branch table, if one is lent.
#[tactic(auto, using(crate::proofs::Whole::not_lent))]
pub(crate) fn read_table<F: Opening>(
    files: &F,
    branches: Option<&str>,
    table: &mut [u8; TABLE],
) -> Result<Input, Outcome>
    ensures ok { IfOk result (λ i. IsRead (lent (F.holds files.now) (option_map (λ s. s.now) branches.entry)) table.new i) }
    ensures err { IfErr result (Unread Of.Table) }
{
    match branches {
        Some(name) => read_file::<F, TABLE_CHUNK>(files, Which::Table, Some(name), table),
        None => Ok(no_table()),
    }
}

/// Reads the table, and then the input.
pub(crate) fn read_both<F: Opening, const N: usize>(
    files: &F,
    branches: Option<&str>,
    file: Option<&str>,
    table: &mut [u8; TABLE],
    front: &mut [u8; N],
) -> Result<Both, Outcome>
    ensures table { IfOk result (λ both. IsRead (lent (F.holds files.now) (option_map (λ s. s.now) branches.entry)) table.new both.branches) }
    ensures input { IfOk result (λ both. IsRead (F.holds files.now (option_map (λ s. s.now) file.entry)) front.new both.input) }
    ensures err { IfErr result (λ o. Unread Of.Table o ⊎ Unread Of.Input o) }
{
    match read_table(files, branches, table) {
        Ok(read) => match read_input(files, file, front) {
            Ok(input) => Ok(Both {
                branches: read,
                input,
            }),
            Err(unread) => Err(unread),
        },
        Err(unread) => Err(unread),
    }
}

// The front of an input that is kept.
#[tactic(auto, using(crate::proofs::Whole::kept_front))]
fn kept(front: &[u8], input: Input) -> &[u8]
    ensures { (b : Text) → Reads b front.now input → result.now ≡ take (length front.now) b }
{
    &front[..input.total.min(front.len())]
}

/// What is kept of an input.
pub(crate) fn kept_of<const N: usize>(front: &[u8; N], input: Input) -> &[u8]
    ensures { (b : Text) → Reads b front.now input → result.now ≡ take N b }
{
    kept(front, input)
}
