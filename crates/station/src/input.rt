//! Where a program stands that reads its input chunk by chunk, and the front of the input that it keeps.
ghost use Rattle.std.specs.Prelude.{◌≡◌, ◌<◌, ◌≤◌, true, false, ℕ, List, Option};
ghost use Rattle.station.specs.Reads.{at_start, failed_at, after_read, left, kept, ReadFrom, ReadWhole};

use listing::writing::write_bytes;
use std::io::Read;

/// Where a reader of an input stands.
#[derive(Clone, Copy, Debug, PartialEq, Eq, Hash)]
pub struct Input {
    /// The bytes read so far.
    pub total: usize,
    /// There may be more.
    // Two flags and no enum: the specs of four crates read each by itself.
    pub more: bool,
    /// A read failed; or there are more bytes than a `usize` counts.
    pub failed: bool,
}

/// Before the first read.
pub fn start() -> Input
    ensures { result ≡ at_start }
{
    Input {
        total: 0,
        more: true,
        failed: false,
    }
}

/// Where so many bytes were read and no more can be.
pub fn failed_at(total: usize) -> Input
    ensures { result ≡ failed_at total }
{
    Input {
        total,
        more: false,
        failed: true,
    }
}

/// After a read that gave so many bytes, 0 at the input's end, or none where it failed. A loop of reads ends, since less is left.
#[tactic(auto, unfolding(crate::specs::Reads::after_read, crate::specs::Reads::left))]
pub fn after_read(input: Input, got: Option<usize>) -> Input
    ensures value { result ≡ after_read got input }
    ensures result_bound { input.more ≡ true → left result < left input }
{
    let total = input.total;
    match got {
        Some(0) => Input {
            more: false,
            ..input
        },
        Some(count) if count <= usize::MAX - total => Input {
            total: total + count,
            more: true,
            ..input
        },
        _ => failed_at(total),
    }
}

/// Puts a chunk after the first `total` bytes of what is kept, as far as there is room.
#[tactic(auto, using(crate::proofs::Kept::kept_full, crate::proofs::Kept::kept_part))]
pub fn keep(buffer: &mut [u8], total: usize, chunk: &[u8])
    ensures { buffer.new ≡ kept total chunk.now buffer.old }
{
    if buffer.len() <= total {
        return;
    }
    let n = chunk.len().min(buffer.len() - total);
    write_bytes(buffer, total, &chunk[..n]);
}

// Reads a chunk, and keeps as much of it as there is room for.
fn read_more<R: Read, const CHUNK: usize>(from: &mut R, input: Input, buffer: &mut [u8]) -> Input
    requires { (0 < CHUNK) × (CHUNK ≤ 65536) }
    ensures by_index { (old : Option (List ℕ)) (x : List ℕ) → ReadFrom old x (R.remaining from.old) buffer.old input → ReadFrom old x (R.remaining from.new) buffer.new result }
    ensures result_bound { input.more ≡ true → left result < left input }
{
    let mut chunk = [0u8; CHUNK];
    let got = from.read(&mut chunk).ok();
    keep(buffer, input.total, &chunk[..got.unwrap_or(0)]);
    after_read(input, got)
}

/// Reads to the end, and keeps the front. Where the reader's bytes are known, what was read is their front, and where no read failed it is
/// all of them.
pub fn read_whole<R: Read, const CHUNK: usize>(from: &mut R, buffer: &mut [u8]) -> Input
    requires { (0 < CHUNK) × (CHUNK ≤ 65536) }
    ensures { ReadWhole (R.remaining from.old) buffer.old (R.remaining from.new) buffer.new result }
{
    let mut input = start();
    // Where the reads end only each read tells: no iterator has them.
    while input.more {
        input = read_more::<R, CHUNK>(from, input, buffer);
    }
    input
}

/// Reads a script to the end after a branch table: where that could not be read nothing more is.
pub fn read_behind<R: Read, const CHUNK: usize>(
    table: Input,
    from: &mut R,
    buffer: &mut [u8],
) -> Input
    requires { (0 < CHUNK) × (CHUNK ≤ 65536) }
    ensures unread { table.failed ≡ true → (result ≡ failed_at 0) × (buffer.new ≡ buffer.old) }
    ensures read { table.failed ≡ false → ReadWhole (R.remaining from.old) buffer.old (R.remaining from.new) buffer.new result }
{
    if table.failed {
        return failed_at(0);
    }
    read_whole::<R, CHUNK>(from, buffer)
}
