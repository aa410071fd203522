#![tactic(auto)]

//! The lines kept between the passes: two cells a line. The first has the line's size and the kind of its task; the second a
//! number, or where the instruction's text stands. An instruction itself is not kept: its text is read again.
ghost use Rattle.std.specs.Prelude.{◌≡◌};
ghost use Rattle.cells.specs.Cells.{data_words, after_by, kind_of, head_cell, tail_cell, task_in, kept_at, with_line, InCells, PlaceFits, Fits};

use line::Task;
use text::Span;

/// A line as it is kept: its task, and by how much it advances the address.
#[derive(Clone, Copy, Debug, PartialEq, Eq, Hash)]
pub struct Kept {
    pub task: Task,
    pub size: u32,
}

/// How many data words a task has.
pub fn data_words(task: Task) -> usize
    ensures { result ≡ data_words task }
{
    match task {
        Task::Value(_, _) => 2,
        Task::Skipped
        | Task::End
        | Task::Org(_)
        | Task::NoOrg
        | Task::LabelOnly
        | Task::Instruction(_)
        | Task::Space(_) => 0,
    }
}

/// The address after a line that is read at `address`.
#[tactic(auto, using(crate::proofs::Cells::goes_on))]
pub fn address_after(kept: Kept, base: u32, address: u32) -> u64
    ensures { result ≡ after_by base address kept }
{
    match kept.task {
        Task::Org(n) => u64::from(base) + u64::from(n),
        _ => u64::from(address) + u64::from(kept.size),
    }
}

// ---- The two cells of a line. They are numbers and no enum: eight bytes a line, in memory of a fixed size.

/// The cells of line k, written.
pub fn put_cells(cells: &mut [u32], k: usize, head: u32, tail: u32)
    requires { InCells cells.old k }
    ensures { cells.new ≡ with_line cells.old k head tail }
{
    cells[2 * k] = head;
    cells[2 * k + 1] = tail;
}

// ---- The first pass keeps a line.

// A task's kind, as it stands in the first cell.
fn kind(task: Task) -> u32
    ensures { result ≡ kind_of task }
{
    match task {
        Task::Skipped => 0,
        Task::End => 1,
        Task::Org(_) => 2,
        Task::Instruction(_) => 3,
        Task::Value(_, _) => 4,
        Task::Space(_) => 5,
        Task::NoOrg => 6,
        Task::LabelOnly => 7,
    }
}

// A task's number or place, as it stands in the second cell. `as` narrows what is below 2^32, as `PlaceFits` proves.
#[tactic(auto, using(crate::proofs::Cells::place_fits), unfolding(crate::specs::Cells::tail_cell))]
fn tail_cell(task: Task) -> u32
    requires { PlaceFits task }
    ensures { result ≡ tail_cell task }
{
    match task {
        Task::Org(n) | Task::Value(_, n) => n,
        Task::Instruction(span) => (65536 * span.end + span.start) as u32,
        Task::Skipped | Task::End | Task::NoOrg | Task::LabelOnly | Task::Space(_) => 0,
    }
}

/// Keeps line k.
#[tactic(auto, using(crate::proofs::Cells::kind_small))]
pub fn keep_line(cells: &mut [u32], k: usize, kept: Kept)
    requires { InCells cells.old k × Fits kept }
    ensures { cells.new ≡ with_line cells.old k (head_cell kept) (tail_cell kept.task) }
{
    let head = 8 * kept.size + kind(kept.task);
    put_cells(cells, k, head, tail_cell(kept.task));
}

// ---- The second pass reads it again.

// The task of a kind and a size, by the second cell. Of a `match` the compiler makes a table of values. `as` widens: there is no `From`
// from u32 to usize.
#[tactic(auto, unfolding(crate::specs::Cells::task_in))]
fn task_in(kind: u32, size: u32, cell: u32) -> Task
    ensures { result ≡ task_in kind size cell }
{
    if kind == 3 {
        let start = (cell % 65536) as usize;
        let end = (cell / 65536) as usize;
        return Task::Instruction(Span { start, end });
    }
    if kind == 4 {
        return Task::Value(size, cell);
    }
    if kind == 5 {
        return Task::Space(size);
    }
    if kind == 2 {
        return Task::Org(cell);
    }
    if kind == 1 {
        return Task::End;
    }
    if kind == 6 {
        return Task::NoOrg;
    }
    if kind == 7 {
        return Task::LabelOnly;
    }
    Task::Skipped
}

/// What is kept of line k.
pub fn kept_line(cells: &[u32], k: usize) -> Kept
    requires { InCells cells.now k }
    ensures { result ≡ kept_at cells.now k }
{
    let head = cells[2 * k];
    let tail = cells[2 * k + 1];
    let size = head / 8;
    Kept {
        task: task_in(head % 8, size, tail),
        size,
    }
}
