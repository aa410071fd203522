#![tactic(auto)]

//! The first pass: labels recorded, data words counted, lines kept, refusals 4, 6 and 5; and `enter`, which other calls go in by.
ghost use Rattle.std.specs.Prelude.{◌≡◌, ◌≤◌, ◌<◌, ◌*◌, ◌+◌, [], ℕ, min, length, Some, None, IfSome, IfOk, IfErr};
ghost use Rattle.rules.specs.Limits.{max_source, max_lines, max_labels, address_limit};
ghost use Rattle.rules.specs.Text.{cut_at};
ghost use Rattle.rules.specs.Line.{size, lines_of, instruction_of};
ghost use Rattle.rules.specs.Assemble.{Sizes, first_pass_by, pass_at_by};
ghost use Rattle.cells.specs.Sizes.{size_of, Small};
ghost use Rattle.line.specs.Line.{names_of, names_at};
ghost use Rattle.text.specs.Spans.{SpanIn};
ghost use Rattle.first.specs.Stopped.{stopped, stopped_at};
ghost use Rattle.label.specs.Table.{cell_of};
ghost use Rattle.first.specs.Pass.{with_table, Unchanged, entered, IsDone, HoldsBy, HoldsLines};
ghost use Rattle.first.specs.Names.{RoomFor, Grown, RecordNamesNeeds, OnLine, all_recorded, some_recorded};
ghost use Rattle.first.specs.Progress.{Stands, Paced, Readable, TakeLineNeeds};
ghost use Rattle.cells.proofs.Tasks.{rules_small};

use answer::Refusal;
use cells::Kept;
use label::{Full, Labels};
use line::{Line, Names, Task};
use text::Span;

/// What the pass leaves, with the labels recorded and the lines in the cells: the base, how many data words there are, and
/// how many lines are read.
// No struct of labels, cells and pass for what comes after: with `HoldsBy` as its invariant it would have the sizes in a ghost field, as
// `emit_words` goes by those of its `Encoding`, and each clause that names `HoldsBy` would name that field.
#[derive(Clone, Copy, Debug, PartialEq, Eq, Hash)]
pub struct Pass {
    pub base: u32,
    pub values: usize,
    pub lines: usize,
}

/// By how much an instruction advances the address: a pass goes by sizes of its own.
pub trait Sizing {
    ghost sizes: { Sizes };

    /// The size of the instruction whose text is `t`.
    fn text_size(t: &[u8]) -> u32
        requires { length t.now ≤ max_source }
        ensures { result ≡ sizes (instruction_of t.now) };

    // A line's cell has room for it.
    ghost small: { Small sizes };
}

/// The sizes of the instructions of `assemble`: a type's name, and no value.
pub struct ScriptSizes;

impl Sizing for ScriptSizes {
    ghost sizes = { size };

    fn text_size(t: &[u8]) -> u32 {
        instruction::instruction_size(t)
    }

    ghost small = { rules_small };
}

// ---- One line.

// By how much a task advances the address.
fn size_of<S: Sizing>(source: &[u8], task: Task) -> u32
    requires { Readable source.now task }
    ensures { result ≡ size_of S.sizes source.now task }
{
    match task {
        Task::Instruction(span) => S::text_size(&source[span.start..span.end]),
        Task::Value(n, _) => n,
        Task::Space(n) => n,
        Task::Skipped | Task::End | Task::Org(_) | Task::NoOrg | Task::LabelOnly => 0,
    }
}

// A label that a line may have, recorded at `address`. As a call it takes 15 in 1,000 of a script of labels.
#[inline]
fn record_name(labels: &mut Labels<'_>, name: Option<Span>, address: u32) -> Result<(), Full>
    requires short { length labels.old.source ≤ max_source }
    requires room { RoomFor 1 labels.old }
    requires within { IfSome name (SpanIn labels.old.source) }
    ensures source { labels.new.source ≡ labels.old.source }
    ensures room { labels.new.room ≡ labels.old.room }
    ensures most { length labels.new.table ≤ length labels.old.table + 1 }
    ensures grown { Grown labels.old labels.new }
    ensures recorded { IfOk result (λ _. (k : ℕ) → OnLine labels.old.source k (names_of labels.old.source name) → all_recorded labels.old.table (names_of labels.old.source name) address k ≡ Some labels.new.table) }
    ensures full { IfErr result (λ _. (k : ℕ) → OnLine labels.old.source k (names_of labels.old.source name) → all_recorded labels.old.table (names_of labels.old.source name) address k ≡ None) }
    ensures some { (k : ℕ) → OnLine labels.old.source k (names_of labels.old.source name) → labels.new.table ≡ some_recorded labels.old.table (names_of labels.old.source name) address k }
{
    // Without a name nothing is recorded: no None that `?` could hand on.
    let Some(span) = name else {
        return Ok(());
    };
    labels.record(span.start, span.end, address)?;
    Ok(())
}

// The labels of a line, recorded in order at `address`, as far as there is room.
fn record_names(labels: &mut Labels<'_>, names: Names, address: u32) -> Result<(), Full>
    requires { RecordNamesNeeds labels.old names }
    ensures source { labels.new.source ≡ labels.old.source }
    ensures room { labels.new.room ≡ labels.old.room }
    ensures grown { Grown labels.old labels.new }
    ensures recorded { IfOk result (λ _. (k : ℕ) → OnLine labels.old.source k (names_at labels.old.source names) → all_recorded labels.old.table (names_at labels.old.source names) address k ≡ Some labels.new.table) }
    ensures full { IfErr result (λ _. (k : ℕ) → OnLine labels.old.source k (names_at labels.old.source names) → all_recorded labels.old.table (names_at labels.old.source names) address k ≡ None) }
    ensures some { (k : ℕ) → OnLine labels.old.source k (names_at labels.old.source names) → labels.new.table ≡ some_recorded labels.old.table (names_at labels.old.source names) address k }
{
    record_name(labels, names.first, address)?;
    record_name(labels, names.second, address)?;
    Ok(())
}

// Where the pass stands: before the line that starts at `at`, after `lines` lines. It is handed on, and never compared.
#[derive(Clone, Copy)]
struct Progress {
    at: usize,
    address: u32,
    values: usize,
    lines: usize,
}

// A line that is not END, with the next one at `next`: 6 before 5. Labels and cells are each lent by the caller, with a base: a struct of
// the three would be one more loan.
fn take_line<S: Sizing>(
    labels: &mut Labels<'_>,
    base: u32,
    cells: &mut [u32],
    p: Progress,
    line: Line,
    next: usize,
) -> Result<Option<Progress>, Refusal>
    requires { TakeLineNeeds S.sizes labels.old base cells.old p line next }
    ensures { Paced S.sizes labels.old base cells.old p result labels.new cells.new }
{
    let task = line.task;
    let number = p.lines + 1;
    // The refusal has the line's number. A `map_err` would take a closure that drops what it is given, to say the same.
    let Ok(()) = record_names(labels, line.names, p.address) else {
        return Err(Refusal::ManyLabels(number));
    };
    let kept = Kept {
        task,
        size: size_of::<S>(labels.source(), task),
    };
    let after = cells::address_after(kept, base, p.address);
    if u64::from(rules::ADDRESS_LIMIT) <= after {
        return Err(Refusal::HighAddress(number));
    }
    cells::keep_line(cells, p.lines, kept);
    Ok(Some(Progress {
        at: next,
        // Below the limit, which is far below 2^32.
        address: after as u32,
        values: p.values + cells::data_words(task),
        lines: number,
    }))
}

// The line that the pass stands before: on to the next one; or the pass ends before this one, or no line is left.
fn pass_line<S: Sizing>(
    labels: &mut Labels<'_>,
    base: u32,
    cells: &mut [u32],
    p: Progress,
) -> Result<Option<Progress>, Refusal>
    requires { Stands S.sizes labels.old base cells.old p }
    ensures { Paced S.sizes labels.old base cells.old p result labels.new cells.new }
{
    let source = labels.source();
    if source.len() < p.at {
        return Ok(None);
    }
    let outline = outline::outline_line(source, p.at);
    let line = line::read_line(source, p.at, outline);
    if line::is_end(line.task) {
        return Ok(None);
    }
    take_line::<S>(labels, base, cells, p, line, outline.end + 1)
}

// ---- All lines.

/// The first pass over a source that refusals 1 to 4 let pass; refusals 6 and 5 come by line.
pub fn first_pass<S: Sizing>(
    labels: &mut Labels<'_>,
    base: u32,
    cells: &mut [u32],
) -> Result<Pass, Refusal>
    requires short { length labels.old.source ≤ max_source }
    requires few { length (cut_at 10 labels.old.source) ≤ max_lines }
    requires low { base < address_limit }
    requires empty { labels.old.table ≡ [] }
    requires rows { min (2 * length (cut_at 10 labels.old.source)) max_labels ≤ labels.old.room }
    requires lines { 2 * length (cut_at 10 labels.old.source) ≤ length cells.old }
    ensures answer { entered labels.new cells.new result ≡ first_pass_by S.sizes base base [] (lines_of labels.old.source) }
    ensures done { IfOk result (IsDone S.sizes labels.new base cells.new) }
    ensures labels { labels.new ≡ with_table (stopped S.sizes base base [] (lines_of labels.old.source)).labels labels.new.cells labels.old }
    ensures rows { Unchanged (cell_of (length labels.new.table)) labels.old.cells labels.new.cells }
    ensures lines { HoldsLines S.sizes labels.old.source base (stopped S.sizes base base [] (lines_of labels.old.source)).puts cells.old cells.new }
{
    let mut p = Progress {
        at: 0,
        address: base,
        values: 0,
        lines: 0,
    };
    // Only a line's outline says where the next one starts.
    while let Some(next) = pass_line::<S>(labels, base, cells, p)? {
        p = next;
    }
    Ok(Pass {
        base,
        values: p.values,
        lines: p.lines,
    })
}

/// Refusals 1 to 4, then the first pass by `assemble`'s sizes: refusals 6 and 5, or what it leaves in the labels and the cells.
pub fn enter(labels: &mut Labels<'_>, base: u32, cells: &mut [u32]) -> Result<Pass, Refusal>
    requires empty { labels.old.table ≡ [] }
    requires rows { min (2 * length (cut_at 10 labels.old.source)) max_labels ≤ labels.old.room }
    requires lines { length (cut_at 10 labels.old.source) ≤ max_lines → 2 * length (cut_at 10 labels.old.source) ≤ length cells.old }
    ensures answer { entered labels.new cells.new result ≡ pass_at_by size base labels.old.source }
    ensures holds { IfOk result (HoldsBy size labels.new cells.new) }
    ensures base { IfOk result (λ pass. pass.base ≡ base) }
    ensures labels { labels.new ≡ with_table (stopped_at size base labels.old.source).labels labels.new.cells labels.old }
    ensures rows { Unchanged (cell_of (length labels.new.table)) labels.old.cells labels.new.cells }
    ensures lines { HoldsLines size labels.old.source base (stopped_at size base labels.old.source).puts cells.old cells.new }
{
    source::check_source(labels.source())?;
    if rules::ADDRESS_LIMIT <= base {
        return Err(Refusal::HighBase);
    }
    first_pass::<ScriptSizes>(labels, base, cells)
}
