#![tactic(auto)]

//! Why a line has no word: the first pass, then the verdict on a line, or on each line that is read. The arrays that the first
//! pass fills are a call's own: there is no heap.
ghost use Rattle.std.specs.Prelude.{◌≡◌, ◌<◌, ◌≤◌, length, refl, IfOk, OnOk};
ghost use Rattle.requests.specs.Explain.{explain, explain_all, explain_by, explain_all_by};
ghost use Rattle.requests.specs.Branches.{explain_under, explain_all_under};
ghost use Rattle.rules.specs.Limits.{max_lines};
ghost use Rattle.answer.specs.Refusal.{answer_of};
ghost use Rattle.answer.specs.Told.{told_number};
ghost use Rattle.text.specs.Spans.{span_text, SpanIn};
ghost use Rattle.cells.specs.Cells.{kept_at};
ghost use Rattle.cells.specs.Puts.{address_at};
ghost use Rattle.first.specs.Pass.{Holds};
ghost use Rattle.std.specs.Option.{option_copied};
ghost use Rattle.branches.specs.Branch.{names_in};
ghost use Rattle.explain.specs.Verdict.{verdict_number, numbered_verdict, numbered_back, explained_of, signs_of, count_of, put_over, written_as};
ghost use Rattle.explain.specs.Called.{told_verdict, refused_place};
ghost use Rattle.explain.specs.Lines.{verdict_on, WhyTaskNeeds, Walks, verdicts_to, WriteNeeds, WriteGives};

use answer::Refusal;
use first::Pass;
use form::why_instruction;
use label::Labels;
use line::Task;
use operand::Here;
use text::Span;

mod operand; // operand.rt: an operand in a place of a form
mod form; // form.rt: the forms of an operation, in order

/// The verdict on a line: a word is emitted, or the first of the rules' reasons that holds.
#[derive(Clone, Copy, Debug, PartialEq, Eq, Hash)]
pub enum Verdict {
    Emitted,
    NotInstruction,
    UnknownMnemonic,
    WrongCount,
    WrongKinds,
    /// A number: nothing after its prefix and sign.
    NoDigits,
    /// A number: a byte that is no digit.
    BadDigit,
    /// A number: a value out of range.
    OutOfRange,
    /// A label not recorded.
    NotRecorded,
    /// A displacement out of range.
    OutOfReach,
}

/// In the place of a verdict's number where there is none, in the C interface.
pub const NO_VERDICT: u8 = 255;

/// A verdict's number, in the rules' order from 0, for the C interface.
pub fn verdict_number(v: Verdict) -> u8
    ensures { result ≡ verdict_number v }
{
    // `as` is how an enum without fields tells its number.
    v as u8
}

/// What stands for a verdict in an array: the verdict itself, or its number.
pub trait VerdictSign: Copy {
    ghost use Rattle.explain.specs.declared.Verdict.{Verdict};

    ghost from_verdict: { Verdict → Self };

    ghost verdict: { Self → Verdict };

    /// The sign of a verdict.
    fn from_verdict(v: Verdict) -> Self
        ensures { result ≡ from_verdict v };

    /// The verdict that it stands for.
    fn verdict(self) -> Verdict
        ensures { result ≡ verdict self };

    // What is written is read back.
    ghost back: { (v : Verdict) → verdict (from_verdict v) ≡ v };
}

impl VerdictSign for Verdict {
    ghost from_verdict = { λ v. v };

    ghost verdict = { λ v. v };

    fn from_verdict(v: Verdict) -> Verdict {
        v
    }

    fn verdict(self) -> Verdict {
        self
    }

    ghost back = { λ _. refl };
}

/// A number past the last verdict's stands for the last.
impl VerdictSign for u8 {
    ghost from_verdict = { verdict_number };

    ghost verdict = { numbered_verdict };

    fn from_verdict(v: Verdict) -> u8 {
        verdict_number(v)
    }

    fn verdict(self) -> Verdict {
        match self {
            0 => Verdict::Emitted,
            1 => Verdict::NotInstruction,
            2 => Verdict::UnknownMnemonic,
            3 => Verdict::WrongCount,
            4 => Verdict::WrongKinds,
            5 => Verdict::NoDigits,
            6 => Verdict::BadDigit,
            7 => Verdict::OutOfRange,
            8 => Verdict::NotRecorded,
            _ => Verdict::OutOfReach,
        }
    }

    ghost back = { numbered_back };
}

/// An answer on a line as C gets it: 0, with the verdict's number in `verdict` and 0 in `place`; or a refusal's number, with 255 in
/// `verdict` and its place in `place`.
pub fn tell(answer: Result<Verdict, Refusal>, verdict: &mut u8, place: &mut usize) -> u8
    ensures number { result ≡ told_number (answer_of answer) }
    ensures verdict { verdict.new ≡ told_verdict (answer_of answer) }
    ensures place { place.new ≡ refused_place (answer_of answer) }
{
    match answer {
        Ok(found) => {
            *verdict = verdict_number(found);
            *place = 0;
            0
        }
        Err(refusal) => {
            *verdict = NO_VERDICT;
            *place = refusal.place();
            refusal.number()
        }
    }
}

// The text that stands at a place.
fn part(t: &[u8], place: Span) -> &[u8]
    requires { SpanIn t.now place }
    ensures { result.now ≡ span_text t.now place }
{
    &t[place.start..place.end]
}

// ---- One line.

/// The verdict on a line's task, read at `address`, by the branch names of a table where one is lent.
#[tactic(auto, unfolding(requests::specs::Explain::why_task))]
pub fn why_task(names: Option<&[u8]>, labels: &Labels<'_>, address: u32, task: Task) -> Verdict
    requires { WhyTaskNeeds labels.now address task }
    ensures { result ≡ verdict_on (names_in (option_copied names.entry)) labels.now address task }
{
    match task {
        Task::Instruction(span) => why_instruction(
            names,
            Here {
                labels: &*labels,
                address,
            },
            part(labels.source(), span),
        ),
        Task::Value(_, _) => Verdict::Emitted,
        Task::Skipped | Task::End | Task::Org(_) | Task::NoOrg | Task::LabelOnly | Task::Space(_) =>
            Verdict::NotInstruction,
    }
}

// The address of line k, from 0, of the lines that are kept. By index: a line's cells are read at its number.
#[tactic(auto, unfolding(cells::specs::Puts::address_at))]
fn line_address(cells: &[u32], base: u32, k: usize) -> u32
    requires { Walks cells.now base k }
    ensures { result ≡ address_at base cells.now k }
{
    let mut address = base;
    for j in 0..k {
        let kept = cells::kept_line(cells, j);
        // Below 2^32, as the first pass has found.
        address = cells::address_after(kept, base, address) as u32;
    }
    address
}

// The verdict on line k, from 0, of the lines that are kept.
#[tactic(auto, using(crate::proofs::Lines::walks))]
fn why_line(
    names: Option<&[u8]>,
    labels: &Labels<'_>,
    cells: &[u32],
    pass: Pass,
    k: usize,
) -> Verdict
    requires { Holds labels.now cells.now pass × (k < pass.lines) }
    ensures { result ≡ verdict_on (names_in (option_copied names.entry)) labels.now (address_at pass.base cells.now k) (kept_at cells.now k).task }
{
    let address = line_address(cells, pass.base, k);
    let kept = cells::kept_line(cells, k);
    why_task(names, labels, address, kept.task)
}

// The verdict on a line, from 1: a line that is kept, or END; any other is refused.
#[tactic(auto, using(crate::proofs::Lines::told_none, crate::proofs::Lines::told_past, crate::proofs::Lines::told_missing, crate::proofs::Lines::told_end))]
fn tell_line(
    names: Option<&[u8]>,
    labels: &Labels<'_>,
    cells: &[u32],
    pass: Pass,
    line: usize,
) -> Result<Verdict, Refusal>
    requires { Holds labels.now cells.now pass }
    ensures { answer_of result ≡ explained_of (explain_by (names_in (option_copied names.entry)) pass.base labels.now.source line) }
{
    if line == 0 {
        return Err(Refusal::NoSuchLine(line));
    }
    let k = line - 1;
    if k < pass.lines {
        return Ok(why_line(names, labels, cells, pass, k));
    }
    if pass.lines < k || source::count_lines(labels.source()) <= k {
        return Err(Refusal::NoSuchLine(line));
    }
    Ok(Verdict::NotInstruction)
}

// The verdict on a line, from 1, by the names in use.
#[tactic(auto, using(crate::proofs::Lines::line_refused))]
fn explain_by(
    names: Option<&[u8]>,
    source: &[u8],
    base: u32,
    line: usize,
) -> Result<Verdict, Refusal>
    ensures { answer_of result ≡ explained_of (explain_by (names_in (option_copied names.entry)) base source.now line) }
{
    let mut table = [0u32; label::TABLE];
    let mut cells = [0u32; 2 * rules::MAX_LINES];
    let mut labels = Labels::new(source, &mut table);
    let pass = first::enter(&mut labels, base, &mut cells)?;
    tell_line(names, &labels, &cells, pass, line)
}

// The calls with and without a table, here and for all lines, are a line or two over one function each: no generic one is shorter.

/// The verdict on a line, from 1, of a source assembled at `base`. Refuses by 1 to 6 as assembling does, then by 13, at the line,
/// a line that there is not or that is never read.
#[tactic(auto, unfolding(branches::specs::Branch::names_in))]
pub fn explain_line(source: &[u8], base: u32, line: usize) -> Result<Verdict, Refusal>
    ensures { answer_of result ≡ explained_of (explain base source.now line) }
{
    explain_by(None, source, base, line)
}

/// The same under the branch table `names`; refuses it by 16 or 17 before all else.
#[tactic(auto, using(crate::proofs::Tabled::line_unloaded))]
pub fn explain_branches(
    names: &[u8],
    source: &[u8],
    base: u32,
    line: usize,
) -> Result<Verdict, Refusal>
    ensures { answer_of result ≡ explained_of (explain_under names.now base source.now line) }
{
    branches::load_branches(names)?;
    explain_by(Some(names), source, base, line)
}

// ---- All lines.

// The verdicts on the lines that are kept, into the first places. By index: a line's cells and its verdict stand at its number.
#[tactic(auto, using(crate::proofs::Lines::after_low, crate::proofs::Writing::wrote_none, crate::proofs::Writing::wrote_on), unfolding(cells::specs::Puts::address_at))]
fn write_kept<V: VerdictSign>(
    names: Option<&[u8]>,
    labels: &Labels<'_>,
    cells: &[u32],
    pass: Pass,
    verdicts: &mut [V],
)
    requires { WriteNeeds labels.now cells.now pass verdicts.old }
    ensures { verdicts.new ≡ put_over (signs_of V.from_verdict (verdicts_to (names_in (option_copied names.entry)) labels.now cells.now pass pass.lines)) verdicts.old }
{
    let mut address = pass.base;
    for k in 0..pass.lines {
        let kept = cells::kept_line(cells, k);
        verdicts[k] = V::from_verdict(why_task(names, labels, address, kept.task));
        // Below 2^32, as the first pass has found.
        address = cells::address_after(kept, pass.base, address) as u32;
    }
}

// The verdicts on every line that is read; how many there are.
fn write_verdicts<V: VerdictSign>(
    names: Option<&[u8]>,
    labels: &Labels<'_>,
    cells: &[u32],
    pass: Pass,
    verdicts: &mut [V],
) -> usize
    requires { WriteNeeds labels.now cells.now pass verdicts.old }
    ensures { WriteGives V.from_verdict (names_in (option_copied names.entry)) labels.now cells.now pass verdicts.old result verdicts.new }
{
    write_kept(names, labels, cells, pass, verdicts);
    let lines = pass.lines;
    if source::count_lines(labels.source()) <= lines {
        return lines;
    }
    verdicts[lines] = V::from_verdict(Verdict::NotInstruction);
    lines + 1
}

// The verdict on every line that is read, by the names in use, in the first places; how many there are.
#[tactic(auto, using(crate::proofs::Writing::write_needs, crate::proofs::Writing::all_refused, crate::proofs::Writing::all_unwritten))]
fn explain_lines_by<V: VerdictSign>(
    names: Option<&[u8]>,
    source: &[u8],
    base: u32,
    verdicts: &mut [V; rules::MAX_LINES],
) -> Result<usize, Refusal>
    ensures value { answer_of result ≡ count_of (explain_all_by (names_in (option_copied names.entry)) base source.now) }
    ensures count { IfOk result (λ n. n ≤ max_lines) }
    ensures verdicts_after { verdicts.new ≡ written_as V.from_verdict (explain_all_by (names_in (option_copied names.entry)) base source.now) verdicts.old }
{
    let mut table = [0u32; label::TABLE];
    let mut cells = [0u32; 2 * rules::MAX_LINES];
    let mut labels = Labels::new(source, &mut table);
    let pass = first::enter(&mut labels, base, &mut cells)?;
    Ok(write_verdicts(names, &labels, &cells, pass, verdicts))
}

/// The verdict on every line that is read, itself or its number, in the first places; how many there are. The places after them stay,
/// and so do all where the source is refused, by 1 to 6 as assembling does.
#[tactic(auto, unfolding(branches::specs::Branch::names_in))]
pub fn explain_lines<V: VerdictSign>(
    source: &[u8],
    base: u32,
    verdicts: &mut [V; rules::MAX_LINES],
) -> Result<usize, Refusal>
    ensures value { answer_of result ≡ count_of (explain_all base source.now) }
    ensures count { IfOk result (λ n. n ≤ max_lines) }
    ensures verdicts_after { verdicts.new ≡ written_as V.from_verdict (explain_all base source.now) verdicts.old }
{
    explain_lines_by(None, source, base, verdicts)
}

/// The same under the branch table `names`; where that is refused, by 16 or 17 before all else, all places stay too.
#[tactic(auto, using(crate::proofs::Tabled::all_unloaded, crate::proofs::Tabled::all_kept, crate::proofs::Tabled::all_loaded))]
pub fn explain_lines_branches<V: VerdictSign>(
    names: &[u8],
    source: &[u8],
    base: u32,
    verdicts: &mut [V; rules::MAX_LINES],
) -> Result<usize, Refusal>
    ensures value { answer_of result ≡ count_of (explain_all_under names.now base source.now) }
    ensures count { IfOk result (λ n. n ≤ max_lines) }
    ensures verdicts_after { verdicts.new ≡ written_as V.from_verdict (explain_all_under names.now base source.now) verdicts.old }
{
    branches::load_branches(names)?;
    explain_lines_by(Some(names), source, base, verdicts)
}
