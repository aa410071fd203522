//! The totals of the lines that are read, from what the first pass kept of them: each has one class, and words.
ghost use Rattle.std.specs.Prelude.{◌≡◌, ◌∷◌, [], ◌*◌, ◌≤◌};
ghost use Rattle.rules.specs.Limits.{max_lines};
ghost use Rattle.requests.specs.Sheet.{plus};
ghost use Rattle.sheet.specs.Totals.{said, weight};
ghost use Rattle.sheet.specs.Lines.{counted_code, put_of, tally_of, AddLineNeeds, ReadTotalsNeeds, ReadTotalsGives};

use crate::{NO_TOTALS, Totals};
use encode::{Code, encode_instruction};
use first::Pass;
use label::Labels;
use line::Task;

// ---- One line.

// The totals with an instruction more, by its words.
#[tactic(auto, unfolding(requests::specs::Sheet::plus))]
fn add_code(t: Totals, code: Option<Code>) -> Totals
    requires { weight (said t) ≤ 4 * max_lines }
    ensures { said result ≡ plus (said t) (counted_code code) }
{
    match code {
        None => Totals {
            wordless: t.wordless + 1,
            ..t
        },
        Some(Code::Word(_)) => Totals {
            worded: t.worded + 1,
            words: t.words + 1,
            ..t
        },
        Some(Code::Value(_, _)) => Totals {
            worded: t.worded + 1,
            words: t.words + 2,
            ..t
        },
        Some(Code::Label(_, _)) => Totals {
            worded: t.worded + 1,
            words: t.words + 2,
            marked: t.marked + 1,
            ..t
        },
    }
}

// The totals with one line more, read at `address`.
#[tactic(auto, unfolding(requests::specs::Sheet::plus))]
fn add_line(t: Totals, labels: &Labels<'_>, address: u32, task: Task) -> Totals
    requires { AddLineNeeds (said t) labels.now address task }
    ensures { said result ≡ plus (said t) (tally_of labels.now.table (put_of labels.now.source address task ∷ [])) }
{
    match task {
        Task::Skipped => Totals {
            skipped: t.skipped + 1,
            ..t
        },
        Task::End => Totals {
            ended: t.ended + 1,
            ..t
        },
        Task::Org(_) | Task::NoOrg => Totals {
            org: t.org + 1,
            ..t
        },
        Task::LabelOnly => Totals {
            label: t.label + 1,
            ..t
        },
        Task::Instruction(span) => {
            let instruction = &labels.source()[span.start..span.end];
            add_code(t, encode_instruction(None, labels, address, instruction))
        }
        Task::Value(_, _) => Totals {
            defined: t.defined + 1,
            words: t.words + 2,
            ..t
        },
        Task::Space(_) => Totals {
            defined: t.defined + 1,
            ..t
        },
    }
}

// ---- All lines.

/// The totals of the lines that are kept.
pub fn read_totals(labels: &Labels<'_>, cells: &[u32], pass: Pass) -> Totals
    requires { ReadTotalsNeeds labels.now cells.now pass }
    ensures { ReadTotalsGives labels.now cells.now pass result }
{
    let mut totals = NO_TOTALS;
    let mut address = pass.base;
    // By number: a line's cells are found by it.
    for k in 0..pass.lines {
        let kept = cells::kept_line(cells, k);
        totals = add_line(totals, labels, address, kept.task);
        // By `as`: an accepted line's address fits, by the proof.
        address = cells::address_after(kept, pass.base, address) as u32;
    }
    totals
}
