//! The codes of the manual's call: each line's code is looked for a fault before anything is written, and kept in two
//! cells until it is. So no line is encoded again to be written.
ghost use Rattle.std.specs.Prelude.{◌≡◌, OnOk};
ghost use Rattle.answer.specs.Refusal.{answer_of};
ghost use Rattle.cells.specs.Cells.{InCells};
ghost use Rattle.requests.specs.ManualAssemble.{encoded_manual};
ghost use Rattle.first.specs.Pass.{pass_in};
ghost use Rattle.emit.specs.Emit.{CodeNeeds, put_of};
ghost use Rattle.emit.specs.Codes.{code_in, code_at, counted, CellsOfGives, CodeLineGives, FindFaultNeeds, CodesHeld};

use answer::Refusal;
use encode_manual::{Fault, ManualCode};
use first::Pass;
use label::Labels;
use line::Task;

// A code's cells. The first has the operation word, and how many words there are, with 4 more if two of them are an address.
// Numbers, as in `cells`: eight bytes a line, in memory of a fixed size.
fn cells_of(code: Option<ManualCode>) -> (u32, u32)
    ensures { CellsOfGives code result }
{
    match code {
        None => (0, 0),
        Some(ManualCode::Word(word)) => (8 * u32::from(word) + 1, 0),
        Some(ManualCode::Value(word, second)) => (8 * u32::from(word) + 2, u32::from(second)),
        Some(ManualCode::Long(word, long)) => (8 * u32::from(word) + 3, long),
        Some(ManualCode::Address(word, target)) => (8 * u32::from(word) + 7, target),
    }
}

// The code of two cells. Of a `match` the compiler makes a table of values. By `as`: the remainders have 16 bits.
fn code_in(head: u32, tail: u32) -> Option<ManualCode>
    ensures { result ≡ code_in head tail }
{
    let kind = head % 8;
    let word = (head / 8 % 65536) as u16;
    if kind == 1 {
        return Some(ManualCode::Word(word));
    }
    if kind == 2 {
        return Some(ManualCode::Value(word, (tail % 65536) as u16));
    }
    if kind == 3 {
        return Some(ManualCode::Long(word, tail));
    }
    if kind == 7 {
        return Some(ManualCode::Address(word, tail));
    }
    None
}

/// The code that is kept of line k.
pub fn kept_code(codes: &[u32], k: usize) -> Option<ManualCode>
    requires { InCells codes.now k }
    ensures { result ≡ code_at codes.now k }
{
    code_in(codes[2 * k], codes[2 * k + 1])
}

// The code of a line's task, by the line's number; only an instruction has one, or a fault.
fn code_line(
    labels: &Labels<'_>,
    address: u32,
    task: Task,
    line: usize,
) -> Result<Option<ManualCode>, Refusal>
    requires { CodeNeeds labels.now address task }
    ensures { CodeLineGives labels.now.table (put_of labels.now.source address task) line result }
{
    // A guard, so that the faults stand in one `match` and not in one within another.
    let Task::Instruction(span) = task else {
        return Ok(None);
    };
    let source = labels.source();
    match encode_manual::encode_manual(labels, address, &source[span.start..span.end]) {
        Ok(code) => Ok(Some(code)),
        Err(Fault::NoEncoding(_)) => Err(Refusal::NoEncoding(line)),
        Err(Fault::OutOfReach(_)) => Err(Refusal::OutOfReach(line)),
    }
}

/// Refusal 14 or 15 of the first line that has a fault; or how many words the list has, and then every line's code is kept.
pub fn find_fault(
    labels: &Labels<'_>,
    cells: &[u32],
    codes: &mut [u32],
    pass: Pass,
) -> Result<usize, Refusal>
    requires { FindFaultNeeds labels.now cells.now codes.old pass }
    ensures answer { answer_of result ≡ counted (encoded_manual (pass_in labels.now cells.now pass)) }
    ensures codes { OnOk result (CodesHeld labels.now cells.now codes.new pass) }
{
    let mut address = pass.base;
    let mut count = pass.values;
    // By number: a line's cells are found by it, and a fault tells it.
    for k in 0..pass.lines {
        let kept = cells::kept_line(cells, k);
        let code = code_line(labels, address, kept.task, k + 1)?;
        let (head, tail) = cells_of(code);
        cells::put_cells(codes, k, head, tail);
        // By `as`: `usize` has no `From<u32>`, and an accepted line's address has 32 bits.
        count += (head % 4) as usize;
        address = cells::address_after(kept, pass.base, address) as u32;
    }
    Ok(count)
}
