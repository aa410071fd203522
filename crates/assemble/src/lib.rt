#![tactic(auto)]

//! The assembler: the list of a source at a base in three lent slices; the same under a branch table; and by the manual's own words.
//! The three slices stand side by side, since C lends them so, and no memory is there for an array of places.
ghost use Rattle.std.specs.Prelude.{◌≡◌, ◌≤◌, ◌+◌, ◌*◌, ◌<◌, ◌^◌, min, false, Result, IfOk, IfErr, OnOk, length, [], List, None, Some};
ghost use Rattle.rules.specs.Limits.{max_labels, max_lines};
ghost use Rattle.rules.specs.Text.{cut_at};
ghost use Rattle.rules.specs.Encode.{encode_by};
ghost use Rattle.rules.specs.Answer.{Answer};
ghost use Rattle.rules.specs.Assemble.{Pass as Passed, Place, slices, short, write_list, encoded, second_pass_by, assemble_answer, assemble_slices};
ghost use Rattle.requests.specs.Branches.{assemble_under_answer, assemble_under_slices};
ghost use Rattle.requests.specs.ManualAssemble.{manual_answer, manual_slices};
ghost use Rattle.answer.specs.Refusal.{answer_of};
ghost use Rattle.label.specs.Table.{hashes};
ghost use Rattle.first.specs.Pass.{pass_in, HoldsBy, Holds};
ghost use Rattle.emit.specs.Emit.{names_of};
ghost use Rattle.assemble.specs.Assembled.{list_by, called, fits, Refuses, Starting};

use answer::Refusal;
use emit::Encoding;
use emit::places::Places;
use first::{Pass, ScriptSizes, Sizing};
use label::Labels;

pub mod manual_call; // manual_call.rt: the manual's sizes, and its second pass

// `sheet` has these too, for arrays of its own: in `first`, whose callers lend all that it fills, they would be three more public names.

/// The most lines whose labels, two a line, have room in a small table.
const SHORT: usize = label::SMALL_LABELS / 2;

/// Cells for the lines of such a source, two a line.
const SHORT_CELLS: usize = 2 * SHORT;

/// Cells for the most lines that a source may have.
const LONG_CELLS: usize = 2 * rules::MAX_LINES;

/// An assembling call: the sizes that its first pass goes by, and its second pass.
trait Call {
    type Sizes: Sizing;

    // What the second pass makes of the first one's.
    ghost list: { Self → Passed → Answer (List Place) };

    /// The list in the first places of the three slices, and its count; or refused, with nothing written.
    fn second_pass(
        &self,
        labels: &Labels<'_>,
        cells: &[u32],
        pass: Pass,
        addresses: &mut [u32],
        words: &mut [u16],
        marks: &mut [u8],
    ) -> Result<usize, Refusal>
        requires holds { HoldsBy Self.Sizes.sizes labels.now cells.now pass }
        requires few { length cells.now ≤ 2 * max_lines }
        ensures answer { answer_of result ≡ called (list self.now (pass_in labels.now cells.now pass)) (slices addresses.old words.old marks.old) }
        ensures slices { slices addresses.new words.new marks.new ≡ write_list (list self.now (pass_in labels.now cells.now pass)) (slices addresses.old words.old marks.old) };
}

/// Refused where the slices have no room for the list. It is counted only where two places a line, the most that it has, would not do.
// Like `second_pass` in its parameters alone: it only looks at the slices.
fn fit_list(
    names: Option<&[u8]>,
    labels: &Labels<'_>,
    cells: &[u32],
    pass: Pass,
    addresses: &[u32],
    words: &[u16],
    marks: &[u8],
) -> Result<(), Refusal>
    requires { Holds labels.now cells.now pass }
    ensures answer { answer_of result ≡ fits (slices addresses.now words.now marks.now) (second_pass_by (encode_by (names_of names.entry)) (pass_in labels.now cells.now pass)) }
    ensures room { OnOk result (short (slices addresses.now words.now marks.now) (length (second_pass_by (encode_by (names_of names.entry)) (pass_in labels.now cells.now pass))) ≡ false) }
{
    if !answer::is_short(addresses, words, marks, 2 * pass.lines) {
        return Ok(());
    }
    let count = emit::count_words(names, labels, cells, pass);
    if answer::is_short(addresses, words, marks, count) {
        return Err(Refusal::ShortSlice(count));
    }
    Ok(())
}

/// The words of a script, by the names in use.
// No `==`: it is made for one call, and never compared.
#[derive(Clone, Copy)]
struct Script<'a> {
    names: Option<&'a [u8]>,
}

impl<'a> Call for Script<'a> {
    type Sizes = ScriptSizes;

    ghost list = { λ call. encoded (encode_by (names_of call.names)) };

    fn second_pass(
        &self,
        labels: &Labels<'_>,
        cells: &[u32],
        pass: Pass,
        addresses: &mut [u32],
        words: &mut [u16],
        marks: &mut [u8],
    ) -> Result<usize, Refusal> {
        fit_list(self.names, labels, cells, pass, addresses, words, marks)?;
        let mut places = Places::new(addresses, words, marks);
        let words = Encoding::Named(self.names);
        let count = emit::emit_words(words, labels, cells, pass, &mut places);
        Ok(count)
    }
}

/// How many lines a source has that refusals 1 to 4 let pass.
fn start(source: &[u8], base: u32) -> Result<usize, Refusal>
    ensures starting { OnOk result (Starting source.now base) }
    ensures lines { IfOk result (λ lines. lines ≡ length (cut_at 10 source.now)) }
    ensures refused { IfErr result (Refuses source.now base) }
{
    let lines = source::check_source(source)?;
    if base >= rules::ADDRESS_LIMIT {
        return Err(Refusal::HighBase);
    }
    Ok(lines)
}

/// Both passes over a source, with labels and cells that are lent.
// The cells come last: with them before the slices a script takes 1 in 100 instructions more.
fn passes_in<C: Call>(
    call: &C,
    labels: &mut Labels<'_>,
    base: u32,
    addresses: &mut [u32],
    words: &mut [u16],
    marks: &mut [u8],
    cells: &mut [u32],
) -> Result<usize, Refusal>
    requires starting { Starting labels.old.source base }
    requires empty { labels.old.table ≡ [] }
    requires rows { min (2 * length (cut_at 10 labels.old.source)) max_labels ≤ labels.old.room }
    requires lines { 2 * length (cut_at 10 labels.old.source) ≤ length cells.old }
    requires few { length cells.old ≤ 2 * max_lines }
    ensures answer { answer_of result ≡ called (list_by C.Sizes.sizes (C.list call.now) base labels.old.source) (slices addresses.old words.old marks.old) }
    ensures slices { slices addresses.new words.new marks.new ≡ write_list (list_by C.Sizes.sizes (C.list call.now) base labels.old.source) (slices addresses.old words.old marks.old) }
{
    let pass = first::first_pass::<C::Sizes>(labels, base, cells)?;
    call.second_pass(labels, cells, pass, addresses, words, marks)
}

/// The same, with a table and cells of these sizes.
fn passes_with<C: Call, const TABLE: usize, const CELLS: usize>(
    call: &C,
    source: &[u8],
    base: u32,
    addresses: &mut [u32],
    words: &mut [u16],
    marks: &mut [u8],
) -> Result<usize, Refusal>
    requires starting { Starting source.now base }
    requires table { hashes + 4 * min (2 * length (cut_at 10 source.now)) max_labels ≤ TABLE }
    requires cells { 2 * length (cut_at 10 source.now) ≤ CELLS }
    requires small { TABLE < 2 ^ 32 }
    requires few { CELLS ≤ 2 * max_lines }
    ensures answer { answer_of result ≡ called (list_by C.Sizes.sizes (C.list call.now) base source.now) (slices addresses.old words.old marks.old) }
    ensures slices { slices addresses.new words.new marks.new ≡ write_list (list_by C.Sizes.sizes (C.list call.now) base source.now) (slices addresses.old words.old marks.old) }
{
    let mut table = [0; TABLE];
    let mut cells = [0; CELLS];
    let mut labels = Labels::new(source, &mut table);
    passes_in(call, &mut labels, base, addresses, words, marks, &mut cells)
}

/// The whole call: refusals 1 to 4, and both passes. A shorter source has a smaller table and fewer cells, since they are cleared for each
/// call.
fn assemble_by<C: Call>(
    call: &C,
    source: &[u8],
    base: u32,
    addresses: &mut [u32],
    words: &mut [u16],
    marks: &mut [u8],
) -> Result<usize, Refusal>
    ensures answer { answer_of result ≡ called (list_by C.Sizes.sizes (C.list call.now) base source.now) (slices addresses.old words.old marks.old) }
    ensures slices { slices addresses.new words.new marks.new ≡ write_list (list_by C.Sizes.sizes (C.list call.now) base source.now) (slices addresses.old words.old marks.old) }
{
    let lines = start(source, base)?;
    if lines <= SHORT {
        passes_with::<C, { label::SMALL }, SHORT_CELLS>(call, source, base, addresses, words, marks)
    } else {
        passes_with::<C, { label::TABLE }, LONG_CELLS>(call, source, base, addresses, words, marks)
    }
}

/// Assembles a source at a base: the list's count, with the list in the first places of the three slices, or refused, with nothing written.
/// A place is a word: its address in bytes, the word, and its mark, 1 on a label's address and else 0. Refusals come in this order: 1, 2, 3,
/// 4, line by line 6 before 5, then 7.
#[tactic(auto, unfolding(rules::specs::Assemble::assemble_answer, rules::specs::Assemble::assemble_slices, rules::specs::Assemble::assemble_by, branches::specs::Branch::names_in))]
pub fn assemble(
    source: &[u8],
    base: u32,
    addresses: &mut [u32],
    words: &mut [u16],
    marks: &mut [u8],
) -> Result<usize, Refusal>
    ensures answer { answer_of result ≡ assemble_answer base source.now (slices addresses.old words.old marks.old) }
    ensures slices { slices addresses.new words.new marks.new ≡ assemble_slices base source.now (slices addresses.old words.old marks.old) }
{
    assemble_by(
        &Script { names: None },
        source,
        base,
        addresses,
        words,
        marks,
    )
}

/// The same under the branch table `names`, which is refused before all else, by 16 or 17 at an offset in it.
pub fn assemble_branches(
    names: &[u8],
    source: &[u8],
    base: u32,
    addresses: &mut [u32],
    words: &mut [u16],
    marks: &mut [u8],
) -> Result<usize, Refusal>
    ensures answer { answer_of result ≡ assemble_under_answer names.now base source.now (slices addresses.old words.old marks.old) }
    ensures slices { slices addresses.new words.new marks.new ≡ assemble_under_slices names.now base source.now (slices addresses.old words.old marks.old) }
{
    branches::load_branches(names)?;
    assemble_by(
        &Script { names: Some(names) },
        source,
        base,
        addresses,
        words,
        marks,
    )
}

/// The same by the manual's sizes and words. A label's address is a long, in two places with marks 2 and 3, its high word first; any other
/// place has mark 0. Before 7 comes 14 or 15, with the first line that has one: 14 for an instruction without an encoding there, 15 where
/// the only fault is a displacement out of reach.
#[tactic(auto, unfolding(requests::specs::ManualAssemble::manual_answer, requests::specs::ManualAssemble::manual_slices, requests::specs::ManualAssemble::assemble_manual))]
pub fn assemble_manual(
    source: &[u8],
    base: u32,
    addresses: &mut [u32],
    words: &mut [u16],
    marks: &mut [u8],
) -> Result<usize, Refusal>
    ensures answer { answer_of result ≡ manual_answer base source.now (slices addresses.old words.old marks.old) }
    ensures slices { slices addresses.new words.new marks.new ≡ manual_slices base source.now (slices addresses.old words.old marks.old) }
{
    assemble_by(&manual_call::Manual, source, base, addresses, words, marks)
}
