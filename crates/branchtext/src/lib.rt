#![tactic(auto)]

//! What `asmlist` and `whyline` print for a script that was read chunk by chunk, and under a branch table that was read before it
//! where one is lent. A text is put at the front of a slice that is lent: there is no heap.
ghost use Rattle.std.specs.Prelude.{◌≡◌, min};
ghost use Rattle.rules.specs.Text.{Text};
ghost use Rattle.requests.specs.Branches.{checked};
ghost use Rattle.station.specs.Station.{script_text};
ghost use Rattle.station.specs.Printed.{Printed};
ghost use Rattle.station.specs.Reads.{Reads};
ghost use Rattle.whytext.specs.WhyLine.{why_text};
ghost use Rattle.branchtext.specs.BranchText.{list_under_text, line_under_text, lines_under_text, script_under_text, why_under_text, long_text, tabled_input_text, tabled_text};

use answer::Refusal;
use assemble::assemble_branches;
use branches::load_branches;
use explain::{Verdict, explain_branches, explain_lines_branches};
use rules::{MAX_LINES, MAX_SOURCE};
use station::input::Input;
use station::{PLACES, SCRIPT, TABLE, TEXT, script_text, write_answer, write_refusal};
use whytext::{LineAt, why_text, write_counted, write_explained};

// ---- A source under a table.

/// Puts the text for a source at a base under the table `names`, its list or the line of a refusal, at the front, and answers its length.
pub fn write_list_under(names: &[u8], source: &[u8], base: u32, out: &mut [u8; TEXT]) -> usize
    ensures { Printed (list_under_text names.now base source.now) result out.old out.new }
{
    let mut addresses = [0u32; PLACES];
    let mut words = [0u16; PLACES];
    let mut marks = [0u8; PLACES];
    let answer = assemble_branches(names, source, base, &mut addresses, &mut words, &mut marks);
    write_answer(answer, &addresses, &words, &marks, out)
}

/// Puts the verdict's line on a line of a source, from 1, or that of a refusal, at the front, and answers its length.
#[tactic(auto, using(station::proofs::Refusing::answer_by_refusal, whytext::proofs::Told::explained_text_lem), unfolding(crate::specs::BranchText::line_under_text))]
pub fn write_line_under(
    names: &[u8],
    source: &[u8],
    base: u32,
    line: usize,
    out: &mut [u8; TEXT],
) -> usize
    ensures { Printed (line_under_text names.now base line source.now) result out.old out.new }
{
    write_explained(explain_branches(names, source, base, line), out)
}

/// Puts the rows of every line of a source that is read, or the line of a refusal, at the front, and answers their length.
pub fn write_lines_under(names: &[u8], source: &[u8], base: u32, out: &mut [u8; TEXT]) -> usize
    ensures { Printed (lines_under_text names.now base source.now) result out.old out.new }
{
    let mut verdicts = [Verdict::Emitted; MAX_LINES];
    let answer = explain_lines_branches(names, source, base, &mut verdicts);
    write_counted(answer, &verdicts, out)
}

// ---- A table and a script, the first bytes of arrays: as many as are kept.

// How many bytes of a table are kept.
fn kept_size(table: Input) -> usize
    ensures { result ≡ min 97 table.total }
{
    TABLE.min(table.total)
}

// Puts the line for a script over the limit at the front, and answers its length: a table that is refused comes first.
#[tactic(auto, using(crate::proofs::Under::long_accepted, crate::proofs::Under::long_refused))]
fn write_long(table: &[u8], total: usize, out: &mut [u8; TEXT]) -> usize
    ensures { Printed (long_text (checked table.now) total) result out.old out.new }
{
    match load_branches(table) {
        Ok(_) => write_refusal(Refusal::LongSource(total), out),
        Err(refusal) => write_refusal(refusal, out),
    }
}

// Puts what `whyline` prints under a table at the front, and answers its length.
#[tactic(auto, unfolding(crate::specs::BranchText::why_under_text))]
fn write_why(table: &[u8], script: &[u8], asked: Option<LineAt>, out: &mut [u8; TEXT]) -> usize
    ensures { Printed (why_under_text asked table.now script.now) result out.old out.new }
{
    match asked {
        // `as`: usize has no From<u32>.
        Some(LineAt { line, base }) => write_line_under(table, script, base, line as usize, out),
        None => write_lines_under(table, script, 0, out),
    }
}

// ---- What the programs print, where a table is lent or not. The two are not one function over closures for what they print: each closure
// would carry the contract of both prints. The flag is no Option of the table's Input: a program goes on by an Input, and says by it what
// failed, with a table and without.

/// Puts what `asmlist` prints at the front, and answers its length: nothing if the script, or a table that is lent, was not read whole.
pub fn tabled_script_text(
    lent: bool,
    table: &[u8; TABLE],
    branches: Input,
    script: &[u8; SCRIPT],
    input: Input,
    out: &mut [u8; TEXT],
) -> usize
    ensures printed { Printed (tabled_input_text lent script_text script_under_text branches table.now input script.now) result out.old out.new }
    ensures script_value { (t s : Text) → Reads t table.now branches → Reads s script.now input → tabled_input_text lent script_text script_under_text branches table.now input script.now ≡ tabled_text lent script_text script_under_text branches t input s }
{
    if !lent {
        return script_text(script, input, out);
    }
    if branches.failed {
        return 0;
    }
    if input.failed {
        return 0;
    }
    let kept = kept_size(branches);
    let total = input.total;
    if MAX_SOURCE < total {
        return write_long(&table[..kept], total, out);
    }
    write_list_under(&table[..kept], &script[..total], 0, out)
}

/// Puts what `whyline` prints for the lines that are asked for at the front, and answers its length: nothing if the script, or a table that
/// is lent, was not read whole.
// Seven parameters: the two arrays, with where their readers stand, are `main`'s, which lends them: there is no heap.
pub fn tabled_why_text(
    lent: bool,
    table: &[u8; TABLE],
    branches: Input,
    script: &[u8; SCRIPT],
    input: Input,
    asked: Option<LineAt>,
    out: &mut [u8; TEXT],
) -> usize
    ensures printed { Printed (tabled_input_text lent (why_text asked) (why_under_text asked) branches table.now input script.now) result out.old out.new }
    ensures script_value { (t s : Text) → Reads t table.now branches → Reads s script.now input → tabled_input_text lent (why_text asked) (why_under_text asked) branches table.now input script.now ≡ tabled_text lent (why_text asked) (why_under_text asked) branches t input s }
{
    if !lent {
        return why_text(script, input, asked, out);
    }
    if branches.failed {
        return 0;
    }
    if input.failed {
        return 0;
    }
    let kept = kept_size(branches);
    let total = input.total;
    if MAX_SOURCE < total {
        return write_long(&table[..kept], total, out);
    }
    write_why(&table[..kept], &script[..total], asked, out)
}
