#![tactic(auto)]

//! What `lagvettu list` prints for a source, an assembly listing for people: a row for each line with its address and its words, or
//! why it has none, and the labels under the rows. It goes by the lines that the first pass kept, by the names in use, as in `branches`.
//! A text is put at the front of a slice that is lent: there is no heap.
ghost use Rattle.std.specs.Prelude.{◌≡◌, cond, ℕ, ◌+◌, ◌≤◌, eqb, length as len, []};
ghost use mathlib.Core.List.{flat_map};
ghost use Rattle.std.specs.Option.{option_copied};
ghost use Rattle.rules.specs.Line.{lines_of};
ghost use Rattle.rules.specs.Directive.{line_reading};
ghost use Rattle.line.specs.declared.Task.TheVariants.{End};
ghost use Rattle.cells.specs.Puts.{puts_of};
ghost use Rattle.outline.specs.Lines.{lines_from};
ghost use Rattle.branches.specs.Branch.{names_in};
ghost use Rattle.first.specs.Pass.{pass_in, Holds};
ghost use Rattle.encode.specs.Code.{places_of};
ghost use Rattle.directive.specs.Directive.{line_number_of};
ghost use Rattle.explain.specs.Lines.{WhyTaskNeeds};
ghost use Rattle.listing.specs.Listing.{digits_of};
ghost use Rattle.listing.specs.Writer.{Adds};
ghost use Rattle.station.specs.Printed.{Printed};
ghost use Rattle.station.specs.Puts.{Puts};
ghost use Rattle.symtext.specs.Symlist.{symbols_text};
ghost use Rattle.whytext.specs.Verdicts.{said_of};
ghost use Rattle.printout.specs.Printout.{padded, word_text, words_text, front_text, end_text, row_text, places_of_put, read_row, unread_row, rows_from, under_rows, page_text, printout_by, printout_of, told_text, printout_text, printout_under};
ghost use Rattle.printout.specs.Rows.{shown_verdict, put_of, line_at, LineNeeds, LinesNeeds, RowsGive};

use answer::Refusal;
use encode::Code;
use explain::Verdict;
use first::Pass;
use label::Labels;
use line::Task;
use listing::writer::Writer;
use station::{TEXT, write_refusal};
use text::Span;
use whytext::push_verdict;

/// As many bytes as a row has at most besides those of its line.
pub const ROW: usize = 58;

// As many as the labels' lines have at most.
const SYMBOLS: usize = 131072;

/// As many as a printout has at most: the rows of all lines, the source's own bytes, an empty line, and the labels.
pub const PRINTOUT: usize = ROW * rules::MAX_LINES + rules::MAX_SOURCE + 2 + SYMBOLS;

// ---- Columns.

// Writes a line's number in 4 columns.
fn push_number(line: usize, text: &mut Writer<'_>)
    requires { (line ≤ 9999) × (text.old.len + 4 ≤ len text.old.out.now) }
    ensures text { Adds (padded line) text.old text.new }
    ensures len { text.new.len ≡ text.old.len + 4 }
{
    // Written apart, since their count says how many spaces stand before them.
    let mut digits = [0u8; 20];
    let mut number = Writer::new(&mut digits);
    // By `as`: `u64` has no `From<usize>`.
    number.push_decimal(line as u64);
    let n = number.len;
    let spaces: &[u8] = b"    ";
    text.push_bytes(&spaces[n..]);
    text.push_bytes(&digits[..n]);
}

// What stands after a word: `*` if its mark is not 0.
fn mark_sign(mark: u8) -> u8
    ensures { result ≡ cond (eqb mark 0) 32 42 }
{
    if mark == 0 { b' ' } else { b'*' }
}

// Writes a word in 5 columns.
fn push_word(word: u16, mark: u8, text: &mut Writer<'_>)
    requires { text.old.len + 5 ≤ len text.old.out.now }
    ensures text { Adds (word_text word mark) text.old text.new }
    ensures len { text.new.len ≡ text.old.len + 5 }
{
    text.push_digits(16, 4, u64::from(word));
    text.push(mark_sign(mark));
}

// Writes a code's words in 10 columns.
#[tactic(auto, unfolding(crate::specs::Printout::words_text, rules::specs::Text::bytes))]
fn push_code(code: Option<Code>, text: &mut Writer<'_>)
    requires { text.old.len + 10 ≤ len text.old.out.now }
    ensures text { (a : ℕ) → Adds (words_text (places_of a code)) text.old text.new }
    ensures len { text.new.len ≡ text.old.len + 10 }
{
    match code {
        None => text.push_bytes(b"          "),
        Some(Code::Word(w)) => {
            push_word(w, 0, text);
            text.push_bytes(b"     ");
        }
        Some(Code::Value(w, v)) => {
            push_word(w, 0, text);
            push_word(v, 0, text);
        }
        Some(Code::Label(w, x)) => {
            push_word(w, 0, text);
            push_word(x, 1, text);
        }
    }
}

// ---- Rows.

// Writes what stands before a line's own bytes.
fn push_front(line: usize, address: u32, code: Option<Code>, text: &mut Writer<'_>)
    requires { (line ≤ 9999) × (text.old.len + 27 ≤ len text.old.out.now) }
    ensures text { Adds (front_text line (digits_of 16 8 address) (words_text (places_of address code))) text.old text.new }
    ensures len { text.new.len ≡ text.old.len + 27 }
{
    push_number(line, text);
    text.push_bytes(b"  ");
    text.push_digits(16, 8, u64::from(address));
    text.push_bytes(b"  ");
    push_code(code, text);
    text.push(b' ');
}

// Writes what stands after them.
#[tactic(auto, unfolding(crate::specs::Printout::end_text))]
fn push_end(code: Option<Code>, reason: Verdict, text: &mut Writer<'_>)
    requires { text.old.len + 31 ≤ len text.old.out.now }
    ensures { (a : ℕ) → Adds (end_text (places_of a code) (said_of reason)) text.old text.new }
{
    match code {
        Some(_) => text.push(b'\n'),
        None => {
            text.push_bytes(b"  <- ");
            push_verdict(reason, text);
        }
    }
}

// Writes the row of a line, given its bytes.
fn push_row(
    line: usize,
    address: u32,
    code: Option<Code>,
    reason: Verdict,
    bytes: &[u8],
    text: &mut Writer<'_>,
)
    requires { (line ≤ 9999) × (text.old.len + 58 + len bytes.now ≤ len text.old.out.now) }
    ensures text { Adds (row_text line address (places_of address code) (said_of reason) bytes.now) text.old text.new }
    ensures upper_bound { text.new.len ≤ text.old.len + 58 + len bytes.now }
{
    push_front(line, address, code, text);
    text.push_bytes(bytes);
    push_end(code, reason, text);
}

// ---- A line that is read.

// The verdict that is shown of a line: what failed in a directive's number, or the one that is given.
fn line_reason(text: &[u8], verdict: Verdict) -> Verdict
    ensures { result ≡ shown_verdict (line_number_of (line_reading text.now)) verdict }
{
    match directive::line_number(text) {
        Some(Err(failure)) => Verdict::from(failure),
        Some(Ok(_)) | None => verdict,
    }
}

// The words of a task that is read at an address, as a code: a value's, an instruction's, or none.
#[tactic(auto, unfolding(crate::specs::Printout::places_of_put, rules::specs::Assemble::data_places, rules::specs::Assemble::data_contents, rules::specs::Assemble::places_at, rules::specs::Assemble::code_places_by, rules::specs::Assemble::code_contents_by))]
fn task_code(names: Option<&[u8]>, labels: &Labels<'_>, address: u32, task: Task) -> Option<Code>
    requires { WhyTaskNeeds labels.now address task }
    ensures { places_of address result ≡ places_of_put (names_in (option_copied names.entry)) labels.now.table (put_of labels.now.source address task) }
{
    match task {
        Task::Value(_, v) => Some(Code::Value(
            opcode::word::high_word(v),
            opcode::word::low_word(v),
        )),
        Task::Instruction(span) => {
            let source = labels.source();
            encode::encode_instruction(names, labels, address, &source[span.start..span.end])
        }
        Task::Skipped | Task::End | Task::Org(_) | Task::NoOrg | Task::LabelOnly | Task::Space(_) =>
            None,
    }
}

// Writes the row of the line in a span, whose task is read at an address. A struct of these parameters would be taken apart at once.
fn push_read(
    names: Option<&[u8]>,
    labels: &Labels<'_>,
    address: u32,
    task: Task,
    line: usize,
    span: Span,
    text: &mut Writer<'_>,
)
    requires { WhyTaskNeeds labels.now address task × LineNeeds labels.now.source line span text.old }
    ensures text { Adds (read_row (names_in (option_copied names.entry)) labels.now.table (put_of labels.now.source address task) (line_at labels.now.source line span.start)) text.old text.new }
    ensures start_bound { text.new.len + span.start ≤ text.old.len + 58 + span.end }
{
    let code = task_code(names, labels, address, task);
    let bytes = &labels.source()[span.start..span.end];
    let reason = line_reason(bytes, explain::why_task(names, labels, address, task));
    push_row(line, address, code, reason, bytes, text);
}

// ---- Lines that are not read.

// Writes the row of a line after END.
fn push_unread(source: &[u8], line: usize, span: Span, text: &mut Writer<'_>)
    requires { LineNeeds source.now line span text.old }
    ensures text { Adds (unread_row (line_at source.now line span.start)) text.old text.new }
    ensures start_bound { text.new.len + span.start ≤ text.old.len + 58 + span.end }
{
    push_number(line, text);
    text.push_bytes(b"  not read             ");
    text.push_bytes(&source[span.start..span.end]);
    text.push(b'\n');
}

// Writes the rows of the lines from the one at `start` on, none of which is read.
fn push_unread_rows(source: &[u8], line: usize, start: usize, text: &mut Writer<'_>)
    requires { LinesNeeds source.now line start text.old }
    ensures { RowsGive source.now line start (flat_map unread_row (lines_from source.now line start)) text.old text.new }
{
    let mut k = line;
    let mut i = start;
    // No `for` over the numbers `k` either: only a line's end says where the next one starts, and so how many there are.
    while i <= source.len() {
        let end = outline::outline_line(source, i).end;
        push_unread(source, k, Span { start: i, end }, text);
        i = end + 1;
        k += 1;
    }
}

// ---- All lines.

// Writes the rows of the lines after the kept ones, from END on, which is read at an address.
fn push_rest(
    names: Option<&[u8]>,
    labels: &Labels<'_>,
    address: u32,
    line: usize,
    start: usize,
    text: &mut Writer<'_>,
)
    requires { WhyTaskNeeds labels.now address End × LinesNeeds labels.now.source line start text.old }
    ensures { (base : ℕ) → RowsGive labels.now.source line start (rows_from (names_in (option_copied names.entry)) labels.now.table base address [] (lines_from labels.now.source line start)) text.old text.new }
{
    let source = labels.source();
    if source.len() < start {
        return;
    }
    let end = outline::outline_line(source, start).end;
    let span = Span { start, end };
    push_read(names, labels, address, Task::End, line, span, text);
    push_unread_rows(source, line + 1, end + 1, text);
}

// Writes the rows of all lines.
fn push_rows(
    names: Option<&[u8]>,
    labels: &Labels<'_>,
    cells: &[u32],
    pass: Pass,
    text: &mut Writer<'_>,
)
    requires { Holds labels.now cells.now pass × LinesNeeds labels.now.source 1 0 text.old }
    ensures { RowsGive labels.now.source 1 0 (rows_from (names_in (option_copied names.entry)) labels.now.table pass.base pass.base (puts_of labels.now.source pass.base cells.now pass.lines) (lines_of labels.now.source)) text.old text.new }
{
    let mut address = pass.base;
    let source = labels.source();
    let mut i = 0;
    // By index: a line's cells are read at its number, and only its end says where the next one starts.
    for k in 0..pass.lines {
        let kept = cells::kept_line(cells, k);
        let end = outline::outline_line(source, i).end;
        let span = Span { start: i, end };
        push_read(names, labels, address, kept.task, k + 1, span, text);
        // By `as`: a kept line's address has 32 bits.
        address = cells::address_after(kept, pass.base, address) as u32;
        i = end + 1;
    }
    push_rest(names, labels, address, pass.lines + 1, i, text);
}

// ---- The printout.

// Writes an empty line and the labels, if there are labels.
fn push_labels(labels: &Labels<'_>, base: u32, text: &mut Writer<'_>)
    requires { (text.old.len + 131073 ≤ len text.old.out.now) × (len (symbols_text base labels.now.source) ≤ 131072) }
    ensures { Adds (under_rows labels.now.table (symbols_text base labels.now.source)) text.old text.new }
{
    if labels.len() == 0 {
        return;
    }
    // Put apart: `write_symbols` puts its text at an array's front.
    let mut symbols = [0u8; TEXT];
    let n = symtext::write_symbols(labels.source(), base, &mut symbols);
    text.push(b'\n');
    text.push_bytes(&symbols[..n]);
}

// Puts the printout of a source whose pass is kept at the front, and answers its length.
fn write_page(
    names: Option<&[u8]>,
    labels: &Labels<'_>,
    cells: &[u32],
    pass: Pass,
    out: &mut [u8],
) -> usize
    requires { Holds labels.now cells.now pass × (401410 ≤ len out.old) }
    ensures { Printed (page_text (names_in (option_copied names.entry)) pass.base labels.now.source (pass_in labels.now cells.now pass)) result out.old out.new }
{
    let mut text = Writer::new(out);
    push_rows(names, labels, cells, pass, &mut text);
    push_labels(labels, pass.base, &mut text);
    text.len
}

// Puts the printout of a source at a base, by the names in use, at the front, and answers its length; or refuses the source, and puts
// nothing.
fn put_printout_by(
    names: Option<&[u8]>,
    source: &[u8],
    base: u32,
    out: &mut [u8],
) -> Result<usize, Refusal>
    requires { 401410 ≤ len out.old }
    ensures { Puts (printout_by (names_in (option_copied names.entry)) base source.now) result out.old out.new }
{
    let mut table = [0u32; label::TABLE];
    let mut cells = [0u32; 2 * rules::MAX_LINES];
    let mut labels = Labels::new(source, &mut table);
    let pass = first::enter(&mut labels, base, &mut cells)?;
    Ok(write_page(names, &labels, &cells, pass, out))
}

/// Puts the printout of a source at a base, under the branch table `names` if one is lent, at the front, and answers its length; or
/// refuses the table, or the source after it, and puts nothing.
pub fn put_printout(
    names: Option<&[u8]>,
    source: &[u8],
    base: u32,
    out: &mut [u8],
) -> Result<usize, Refusal>
    requires { 401410 ≤ len out.old }
    ensures { Puts (printout_of (option_copied names.entry) base source.now) result out.old out.new }
{
    if let Some(table) = names {
        branches::load_branches(table)?;
    }
    put_printout_by(names, source, base, out)
}

// Puts the printout, or the line of a refusal, at the front, and answers its length.
fn write_printout_of(
    names: Option<&[u8]>,
    source: &[u8],
    base: u32,
    out: &mut [u8; PRINTOUT],
) -> usize
    ensures { Printed (told_text (printout_of (option_copied names.entry) base source.now)) result out.old out.new }
{
    match put_printout(names, source, base, out) {
        Ok(n) => n,
        Err(refusal) => write_refusal(refusal, out),
    }
}

/// Puts the printout of a source at a base, or the line of its refusal, at the front, and answers its length.
#[tactic(auto, unfolding(crate::specs::Printout::printout_of, crate::specs::Printout::printout_text))]
pub fn write_printout(source: &[u8], base: u32, out: &mut [u8; PRINTOUT]) -> usize
    ensures { Printed (printout_text base source.now) result out.old out.new }
{
    write_printout_of(None, source, base, out)
}

/// The same under the branch table `names`, which is refused before all else.
// Two calls, and no `Option` of a table: the public calls keep what they take.
#[tactic(auto, unfolding(crate::specs::Printout::printout_of, crate::specs::Printout::printout_under))]
pub fn write_printout_branches(
    names: &[u8],
    source: &[u8],
    base: u32,
    out: &mut [u8; PRINTOUT],
) -> usize
    ensures { Printed (printout_under names.now base source.now) result out.old out.new }
{
    write_printout_of(Some(names), source, base, out)
}
