#![tactic(auto)]

//! What a line says: the rules' six steps, answered by value: the labels that it records and its task, with places in the source.
ghost use Rattle.std.specs.Prelude.{◌≡◌, true, ◌||◌, ◌≤◌, length, take, drop, IfSome, None};
ghost use Rattle.rules.specs.Text.{Text, uppers, leading, trim, pieces, uncut, first_cut, contains, nth};
ghost use Rattle.rules.specs.Line.{reading_in, value_reading_in, data_size, is_directive, data_line, is_data, rest_line, label_line};
ghost use Rattle.rules.specs.Assemble.{is_end};
ghost use Rattle.text.specs.Spans.{part, span_text, SpanIn};
ghost use Rattle.numeral.specs.Number.{number_of};
ghost use Rattle.outline.specs.Outline.{OutlineLineGives};
ghost use Rattle.line.specs.Line.{names_of, task_at, Says, ReadLineGives};
ghost use Rattle.line.specs.Steps.{Trimmed, Whole, piece_in, line_by, org_of, data_of, PieceHeadGives, SplitLabelGives};

use numeral::Failure;
use outline::Outline;
use text::Span;

/// The labels of a line: step 4's, before a colon, and step 5's, before a directive.
#[derive(Clone, Copy, Debug, PartialEq, Eq, Hash)]
pub struct Names {
    pub first: Option<Span>,
    pub second: Option<Span>,
}

/// What a line asks of the passes.
#[derive(Clone, Copy, Debug, PartialEq, Eq, Hash)]
pub enum Task {
    /// Nothing: it is empty or a comment.
    Skipped,
    /// That no further line is read.
    End,
    /// Another address, by ORG's number.
    Org(u32),
    /// ORG without a number.
    NoOrg,
    /// Nothing but its label.
    LabelOnly,
    /// The words of the instruction whose text stands there.
    Instruction(Span),
    /// Data: its size and its value.
    Value(u32, u32),
    /// Data without a value: its size.
    Space(u32),
}

/// A line: its labels and its task.
#[derive(Clone, Copy, Debug, PartialEq, Eq, Hash)]
pub struct Line {
    pub names: Names,
    pub task: Task,
}

/// Whether a task ends the passes.
#[tactic(auto, using(crate::proofs::Clauses::end_alone), unfolding(rules::specs::Assemble::is_end))]
pub fn is_end(task: Task) -> bool
    ensures { (source : Text) → result ≡ is_end (task_at source task) }
{
    matches!(task, Task::End)
}

// ---- Parts of the line.

// The length of the trimmed text before a colon.
fn label_length(t: &[u8], colon: usize) -> usize
    requires { colon ≤ length t.now }
    ensures { result ≡ length (trim (take colon t.now)) }
{
    text::trimmed(&t[..colon]).len()
}

// The second piece from `at` on; empty where there is none.
#[tactic(auto, using(crate::proofs::Next::next_part, crate::proofs::Next::second_part, crate::proofs::Next::second_is))]
fn second_piece(t: &[u8], at: usize) -> &[u8]
    requires { at ≤ length t.now }
    ensures { nth 1 (pieces (drop at t.now)) ≡ piece_in result.now }
{
    let first = text::next_piece(t, at);
    let second = text::next_piece(t, first.end);
    &t[second.start..second.end]
}

/// ORG's number, the second piece from `at` on; without such a piece it has no digits.
#[tactic(auto, using(crate::proofs::Next::number_in))]
pub fn second_number(t: &[u8], at: usize) -> Result<u32, Failure>
    requires { at ≤ length t.now }
    ensures { result ≡ number_of (reading_in (nth 1 (pieces (drop at t.now)))) }
{
    numeral::unsigned::parse_u32(second_piece(t, at))
}

/// DC's value, the second piece from `at` on; without such a piece it has no digits.
#[tactic(auto, using(crate::proofs::Next::value_in))]
pub fn second_value(t: &[u8], at: usize) -> Result<u32, Failure>
    requires { at ≤ length t.now }
    ensures { result ≡ number_of (value_reading_in (nth 1 (pieces (drop at t.now)))) }
{
    sum::parse_value(second_piece(t, at))
}

// ---- Step 5: data.

// The text in upper case contains `p` or `q`.
fn contains_either(t: &[u8], p: &[u8], q: &[u8]) -> bool
    ensures { result ≡ (contains p.now (uppers t.now) || contains q.now (uppers t.now)) }
{
    text::contains_upper(t, p) || text::contains_upper(t, q)
}

// The piece starts DC or DS.
#[tactic(auto, unfolding(rules::specs::Line::is_directive, rules::specs::Text::bytes))]
fn is_directive(piece: &[u8]) -> bool
    ensures { result ≡ is_directive piece.now }
{
    text::starts_upper(piece, b"DC") || text::starts_upper(piece, b"DS")
}

// The size by what the text contains.
#[tactic(auto, unfolding(rules::specs::Line::data_size, rules::specs::Text::bytes))]
fn data_size(t: &[u8]) -> u32
    ensures { result ≡ data_size (uppers t.now) }
{
    if contains_either(t, b"DC.L", b"DS.L") {
        4
    } else if contains_either(t, b"DC.W", b"DS.W") {
        2
    } else if contains_either(t, b"DC.B", b"DS.B") {
        1
    } else {
        2
    }
}

// The data of a text: its size, and the value by its directive, from `at` on.
#[tactic(auto, using(crate::proofs::Data::task_none, crate::proofs::Data::task_some), unfolding(rules::specs::Text::bytes))]
fn data_task(t: &[u8], at: usize) -> Task
    requires { at ≤ length t.now }
    ensures { result ≡ data_of t.now (drop at t.now) }
{
    let size = data_size(t);
    if !text::contains_upper(t, b"DC.") {
        return Task::Space(size);
    }
    match second_value(t, at) {
        Ok(value) => Task::Value(size, value),
        Err(_) => Task::Space(size),
    }
}

/// Step 5 on a text: the length of the label in front, 0 without one, and where the directive starts.
// A length and no Option: the rules know an empty label and none alike (`nonempty`).
#[derive(Clone, Copy, Debug, PartialEq, Eq, Hash)]
pub struct DataHead {
    pub label: usize,
    pub directive: usize,
}

// The label and the directive of a text without a colon.
#[tactic(auto, using(crate::proofs::Directive::head_single, crate::proofs::Directive::head_directive, crate::proofs::Directive::head_piece, crate::proofs::Next::next_part))]
fn piece_head(t: &[u8]) -> DataHead
    requires { (leading t.now ≡ 0) × (first_cut 58 t.now ≡ uncut) }
    ensures { PieceHeadGives t.now result }
{
    let unlabelled = DataHead {
        label: 0,
        directive: 0,
    };
    let first = text::next_piece(t, 0);
    let at = first.end;
    let second = text::next_piece(t, at);
    if second.start == second.end {
        return unlabelled;
    }
    if is_directive(&t[..at]) {
        return unlabelled;
    }
    DataHead {
        label: at,
        directive: at,
    }
}

/// The label and the directive of any text.
#[tactic(auto, using(text::proofs::Find::indexed, text::proofs::Find::unindexed, crate::proofs::Directive::head_colon))]
pub fn data_head(t: &[u8]) -> DataHead
    requires { leading t.now ≡ 0 }
    ensures { PieceHeadGives t.now result }
{
    // Without a colon another head is due, and no None that `?` could hand on.
    let Some(colon) = text::find_byte(t, b':') else {
        return piece_head(t);
    };
    let label = label_length(t, colon);
    DataHead {
        label,
        directive: colon + 1,
    }
}

// Step 5 on `rest`, after the label of step 4.
#[tactic(auto, using(crate::proofs::Data::data_bare, crate::proofs::Data::data_named, crate::proofs::Data::label_end))]
fn data_line(source: &[u8], label: Option<Span>, rest: Span) -> Line
    requires { Trimmed source.now rest × IfSome label (SpanIn source.now) }
    ensures { Says source.now (data_line (names_of source.now label) rest.start (span_text source.now rest)) result }
{
    let start = rest.start;
    let t = &source[start..rest.end];
    let head = data_head(t);
    let length = head.label;
    let task = data_task(t, head.directive);
    // No `then_some`: the end is summed only where there is a label.
    let second = if 0 < length {
        Some(Span {
            start,
            end: start + length,
        })
    } else {
        None
    };
    Line {
        names: Names {
            first: label,
            second,
        },
        task,
    }
}

// ---- The six steps.

// A line with the label of step 4 alone.
fn line_with(label: Option<Span>, task: Task) -> Line
    ensures { result ≡ line_by label None task }
{
    Line {
        names: Names {
            first: label,
            second: None,
        },
        task,
    }
}

// Steps 5 and 6 on `rest`, after the label of step 4; without DC. or DS. in the line there is none in its rest.
#[tactic(auto, using(crate::proofs::Answers::says_data, crate::proofs::Answers::says_instruction, crate::proofs::Answers::says_undefined), unfolding(rules::specs::Line::is_data, rules::specs::Text::bytes))]
fn rest_line(source: &[u8], label: Option<Span>, rest: Span, defines: bool) -> Line
    requires { Trimmed source.now rest × IfSome label (SpanIn source.now) × (is_data (span_text source.now rest) ≡ true → defines ≡ true) }
    ensures { Says source.now (rest_line (names_of source.now label) rest.start (span_text source.now rest)) result }
{
    if defines {
        if contains_either(&source[rest.start..rest.end], b"DC.", b"DS.") {
            return data_line(source, label, rest);
        }
    }
    line_with(label, Task::Instruction(rest))
}

// The label of step 4, and the rest of the line.
#[derive(Clone, Copy, Debug, PartialEq, Eq, Hash)]
struct Split {
    label: Option<Span>,
    rest: Span,
}

// Step 4's cut at the colon, of a line's text from `start` to before `end`.
#[tactic(auto, using(crate::proofs::Answers::split_whole, crate::proofs::Answers::Labelled, crate::proofs::Answers::label_in, crate::proofs::Answers::after_in, crate::proofs::Answers::split_label))]
fn split_label(source: &[u8], start: usize, end: usize, colon: usize) -> Split
    requires { Whole source.now start end colon }
    ensures { SplitLabelGives source.now start end result }
{
    if end <= colon {
        return Split {
            label: None,
            rest: Span { start, end },
        };
    }
    let length = text::kept_length(&source[start..colon]);
    let label = Span {
        start,
        end: start + length,
    };
    Split {
        label: Some(label),
        rest: text::trimmed_span(source, colon + 1, end),
    }
}

// Step 4, then the others; `rest_line` is called at one place, so that it is inlined.
#[tactic(auto, using(crate::proofs::Answers::says_label, crate::proofs::Answers::says_labelled, crate::proofs::Answers::rest_told))]
fn label_line(source: &[u8], start: usize, end: usize, colon: usize, defines: bool) -> Line
    requires { Whole source.now start end colon × (is_data (part source.now start end) ≡ true → defines ≡ true) }
    ensures { Says source.now (label_line start (part source.now start end)) result }
{
    let split = split_label(source, start, end, colon);
    let rest = split.rest;
    if rest.start == rest.end {
        return line_with(split.label, Task::LabelOnly);
    }
    rest_line(source, split.label, rest, defines)
}

// Step 3.
fn org_task(number: Result<u32, Failure>) -> Task
    ensures { result ≡ org_of number }
{
    match number {
        Ok(value) => Task::Org(value),
        Err(_) => Task::NoOrg,
    }
}

/// The line that starts at `at`, whose outline is `o`: steps 1 to 3, then the others.
#[tactic(auto, using(crate::proofs::Answers::text_in, crate::proofs::Answers::Outlined, crate::proofs::Answers::inner_trimmed, crate::proofs::Answers::line_told, crate::proofs::Answers::line_whole, crate::proofs::Answers::says_empty, crate::proofs::Answers::says_note, crate::proofs::Answers::says_end, crate::proofs::Answers::says_org, crate::proofs::Answers::says_rest), unfolding(rules::specs::Text::bytes))]
pub fn read_line(source: &[u8], at: usize, o: Outline) -> Line
    requires { OutlineLineGives source.now at o × (at ≤ length source.now) }
    ensures { ReadLineGives source.now at result }
{
    let start = o.start;
    let end = start + text::kept_length(&source[start..o.end]);
    let t = &source[start..end];
    if t.len() == 0 {
        return line_with(None, Task::Skipped);
    }
    if t[0] == b';' {
        return line_with(None, Task::Skipped);
    }
    if text::starts_upper(t, b"END") {
        return line_with(None, Task::End);
    }
    if text::starts_upper(t, b"ORG") {
        return line_with(None, org_task(second_number(t, 0)));
    }
    label_line(source, start, end, o.colon, o.defines)
}
