#![tactic(auto)]

//! The tidy copy of a source: each line that is read, written one after another. A copy is never longer than its source, so the
//! writers ask for as much room as the text that they copy has. There is no heap: the copy is put at the front of a slice that is lent.
ghost use Rattle.std.specs.Prelude.{◌≡◌, ◌+◌, ◌<◌, ◌≤◌, length, take};
ghost use Rattle.rules.specs.Limits.{max_source};
ghost use Rattle.rules.specs.Text.{Text};
ghost use Rattle.rules.specs.Line.{is_data};
ghost use Rattle.rules.specs.Assemble.{over};
ghost use Rattle.answer.specs.Refusal.{answer_of};
ghost use Rattle.line.specs.Line.{task_at};
ghost use Rattle.listing.specs.Writer.{Adds};
ghost use Rattle.requests.specs.Tidy.{squeezed, around_colon, tidy_rest, tidy, room_for, tidy_answer, write_copy, tidy_slice};
ghost use Rattle.tidied.specs.Copy.{named, second_colon, way_of, line_break, addition};

use answer::Refusal;
use line::Task;
use listing::writer::Writer;

// ---- One line.

// The pieces of a text, joined by one space in the rest of the slice.
fn squeeze(t: &[u8], copy: &mut Writer<'_>)
    requires { copy.old.len + length t.now ≤ length copy.old.out.now }
    ensures { Adds (squeezed t.now) copy.old copy.new }
{
    let m = instruction::join_pieces(t, 0, &mut copy.out[copy.len..]);
    copy.len += m;
}

// Upper-cased, the text contains `DC.` or `DS.`.
#[tactic(auto, unfolding(rules::specs::Line::is_data, rules::specs::Text::bytes))]
fn is_data(s: &[u8]) -> bool
    ensures { result ≡ is_data s.now }
{
    text::contains_upper(s, b"DC.") || text::contains_upper(s, b"DS.")
}

// The name before the colon at c, without the blanks around it, and the colon.
fn write_name(s: &[u8], c: usize, copy: &mut Writer<'_>)
    requires { (c < length s.now) × (copy.old.len + length s.now ≤ length copy.old.out.now) }
    ensures { Adds (named (take c s.now)) copy.old copy.new }
{
    copy.push_bytes(text::trimmed(&s[..c]));
    copy.push(b':');
}

// The first colon of what follows a colon, which is looked for only where this is data. No `then`: what is found is an `Option` itself.
#[tactic(auto, unfolding(crate::specs::Copy::second_colon))]
fn second_colon(s: &[u8]) -> Option<usize>
    ensures { result ≡ second_colon s.now }
{
    if is_data(s) {
        text::find_byte(s, b':')
    } else {
        None
    }
}

// What follows the first colon. One function with `write_parts` by a closure for the rest is no plainer: the colon and the trim differ.
#[tactic(auto, using(crate::proofs::Colons::second_within))]
fn write_rest(s: &[u8], copy: &mut Writer<'_>)
    requires { copy.old.len + length s.now ≤ length copy.old.out.now }
    ensures { Adds (tidy_rest s.now) copy.old copy.new }
{
    match second_colon(s) {
        Some(c) => {
            write_name(s, c, copy);
            squeeze(&s[c + 1..], copy);
        }
        None => squeeze(s, copy),
    }
}

// A line that reaches step 4, without its outer blanks: the texts around its first colon.
#[tactic(auto, using(crate::proofs::Colons::colon_within))]
fn write_parts(s: &[u8], copy: &mut Writer<'_>)
    requires { copy.old.len + length s.now ≤ length copy.old.out.now }
    ensures { Adds (around_colon tidy_rest s.now) copy.old copy.new }
{
    match text::find_byte(s, b':') {
        Some(c) => {
            write_name(s, c, copy);
            write_rest(text::trimmed(&s[c + 1..]), copy);
        }
        None => squeeze(s, copy),
    }
}

// ---- The lines.

// How a line is copied.
#[derive(Clone, Copy, Debug, PartialEq, Eq, Hash)]
enum Way {
    // Its pieces, joined by one space.
    Squeezed,
    // The same of the texts around its colons.
    Parted,
}

// The way of a line that is copied, by its task.
#[tactic(auto, unfolding(crate::specs::Copy::way_of))]
fn way_of(task: Task) -> Option<Way>
    ensures { (source : Text) → result ≡ way_of (task_at source task) }
{
    match task {
        Task::Skipped => None,
        Task::End | Task::Org(_) | Task::NoOrg => Some(Way::Squeezed),
        Task::LabelOnly | Task::Instruction(_) | Task::Value(_, _) | Task::Space(_) => {
            Some(Way::Parted)
        }
    }
}

// A byte 10, unless nothing is written yet.
fn put_break(copy: &mut Writer<'_>)
    requires { copy.old.len + length (line_break copy.old.len) ≤ length copy.old.out.now }
    ensures { Adds (line_break copy.old.len) copy.old copy.new }
{
    if copy.len != 0 {
        copy.push(b'\n');
    }
}

// A line's copy, if it has a way; s has no outer blanks.
fn add_line(s: &[u8], way: Option<Way>, copy: &mut Writer<'_>)
    requires { copy.old.len + length (line_break copy.old.len) + length s.now ≤ length copy.old.out.now }
    ensures { Adds (addition way copy.old.len s.now) copy.old copy.new }
{
    if let Some(way) = way {
        put_break(copy);
        match way {
            Way::Squeezed => squeeze(s, copy),
            Way::Parted => write_parts(s, copy),
        }
    }
}

// The copies of a source's lines, where nothing is written yet.
fn write_lines(source: &[u8], copy: &mut Writer<'_>)
    requires empty { copy.old.len ≡ 0 }
    requires room { length source.now ≤ length copy.old.out.now }
    ensures { Adds (tidy source.now) copy.old copy.new }
{
    let mut at = 0;
    // Where the next line starts comes of this one, so this is no `for`.
    loop {
        let o = outline::outline_line(source, at);
        let end = o.end;
        let line = line::read_line(source, at, o);
        let task = line.task;
        let way = way_of(task);
        let s = text::trimmed(&source[at..end]);
        add_line(s, way, copy);
        if line::is_end(task) || end == source.len() {
            return;
        }
        at = end + 1;
    }
}

// ---- The call.

// The copy of a source at the front of `out`; its length.
fn write_source(source: &[u8], out: &mut [u8]) -> usize
    requires { length source.now ≤ length out.old }
    ensures value { result ≡ length (tidy source.now) }
    ensures out_after { out.new ≡ over (tidy source.now) out.old }
{
    let mut copy = Writer::new(out);
    write_lines(source, &mut copy);
    copy.len
}

// The copy of a source for which `out` may be too short: it is made apart first.
fn copy_apart(source: &[u8], out: &mut [u8]) -> Result<usize, Refusal>
    requires { length source.now ≤ max_source }
    ensures value { answer_of result ≡ room_for (length out.old) (tidy source.now) }
    ensures out_after { out.new ≡ write_copy (room_for (length out.old) (tidy source.now)) (tidy source.now) out.old }
{
    let mut copy = [0u8; rules::MAX_SOURCE];
    let n = write_source(source, &mut copy);
    if out.len() < n {
        return Err(Refusal::LongCopy(n));
    }
    listing::writing::write_bytes(out, 0, &copy[..n]);
    Ok(n)
}

/// The tidy copy of a source at the front of `out`; its length. Refuses by 1 to 3 as assembling does, then by 18, with the length
/// needed as place, if `out` is shorter; a refusal writes nothing, and bytes after the copy stay.
pub fn tidy_copy(source: &[u8], out: &mut [u8]) -> Result<usize, Refusal>
    ensures value { answer_of result ≡ tidy_answer (length out.old) source.now }
    ensures out_after { out.new ≡ tidy_slice source.now out.old }
{
    source::check_source(source)?;
    if source.len() <= out.len() {
        return Ok(write_source(source, out));
    }
    copy_apart(source, out)
}
