#![tactic(auto)]

//! What `bench` prints for a list: the line of a run, or of one for each value of a threshold. There is no heap:
//! a line is put at the front of a slice that is lent.
pub mod arguments; // arguments.rt: what the arguments say

ghost use Rattle.std.specs.Prelude.{◌≡◌, cond, suc, ◌+◌, ◌-◌, ◌%◌, ◌≤◌, eqb, length as len};
ghost use Rattle.rules.specs.Text.{Text};
ghost use Rattle.rules.specs.Answer.{Answer};
ghost use Rattle.answer.specs.Refusal.{answer_of};
ghost use Rattle.machine.specs.Bench.{bench_of, bench_answer};
ghost use Rattle.listing.specs.Writer.{Adds};
ghost use Rattle.station.specs.Station.{unless_failed};
ghost use Rattle.station.specs.Printed.{Printed};
ghost use Rattle.station.specs.Reads.{Reads};
ghost use Rattle.benchtext.specs.BenchText.{end_text, long_text, registers_text, flag_byte, flags_text, run_text, value_text, answered_text, tried_text, with_value, value_for, run_line, words_for, row_of, words_tried, tried_rows, rows_of, row_text, row_count, input_row, input_rows};

use answer::Refusal;
use arguments::Given;
use listing::reading::read_list;
use listing::writer::Writer;
use machine::{End, Flags, MEMORY, Ran};
use station::input::Input;
use station::{LIST, PLACES, TEXT, write_refusal, write_wrong_line};
use stepper::{bench, check};

// ---- The parts of a line.

// Writes why a run ended.
#[tactic(auto, unfolding(crate::specs::BenchText::end_text, rules::specs::Text::bytes))]
fn push_end(text: &mut Writer<'_>, end: End)
    requires { text.old.len + 6 ≤ len text.old.out.now }
    ensures text { Adds (end_text end) text.old text.new }
    ensures short { text.new.len ≤ text.old.len + 6 }
{
    match end {
        End::OnHalt => text.push_bytes(b"halt"),
        End::OnWord => text.push_bytes(b"word"),
        End::OnAccess => text.push_bytes(b"access"),
        End::OnLimit => text.push_bytes(b"limit"),
    }
}

// Writes a space and a number of 32 bits in hexadecimal.
fn push_long(text: &mut Writer<'_>, n: u32)
    requires { text.old.len + 9 ≤ len text.old.out.now }
    ensures text { Adds (long_text n) text.old text.new }
    ensures len { text.new.len ≡ text.old.len + 9 }
{
    text.push(b' ');
    text.push_digits(16, 8, u64::from(n));
}

// Writes the data registers.
fn push_registers(text: &mut Writer<'_>, d: &[u32; 8])
    requires { text.old.len + 72 ≤ len text.old.out.now }
    ensures text { Adds (registers_text 8 d.now) text.old text.new }
    ensures len { text.new.len ≡ text.old.len + 72 }
{
    for &value in d {
        push_long(text, value);
    }
}

// A flag's digit.
#[tactic(auto, unfolding(crate::specs::BenchText::flag_byte))]
fn flag_byte(set: bool) -> u8
    ensures { result ≡ flag_byte set }
{
    if set { b'1' } else { b'0' }
}

// Writes a space, the flags and byte 10.
fn push_flags(text: &mut Writer<'_>, f: Flags)
    requires { text.old.len + 7 ≤ len text.old.out.now }
    ensures { Adds (flags_text f) text.old text.new }
{
    text.push_bytes(&[
        b' ',
        flag_byte(f.x),
        flag_byte(f.n),
        flag_byte(f.z),
        flag_byte(f.v),
        flag_byte(f.c),
        b'\n',
    ]);
}

// Writes a run's line.
fn push_run(text: &mut Writer<'_>, ran: Ran, d: &[u32; 8])
    requires { text.old.len + 128 ≤ len text.old.out.now }
    ensures { Adds (run_text ran.end ran.steps ran.status.pc d.now ran.status.flags) text.old text.new }
{
    push_end(text, ran.end);
    text.push(b' ');
    text.push_decimal(ran.steps);
    push_long(text, ran.status.pc);
    push_registers(text, d);
    push_flags(text, ran.status.flags);
}

// Writes a threshold's value in front of a run's line, if one is tried.
fn push_value(text: &mut Writer<'_>, value: Option<u16>)
    requires { text.old.len + 21 ≤ len text.old.out.now }
    ensures text { Adds (value_text value) text.old text.new }
    ensures short { text.new.len ≤ text.old.len + 21 }
{
    if let Some(value) = value {
        text.push_decimal(u64::from(value));
        text.push(b' ');
    }
}

// Writes the line of what the bench answered.
fn push_answer(
    text: &mut Writer<'_>,
    value: Option<u16>,
    answer: Result<Ran, Refusal>,
    d: &[u32; 8],
)
    requires { text.old.len + 160 ≤ len text.old.out.now }
    ensures { Adds (answered_text value (answer_of answer) d.now) text.old text.new }
{
    match answer {
        Ok(ran) => {
            push_value(text, value);
            push_run(text, ran, d);
        }
        Err(refusal) => text.push_refused(refusal.number(), refusal.place()),
    }
}

// ---- A threshold.

// Here and below `count` stands beside the slices: it is the caller's, and of more words than there are the bench says refusal 9. What
// `write_list_run` and `try_value` take are parameters of their own, as C lends them.

// A word of a list, or a value if it stands at the threshold's address.
fn word_at(address: u32, word: u16, threshold: u32, value: u16) -> u16
    ensures { result ≡ cond (eqb address threshold) value word }
{
    if address == threshold { value } else { word }
}

// Puts a value into each of the first `count` words that stand at the threshold's address.
fn set_value(addresses: &[u32], words: &mut [u16], count: usize, threshold: u32, value: u16)
    requires { (count ≤ len addresses.now) × (count ≤ len words.old) }
    ensures { words.new ≡ with_value count threshold value addresses.now words.old }
{
    // By index: of what `iter_mut` and `zip` leave in the words nothing is known.
    for i in 0..count {
        words[i] = word_at(addresses[i], words[i], threshold, value);
    }
}

// ---- A row of what is printed.

// The value that a row tries.
fn value_at(from: u32, row: usize) -> u16
    ensures { result ≡ (from + row) % 65536 }
{
    // `usize` has no `From<u32>`; and what is below 65,536 is whole in 16 bits.
    ((from as usize % 65536 + row % 65536) % 65536) as u16
}

// The value that stands in front of a row.
#[tactic(auto, unfolding(crate::specs::BenchText::value_for))]
fn value_for(given: Given, row: usize) -> Option<u16>
    ensures { result ≡ value_for given row }
{
    given.tries.then_some(value_at(given.numbers[2], row))
}

// Puts a row's value into the words, if a threshold is tried.
#[tactic(auto, unfolding(crate::specs::BenchText::words_for))]
fn put_value(addresses: &[u32], words: &mut [u16], count: usize, given: Given, row: usize)
    requires { (count ≤ len addresses.now) × (count ≤ len words.old) }
    ensures { words.new ≡ words_for given row count addresses.now words.old }
{
    if given.tries {
        let value = value_at(given.numbers[2], row);
        set_value(addresses, words, count, given.numbers[1], value);
    }
}

/// Puts the line of a run of the first `count` words of a list at the front, and answers its length; with a threshold's value in front,
/// which the words hold, where it is tried.
pub fn write_list_run(
    value: Option<u16>,
    addresses: &[u32],
    words: &[u16],
    count: usize,
    a: &[u32; 8],
    start: u32,
    limit: u64,
    out: &mut [u8; TEXT],
) -> usize
    ensures { Printed (run_line value (bench_of count addresses.now words.now a.now start limit)) result out.old out.new }
{
    let mut d = [0u32; 8];
    let mut memory = [0u8; MEMORY];
    let answer = bench(
        addresses,
        words,
        count,
        &mut d,
        a,
        &mut memory,
        start,
        limit,
    );
    let mut text = Writer::new(out);
    push_answer(&mut text, value, answer, &d);
    text.len
}

// Puts a row's line for the first `count` words of a list at the front, and answers its length; the words keep the value.
fn list_row(
    addresses: &[u32],
    words: &mut [u16],
    count: usize,
    given: Given,
    row: usize,
    out: &mut [u8; TEXT],
) -> usize
    requires { (count ≤ len addresses.now) × (count ≤ len words.old) }
    ensures words_after { words.new ≡ words_for given row count addresses.now words.old }
    ensures printed { Printed (row_of given row count addresses.now words.old) result out.old out.new }
{
    put_value(addresses, words, count, given, row);
    let n = given.numbers;
    let a = [n[6], n[7], n[8], n[9], n[10], n[11], n[12], n[13]];
    let value = value_for(given, row);
    write_list_run(value, addresses, words, count, &a, n[4], given.limit, out)
}

// How many values there are from one to another; 1 if there are none.
fn value_count(from: u32, to: u32) -> usize
    ensures { result ≡ suc (to - from) }
{
    // `usize` has no `From<u32>`.
    to.saturating_sub(from) as usize + 1
}

// How many rows are printed for a list: one where it is refused.
#[tactic(auto, unfolding(crate::specs::BenchText::rows_of))]
fn list_rows(addresses: &[u32], words: &[u16], count: usize, given: Given) -> usize
    ensures { result ≡ rows_of given count addresses.now words.now }
{
    if !given.tries {
        return 1;
    }
    match check(addresses, words, count) {
        Ok(_) => value_count(given.numbers[2], given.numbers[3]),
        Err(_) => 1,
    }
}

// ---- A list that is lent.

/// Puts a value into each of the first `count` words that stand at the threshold's address, and the line of the run, with the value in
/// front, at the front of `out`; answers its length. The words keep the value; those of a list that is refused stay as they were.
pub fn try_value(
    addresses: &[u32],
    words: &mut [u16],
    count: usize,
    threshold: u32,
    value: u16,
    a: &[u32; 8],
    start: u32,
    limit: u64,
    out: &mut [u8; TEXT],
) -> usize
    ensures words_after { words.new ≡ words_tried count threshold value addresses.now words.old }
    ensures printed { Printed (tried_text value (bench_of count addresses.now (with_value count threshold value addresses.now words.old) a.now start limit)) result out.old out.new }
{
    match check(addresses, words, count) {
        Ok(_) => {
            set_value(addresses, words, count, threshold, value);
            write_list_run(Some(value), addresses, words, count, a, start, limit, out)
        }
        Err(refusal) => write_refusal(refusal, out),
    }
}

// ---- The text of a list.

/// Puts a row's line for the list in a text at the front, and answers its length.
pub fn parsed_row(text: &[u8], given: Given, row: usize, out: &mut [u8; TEXT]) -> usize
    ensures { Printed (row_text given row text.now) result out.old out.new }
{
    let mut addresses = [0u32; PLACES];
    let mut words = [0u16; PLACES];
    let mut marks = [0u8; PLACES];
    match read_list(text, &mut addresses, &mut words, &mut marks) {
        Ok(n) => list_row(&addresses, &mut words, n, given, row, out),
        Err(line) => write_wrong_line(line.number, out),
    }
}

// How many rows are printed for it.
fn parsed_rows(text: &[u8], given: Given) -> usize
    ensures { result ≡ row_count given text.now }
{
    let mut addresses = [0u32; PLACES];
    let mut words = [0u16; PLACES];
    let mut marks = [0u8; PLACES];
    match read_list(text, &mut addresses, &mut words, &mut marks) {
        Ok(n) => list_rows(&addresses, &words, n, given),
        Err(_) => 1,
    }
}

// ---- An input.

/// How many rows are printed for an input that is a list: none if it was not read whole.
pub fn row_count(list: &[u8; LIST], input: Input, given: Given) -> usize
    ensures value { result ≡ input_rows given input list.now }
    ensures list_value { (t : Text) → Reads t list.now input → input_rows given input list.now ≡ cond input.failed 0 (row_count given t) }
{
    if input.failed {
        return 0;
    }
    parsed_rows(&list[..input.total.min(LIST)], given)
}

/// Puts a row's line at the front, and answers its length: nothing if the input was not read whole.
pub fn row_text(
    list: &[u8; LIST],
    input: Input,
    given: Given,
    row: usize,
    out: &mut [u8; TEXT],
) -> usize
    ensures printed { Printed (input_row given row input list.now) result out.old out.new }
    ensures list_value { (t : Text) → Reads t list.now input → input_row given row input list.now ≡ unless_failed input (row_text given row t) }
{
    if input.failed {
        return 0;
    }
    parsed_row(&list[..input.total.min(LIST)], given, row, out)
}
