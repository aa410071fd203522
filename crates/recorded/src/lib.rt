#![tactic(auto)]

//! Recorded calls: each is read from the bytes of its record, made again, and compared, the assembler's place by place and the others' by
//! their texts. A record starts with the number of the call that it records; compare/src/record.rs says how it goes on.
//! There is no heap: what is printed is put at the front of a slice that is lent.
ghost use Rattle.std.specs.Prelude.{◌≡◌, ◌+◌, ◌*◌, ◌^◌, ◌<◌, ◌≤◌, true, ◌↔◌, length, None};
ghost use Rattle.rules.specs.Assemble.{slices, holding};
ghost use Rattle.answer.specs.Refusal.{answer_of};
ghost use Rattle.answer.specs.Told.{told_number, told_place};
ghost use Rattle.listing.specs.Writer.{Adds};
ghost use Rattle.station.specs.Printed.{Printed};
ghost use Rattle.recorded.specs.Recorded.{number_at, rows_in, terms_in, count_of, Called, WholeRecord, Agrees};
ghost use Rattle.recorded.specs.Replay.{call_verdict, verdict_in, size_by, counted_by, replay, took_byte, fed, counts_text, replay_text, is_cut_off};

use answer::{Refusal, tell};
use calls::call_agrees;
use listing::writer::Writer;
use station::input::Input;

// The bytes of a head, of terms and of a row.
const HEAD: usize = 5;

const TERMS: usize = 25;

const ROW: usize = 7;

// Where the source starts in a record of the assembler's call, and in one of another, after three numbers.
const FRONT: usize = HEAD + TERMS;

const CALL_FRONT: usize = HEAD + 12;

// The bytes of the longest source, and the places of the slices; both are above the rules' limits.
const SOURCE: usize = 40000;

const PLACES: usize = 9000;

/// The bytes of the longest record that is compared.
pub const RECORD: usize = FRONT + SOURCE + ROW * PLACES;

/// Room for what is printed.
pub const COUNTS: usize = 256;

// The number of the assembler's call; all others are of `calls`.
const ASSEMBLE: u8 = 1;

// What the slices hold before a call, so that a place that must not change can be told.
const OLD_ADDRESS: u32 = 2863311530;

const OLD_WORD: u16 = 43690;

const OLD_MARK: u8 = 170;

// The number that four bytes make, the low one first.
fn number(a: u8, b: u8, c: u8, d: u8) -> u32
    ensures { result ≡ a + 256 * b + 65536 * c + 16777216 * d }
{
    u32::from_le_bytes([a, b, c, d])
}

// The number that two bytes make.
fn small_number(a: u8, b: u8) -> u16
    ensures { result ≡ a + 256 * b }
{
    u16::from_le_bytes([a, b])
}

// The number in the four bytes at an index.
fn number_at(t: &[u8], at: usize) -> u32
    requires { at + 4 ≤ length t.now }
    ensures { result ≡ number_at at 4 t.now }
{
    number(t[at], t[at + 1], t[at + 2], t[at + 3])
}

// The same as a size. By `as`: `usize` has no `From<u32>`.
fn size_at(t: &[u8], at: usize) -> usize
    requires { at + 4 ≤ length t.now }
    ensures value { result ≡ number_at at 4 t.now }
    ensures small { result < 2 ^ 32 }
{
    number_at(t, at) as usize
}

// How many places the list has: a refusal has no list.
fn count(terms: &[u8]) -> usize
    requires { length terms.now ≡ 25 }
    ensures { result ≡ count_of (terms_in terms.now) }
{
    if terms[20] == 0 {
        size_at(terms, 21)
    } else {
        0
    }
}

// Whether the parts of a call are as long as they say, and its places within the slices.
fn is_whole(source: &[u8], terms: &[u8], rows: &[u8]) -> bool
    ensures { (result ≡ true) ↔ WholeRecord source.now terms.now rows.now }
{
    // One test after another: of a chain of `&&` the proof knows each test only through the one before it.
    if terms.len() != TERMS {
        return false;
    }
    if source.len() != size_at(terms, 0) {
        return false;
    }
    let count = count(terms);
    if count > PLACES {
        return false;
    }
    if rows.len() != ROW * count {
        return false;
    }
    if size_at(terms, 8) > PLACES {
        return false;
    }
    if size_at(terms, 12) > PLACES {
        return false;
    }
    size_at(terms, 16) <= PLACES
}

// Puts the list in the first `count` rows into the slices. These stand side by side, here and below, as C lends them.
fn read_list(rows: &[u8], count: usize, a: &mut [u32], w: &mut [u16], m: &mut [u8])
    requires { (7 * count ≤ length rows.now) × (count ≤ length a.old) × (count ≤ length w.old) × (count ≤ length m.old) }
    ensures { slices a.new w.new m.new ≡ holding (rows_in count rows.now) (slices a.old w.old m.old) }
{
    // By index: of a `zip` with `iter_mut` nothing is known after the loop.
    for i in 0..count {
        let at = ROW * i;
        a[i] = number_at(rows, at);
        w[i] = small_number(rows[at + 4], rows[at + 5]);
        m[i] = rows[at + 6];
    }
}

// Assembles a source at a base, in the first la, lw and lm places of the slices.
// A function of its own, so that `agrees` has one clause for the three parts that it lends; eight parameters, since each slice is lent
// in part and by a length of its own.
fn assemble_lent(
    source: &[u8],
    base: u32,
    la: usize,
    lw: usize,
    lm: usize,
    a: &mut [u32],
    w: &mut [u16],
    m: &mut [u8],
) -> Result<usize, Refusal>
    requires { (la ≤ length a.old) × (lw ≤ length w.old) × (lm ≤ length m.old) }
    ensures { Called base source.now la lw lm (slices a.old w.old m.old) (answer_of result) (slices a.new w.new m.new) }
{
    assemble::assemble(source, base, &mut a[..la], &mut w[..lw], &mut m[..lm])
}

// Whether the answer is the recorded one.
fn same_answer(answer: Result<usize, Refusal>, number: u8, place: u32) -> bool
    ensures { (result ≡ true) ↔ ((told_number (answer_of answer) ≡ number) × (told_place (answer_of answer) ≡ place)) }
{
    let mut told = 0;
    // By `as`, as in `size_at`.
    tell(answer, &mut told) == number && told == place as usize
}

// Whether two lists, each in three slices, are the same at every place.
fn same_list(a: &[u32], w: &[u16], m: &[u8], b: &[u32], x: &[u16], n: &[u8]) -> bool
    ensures { (result ≡ true) ↔ (slices a.now w.now m.now ≡ slices b.now x.now n.now) }
{
    a == b && w == x && m == n
}

// Whether the assembler answers as a call's parts say, and leaves the slices so: in a, w and m is what the assembler was
// lent, in b, x and n what must be there.
fn agrees(source: &[u8], terms: &[u8], rows: &[u8]) -> bool
    ensures { (result ≡ true) ↔ Agrees source.now terms.now rows.now }
{
    // Early returns: what stands between the tests is made only once the test before it has passed.
    if !is_whole(source, terms, rows) {
        return false;
    }
    let mut a = [OLD_ADDRESS; PLACES];
    let mut w = [OLD_WORD; PLACES];
    let mut m = [OLD_MARK; PLACES];
    let mut b = [OLD_ADDRESS; PLACES];
    let mut x = [OLD_WORD; PLACES];
    let mut n = [OLD_MARK; PLACES];
    let la = size_at(terms, 8);
    let lw = size_at(terms, 12);
    let lm = size_at(terms, 16);
    let base = number_at(terms, 4);
    let answer = assemble_lent(source, base, la, lw, lm, &mut a, &mut w, &mut m);
    if !same_answer(answer, terms[20], number_at(terms, 21)) {
        return false;
    }
    read_list(rows, count(terms), &mut b, &mut x, &mut n);
    same_list(&a, &w, &m, &b, &x, &n)
}

// ---- Records one after another.

/// How far a replay has come.
#[derive(Clone, Copy, Debug, PartialEq, Eq, Hash)]
pub struct Tally {
    /// The bytes of the record that is not yet whole.
    pub length: usize,
    /// The records that were whole.
    pub records: u64,
    /// Those of them that agree.
    pub agreed: u64,
    /// The places of these.
    pub words: u64,
    /// The number of the first that differs, from 1.
    pub first: Option<u64>,
}

/// Before the first byte.
// By hand: it says what each count starts at, as its clause does.
pub fn start() -> Tally
    ensures { result ≡ record { length = 0; records = 0; agreed = 0; words = 0; first = None } }
{
    Tally {
        length: 0,
        records: 0,
        agreed: 0,
        words: 0,
        first: None,
    }
}

// In how many places a record of one of the other calls agrees; None where it differs.
fn judge_call(bytes: &[u8]) -> Option<usize>
    requires { 17 ≤ length bytes.now }
    ensures { result ≡ call_verdict (17 + number_at 13 4 bytes.now) bytes.now }
{
    let end = CALL_FRONT + size_at(bytes, 13);
    if bytes.len() < end {
        return None;
    }
    let x = number_at(bytes, 5);
    let y = number_at(bytes, 9);
    if !call_agrees(bytes[0], x, y, &bytes[CALL_FRONT..end], &bytes[end..]) {
        return None;
    }
    Some(0)
}

// In how many places a record agrees; None where it differs.
fn judge(bytes: &[u8]) -> Option<usize>
    ensures { result ≡ verdict_in bytes.now }
{
    if bytes.len() < CALL_FRONT {
        return None;
    }
    if bytes[0] != ASSEMBLE {
        return judge_call(bytes);
    }
    if bytes.len() < FRONT {
        return None;
    }
    let end = FRONT + size_at(bytes, 5);
    if bytes.len() < end {
        return None;
    }
    if !agrees(&bytes[FRONT..end], &bytes[HEAD..FRONT], &bytes[end..]) {
        return None;
    }
    Some(count(&bytes[HEAD..FRONT]))
}

// The bytes of a record of which the first n are there: the head's until it is whole, and then as many as it says.
#[tactic(auto, unfolding(crate::specs::Replay::size_by))]
fn record_size(bytes: &[u8], n: usize) -> usize
    requires { 5 ≤ length bytes.now }
    ensures { result ≡ size_by n bytes.now }
{
    if n < HEAD {
        HEAD
    } else {
        HEAD + size_at(bytes, 1)
    }
}

// The tally with one record more, which agrees in so many places, or differs.
#[tactic(auto, unfolding(crate::specs::Replay::counted_by))]
fn counted(tally: Tally, found: Option<usize>) -> Tally
    ensures { result ≡ counted_by found tally }
{
    let records = tally.records.wrapping_add(1);
    match found {
        Some(count) => Tally {
            length: 0,
            records,
            agreed: tally.agreed.wrapping_add(1),
            // By `as`: `u64` has no `From<usize>`.
            words: tally.words.wrapping_add(count as u64),
            first: tally.first,
        },
        None => Tally {
            length: 0,
            records,
            // Of 2^64 records the number is 0, and none.
            first: tally.first.or((records != 0).then_some(records)),
            ..tally
        },
    }
}

// Takes a byte of the input: it is kept, and with the last one of a record that record is compared and counted. One that is too
// long to be kept differs.
fn take_byte(tally: Tally, byte: u8, bytes: &mut [u8]) -> Tally
    requires { length bytes.old ≡ 103030 }
    ensures { replay bytes.new result ≡ took_byte byte (replay bytes.old tally) }
{
    let at = tally.length.min(RECORD - 1);
    bytes[at] = byte;
    let n = tally.length.wrapping_add(1);
    if n < record_size(bytes, n) {
        return Tally { length: n, ..tally };
    }
    if RECORD < n {
        return counted(tally, None);
    }
    counted(tally, judge(&bytes[..n]))
}

// Takes a chunk of the input.
fn take_bytes(tally: Tally, chunk: &[u8], bytes: &mut [u8]) -> Tally
    requires { length bytes.old ≡ 103030 }
    ensures { replay bytes.new result ≡ fed chunk.now (replay bytes.old tally) }
{
    let mut state = tally;
    for &byte in chunk {
        state = take_byte(state, byte, bytes);
    }
    state
}

/// Takes a chunk of the input, with the record that is not yet whole.
pub fn replay_chunk(tally: Tally, chunk: &[u8], bytes: &mut [u8; RECORD]) -> Tally
    ensures { replay bytes.new result ≡ fed chunk.now (replay bytes.old tally) }
{
    take_bytes(tally, chunk, bytes)
}

// ---- What is printed.

// Writes what a replay comes to.
fn push_counts(tally: Tally, text: &mut Writer<'_>)
    requires { text.old.len + 128 ≤ length text.old.out.now }
    ensures text { Adds (counts_text tally) text.old text.new }
    ensures short { text.new.len ≤ text.old.len + 96 }
{
    text.push_decimal(tally.agreed);
    text.push_bytes(b" of ");
    text.push_decimal(tally.records);
    text.push_bytes(b" records agree, ");
    text.push_decimal(tally.words);
    text.push_bytes(b" words compared\n");
}

/// Puts what is printed at the front, and answers its length: nothing if the input could not be read to its end.
pub fn replay_text(tally: Tally, input: Input, out: &mut [u8; COUNTS]) -> usize
    ensures { Printed (replay_text tally input) result out.old out.new }
{
    if input.failed {
        return 0;
    }
    let mut text = Writer::new(out);
    push_counts(tally, &mut text);
    if let Some(first) = tally.first {
        text.push_bytes(b"the first that differs is record ");
        text.push_decimal(first);
        text.push(b'\n');
    }
    text.len
}

/// Whether the input ended within a record.
#[tactic(auto, unfolding(crate::specs::Replay::is_cut_off))]
pub fn is_cut_off(tally: Tally, input: Input) -> bool
    ensures { result ≡ is_cut_off tally input }
{
    !input.failed && tally.length != 0
}
