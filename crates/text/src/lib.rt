#![tactic(auto)]

//! Bytes of text by the rules: blanks and trimming, comparing, finding a byte, blank-separated pieces.

ghost use Rattle.std.specs.Prelude.{◌≡◌, ℕ, ◌+◌, ◌≤◌, ◌<◌, Bool, length, drop, position};
ghost use Rattle.rules.specs.Text.{blank, leading, trim_end, trim, upper, uppers, same, starts, contains};
ghost use Rattle.text.specs.Find.{index_of, further};
ghost use Rattle.text.specs.Pieces.{until, filled, run, next_piece};
ghost use Rattle.text.specs.Spans.{PartIn, trimmed_span};

// ---- Blanks, and the text between the outer ones.

/// Tab, line feed, vertical tab, form feed, carriage return or space.
#[tactic(auto, unfolding(rules::specs::Text::blank))]
pub fn is_blank(b: u8) -> bool
    ensures { result ≡ blank b }
{
    b == b' ' || 9 <= b && b <= 13 // the usual blank first
}

// ---- The first byte that passes a test.

/// A test of a byte, as a type: what a search looks for.
pub trait ByteTest {
    ghost test: { ℕ → Bool };

    /// Whether the byte passes.
    fn passes(b: u8) -> bool
        ensures { result ≡ test b };
}

// The blanks. This and the type below are names and have no values.
struct Blank;

impl ByteTest for Blank {
    ghost test = { blank };

    fn passes(b: u8) -> bool {
        is_blank(b)
    }
}

// The bytes that are no blanks.
struct Filled;

impl ByteTest for Filled {
    ghost test = { filled };

    fn passes(b: u8) -> bool {
        !is_blank(b)
    }
}

// The index of the first byte that passes.
fn find_passing<T: ByteTest>(t: &[u8]) -> Option<usize>
    ensures { result ≡ position T.test t.now }
{
    t.iter().position(|&b| T::passes(b))
}

/// The first position from `at` on whose byte passes, or the text's end.
pub fn skip_to<T: ByteTest>(t: &[u8], at: usize) -> usize
    requires { at ≤ length t.now }
    ensures { result ≡ at + until T.test (drop at t.now) }
{
    match find_passing::<T>(&t[at..]) {
        Some(n) => at + n,
        None => t.len(),
    }
}

/// The first position from `at` on that has no blank.
#[tactic(auto, using(crate::proofs::Trim::leading_until))]
pub fn skip_blanks(t: &[u8], at: usize) -> usize
    requires { at ≤ length t.now }
    ensures { result ≡ at + leading (drop at t.now) }
{
    skip_to::<Filled>(t, at)
}

/// How many blanks stand in front.
pub fn leading_blanks(t: &[u8]) -> usize
    ensures { result ≡ leading t.now }
{
    skip_blanks(t, 0)
}

/// The length without the blanks at the end.
pub fn kept_length(t: &[u8]) -> usize
    ensures { result ≡ length (trim_end t.now) }
{
    // No `rposition`: std says its answer by calls, not as a function of the list, and the proof did not close.
    for i in (0..t.len()).rev() {
        if !is_blank(t[i]) {
            return i + 1;
        }
    }
    0
}

/// The text without the blanks at either end.
#[tactic(auto, using(crate::proofs::Kept::from_leading, crate::proofs::Kept::to_kept, crate::proofs::Kept::trimmed_is))]
pub fn trimmed(t: &[u8]) -> &[u8]
    ensures { result.now ≡ trim t.now }
{
    let rest = &t[leading_blanks(t)..];
    &rest[..kept_length(rest)]
}

// ---- Texts compared, byte by byte or in upper case.

/// Only the bytes of a to z change.
#[tactic(auto, unfolding(rules::specs::Text::upper))]
pub fn upper_case(b: u8) -> u8
    ensures { result ≡ upper b }
{
    b.to_ascii_uppercase()
}

/// The text starts with `p`.
pub fn starts_with(t: &[u8], p: &[u8]) -> bool
    ensures { result ≡ starts p.now t.now }
{
    t.starts_with(p)
}

/// The text in upper case starts with `p`.
// By place: a byte of each at the same place; a zip of the two is no shorter.
pub fn starts_upper(t: &[u8], p: &[u8]) -> bool
    ensures { result ≡ starts p.now (uppers t.now) }
{
    p.len() <= t.len() && (0..p.len()).all(|i| upper_case(t[i]) == p[i])
}

/// The piece in upper case is `name`.
pub fn same_upper(piece: &[u8], name: &[u8]) -> bool
    ensures { result ≡ same (uppers piece.now) name.now }
{
    piece.len() == name.len() && starts_upper(piece, name)
}

// `p` stands at `at` in the text in upper case: compared only where the first byte is `p`'s.
fn stands_at(t: &[u8], p: &[u8], at: usize) -> bool
    requires { (0 < length p.now) × (at < length t.now) }
    ensures { result ≡ starts p.now (uppers (drop at t.now)) }
{
    upper_case(t[at]) == p[0] && starts_upper(&t[at..], p)
}

/// The text in upper case contains `p`.
// What is too short for a first byte or a last place is answered before these are looked at, early, and not by `p.is_empty() || ..`: so
// `last` has its name. By place: `contains` is said of the rests of the text, and a window is no rest.
pub fn contains_upper(t: &[u8], p: &[u8]) -> bool
    ensures { result ≡ contains p.now (uppers t.now) }
{
    if p.len() == 0 {
        return true;
    }
    if t.len() < p.len() {
        return false;
    }
    let last = t.len() - p.len();
    (0..last + 1).any(|at| stands_at(t, p, at))
}

// ---- The first place of a byte.

/// The index in `t` of the first byte `b` from `at` on.
// No `position`: with it lines with operands take 7 in 1000 more instructions.
#[tactic(auto, using(crate::proofs::Find::looked_all, crate::proofs::Find::looked_found, crate::proofs::Find::looked_more))]
pub fn find_byte_from(t: &[u8], at: usize, b: u8) -> Option<usize>
    requires { at ≤ length t.now }
    ensures { result ≡ further at (index_of b (drop at t.now)) }
{
    for i in at..t.len() {
        if t[i] == b {
            return Some(i);
        }
    }
    None
}

/// The index of the first byte `b`.
pub fn find_byte(t: &[u8], b: u8) -> Option<usize>
    ensures { result ≡ index_of b t.now }
{
    find_byte_from(t, 0, b)
}

// ---- Blank-separated pieces, one after the other.

/// A part of a text, from `start` to before `end`.
#[derive(Clone, Copy, Debug, PartialEq, Eq, Hash)]
pub struct Span {
    pub start: usize,
    pub end: usize,
}

/// The part from `start` to before `end`, without its outer blanks.
#[tactic(auto, using(crate::proofs::Kept::from_leading, crate::proofs::Kept::trimmed_within, crate::proofs::Kept::span_trimmed))]
pub fn trimmed_span(t: &[u8], start: usize, end: usize) -> Span
    requires { PartIn t.now start end }
    ensures { result ≡ trimmed_span t.now start end }
{
    let part = &t[start..end];
    let blanks = leading_blanks(part);
    let kept = kept_length(&part[blanks..]);
    let from = start + blanks;
    Span {
        start: from,
        end: from + kept,
    }
}

/// The first position from `at` on that has a blank, or the text's end.
pub fn skip_piece(t: &[u8], at: usize) -> usize
    requires { at ≤ length t.now }
    ensures { result ≡ at + run (drop at t.now) }
{
    skip_to::<Blank>(t, at)
}

/// The next piece from `at` on; it starts at the text's end where there is none.
pub fn next_piece(t: &[u8], at: usize) -> Span
    requires { at ≤ length t.now }
    ensures { result ≡ next_piece t.now at }
{
    let start = skip_blanks(t, at);
    let end = skip_piece(t, start);
    Span { start, end }
}
