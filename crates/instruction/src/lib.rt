#![tactic(auto)]

//! What an instruction's text says: its mnemonic and suffix, its operands, its size.
//! The operands are those of the joined tail: the text itself where it stands joined already, else a normalised copy.
//! The size is the same without: it goes by the first bytes of operands.
ghost use Rattle.std.specs.Prelude.{◌≡◌, Some, [], ◌∷◌, ◌+◌, ◌≤◌, ◌<◌, length, drop};
ghost use Rattle.rules.specs.Text.{uppers, cut_at, pieces, joined, first_text};
ghost use Rattle.rules.specs.Line.{instruction_of, is_plain, size};
ghost use Rattle.rules.specs.Assemble.{over};
ghost use Rattle.instruction.specs.FirstPiece.{suffix_text, suffix_of, suffix_in, ends_name, head_of};
ghost use Rattle.text.specs.Spans.{over_from};
ghost use Rattle.instruction.specs.Tail.{space, spaced};
ghost use Rattle.instruction.specs.Joined.{is_single, is_joined};
ghost use Rattle.instruction.specs.Split.{operands_in, operands_at, with_span};
ghost use Rattle.instruction.specs.Size.{sized_by, is_long_by, size_by, may_be_long};

use text::{ByteTest, Span};

// ---- The first piece: mnemonic and suffix.

/// What stands after the mnemonic's dot, up to the next dot.
// Five kinds told apart in one place: an Option around four of them would be no plainer.
#[derive(Clone, Copy, Debug, PartialEq, Eq, Hash)]
pub enum Suffix {
    /// There is no dot.
    None,
    /// Nothing.
    Empty,
    /// Exactly `L`.
    Long,
    /// Exactly `W`.
    Word,
    Other,
}

/// The mnemonic's place, and where the tail starts; the suffix stands between them.
#[derive(Clone, Copy, Debug, PartialEq, Eq, Hash)]
pub struct Head {
    pub start: usize,
    pub end: usize,
    pub tail: usize,
}

// A dot or a blank: a letter is neither, by the first test.
#[tactic(auto, using(crate::proofs::FirstPiece::ends_high, crate::proofs::FirstPiece::ends_dot, crate::proofs::FirstPiece::ends_rest))]
fn ends_name(b: u8) -> bool
    ensures { result ≡ ends_name b }
{
    b <= b'.' && (b == b'.' || text::is_blank(b))
}

// The bytes that end a mnemonic; a type's name, and no value.
struct NameEnd;

impl ByteTest for NameEnd {
    ghost test = { ends_name };

    fn passes(b: u8) -> bool {
        ends_name(b)
    }
}

/// The first piece, cut at its first dot; what stands after it is stepped over only where there is one.
#[tactic(auto, using(text::proofs::Kept::from_leading, crate::proofs::FirstPiece::head_end, crate::proofs::FirstPiece::head_plain, crate::proofs::FirstPiece::head_dotted))]
pub fn read_head(t: &[u8]) -> Head
    ensures { result ≡ head_of t.now }
{
    let start = text::leading_blanks(t);
    let end = text::skip_to::<NameEnd>(t, start);
    if end < t.len() && t[end] == b'.' {
        let tail = text::skip_piece(t, end + 1);
        return Head { start, end, tail };
    }
    Head {
        start,
        end,
        tail: end,
    }
}

// The text up to the first dot, as a suffix.
#[tactic(auto, using(crate::proofs::FirstPiece::suffix_alone, crate::proofs::FirstPiece::suffix_none, crate::proofs::FirstPiece::suffix_dot, crate::proofs::FirstPiece::suffix_dotted, crate::proofs::FirstPiece::suffix_more))]
fn read_suffix(t: &[u8]) -> Suffix
    ensures { result ≡ suffix_in t.now }
{
    match t {
        [] => Suffix::Empty,
        [b] => byte_suffix(*b),
        [b'.', ..] => Suffix::Empty,
        [b, b'.', ..] => byte_suffix(*b),
        _ => Suffix::Other,
    }
}

// The same where the text is one byte. Of a `match` the compiler makes a table of values.
#[tactic(auto, using(crate::proofs::FirstPiece::byte_long, crate::proofs::FirstPiece::byte_word, crate::proofs::FirstPiece::byte_dot, crate::proofs::FirstPiece::byte_other))]
fn byte_suffix(b: u8) -> Suffix
    ensures { result ≡ suffix_in (b ∷ []) }
{
    if b == b'L' {
        return Suffix::Long;
    }
    if b == b'W' {
        return Suffix::Word;
    }
    if b == b'.' {
        return Suffix::Empty;
    }
    Suffix::Other
}

/// The suffix of an instruction whose head was read: it stands after the mnemonic, where there is a dot.
#[tactic(auto, using(crate::proofs::FirstPiece::suffix_absent, crate::proofs::FirstPiece::head_of_lem, crate::proofs::FirstPiece::suffix_there))]
pub fn suffix_of(t: &[u8], head: Head) -> Suffix
    requires { head ≡ head_of t.now }
    ensures { result ≡ suffix_of (suffix_text t.now) }
{
    if head.end == head.tail {
        return Suffix::None;
    }
    read_suffix(&t[head.end + 1..head.tail])
}

// ---- The tail: the other pieces, joined by one space.

// A piece copied after the first n bytes of `out`.
fn copy_piece(p: &[u8], out: &mut [u8], n: usize)
    requires { n + length p.now ≤ length out.old }
    ensures { out.new ≡ over_from n p.now out.old }
{
    // By index, and no `copy_from_slice`: where the compiler does not know the two apart, an archive would ask C for `memmove`.
    for i in 0..p.len() {
        out[n + i] = p[i];
    }
}

// A space after the first n bytes of `out`, unless there are none; the length with it. The listing's writer stands above this crate.
#[tactic(auto, using(crate::proofs::Tail::space_zero, crate::proofs::Tail::space_none, crate::proofs::Tail::space_length, crate::proofs::Tail::space_put))]
fn put_space(out: &mut [u8], n: usize) -> usize
    requires { n < length out.old }
    ensures value { result ≡ n + length (space n) }
    ensures out_after { out.new ≡ over_from n (space n) out.old }
{
    if n == 0 {
        return 0;
    }
    out[n] = b' ';
    n + 1
}

// A piece joined to the first n bytes of `out`; the length with it.
#[tactic(auto, using(crate::proofs::Tail::adding_starts, crate::proofs::Tail::adding_asks, crate::proofs::Tail::adding_length, crate::proofs::Tail::adding_whole))]
fn add_piece(p: &[u8], out: &mut [u8], n: usize) -> usize
    requires { (0 < length p.now) × (n + length (spaced n p.now) ≤ length out.old) }
    ensures value { result ≡ n + length (spaced n p.now) }
    ensures out_after { out.new ≡ over_from n (spaced n p.now) out.old }
{
    let m = put_space(out, n);
    copy_piece(p, out, m);
    m + p.len()
}

/// The pieces from `at` on, joined by one space, at the front of `out`; their length.
// A `loop` over a place in the text: an iterator of our own over pieces, with its laws, would be longer.
#[tactic(auto, using(crate::proofs::Tail::joining_start, crate::proofs::Tail::joining_length, crate::proofs::Tail::joining_whole, crate::proofs::Tail::joining_within, crate::proofs::Tail::joining_asks, crate::proofs::Tail::joining_less, crate::proofs::Tail::joining_more))]
pub fn join_pieces(t: &[u8], at: usize, out: &mut [u8]) -> usize
    requires { (at ≤ length t.now) × (length t.now ≤ length out.old) }
    ensures value { result ≡ length (joined (pieces (drop at t.now))) }
    ensures out_after { out.new ≡ over (joined (pieces (drop at t.now))) out.old }
{
    let mut n = 0;
    let mut i = at;
    loop {
        let p = text::next_piece(t, i);
        let start = p.start;
        let end = p.end;
        if start == t.len() {
            return n;
        }
        n = add_piece(&t[start..end], out, n);
        i = end;
    }
}

// No blank stands at i, or a single space before a byte that is none. One expression costs 4 in 1000 of a script's instructions.
#[tactic(auto, using(crate::proofs::Joined::single_high, crate::proofs::Joined::single_other, crate::proofs::Joined::single_last, crate::proofs::Joined::single_space))]
fn is_single(t: &[u8], i: usize) -> bool
    requires { i < length t.now }
    ensures { result ≡ is_single (drop i t.now) }
{
    let b = t[i];
    if 32 < b {
        return true;
    }
    if b != 32 {
        return !text::is_blank(b);
    }
    i + 1 < t.len() && !text::is_blank(t[i + 1])
}

/// From `at` on each blank is a single space between pieces: with none in front, the text is its own joined tail.
// By place: a blank looks at the byte after it.
pub fn is_joined(t: &[u8], at: usize) -> bool
    requires { at ≤ length t.now }
    ensures { result ≡ is_joined (drop at t.now) }
{
    (at..t.len()).all(|i| is_single(t, i))
}

// ---- The operands of a joined tail.

/// How many, and where the first, the second and the last stand; of one operand all three are that one's place.
// Of none all three are 0 to 0, an empty part of any text, and no Option: so a reader takes a part before it looks at the count.
#[derive(Clone, Copy, Debug, PartialEq, Eq, Hash)]
pub struct Operands {
    pub count: usize,
    pub first: Span,
    pub second: Span,
    pub last: Span,
}

// One operand more, unless it is empty.
#[tactic(auto, using(crate::proofs::Split::with_empty, crate::proofs::Split::with_first, crate::proofs::Split::with_second, crate::proofs::Split::with_more))]
fn with_operand(o: Operands, span: Span) -> Operands
    requires { (o.count ≤ span.start) × (span.start ≤ span.end) }
    ensures { result ≡ with_span o span }
{
    if span.start == span.end {
        return o;
    }
    match o.count {
        0 => Operands {
            count: 1,
            first: span,
            second: span,
            last: span,
        },
        1 => Operands {
            count: 2,
            first: o.first,
            second: span,
            last: span,
        },
        n => Operands {
            count: n + 1,
            first: o.first,
            second: o.second,
            last: span,
        },
    }
}

// Where the part from `at` on ends: at the next comma, or with the text.
#[tactic(auto, using(crate::proofs::Split::end_found))]
fn part_end(t: &[u8], at: usize) -> usize
    requires { at ≤ length t.now }
    ensures { result ≡ at + length (first_text (cut_at 44 (drop at t.now))) }
{
    text::find_byte_from(t, at, b',').unwrap_or(t.len())
}

/// The text cut at commas, trimmed, empties removed.
// A `loop` over a place in the text: a fold over `split` would keep the same four places, with a law for the split.
#[tactic(auto, using(crate::proofs::Split::splitting_start, crate::proofs::Split::end_within, crate::proofs::Split::splitting_asks, crate::proofs::Split::splitting_end, crate::proofs::Split::splitting_more))]
pub fn split_operands(t: &[u8]) -> Operands
    ensures { result ≡ operands_at t.now }
{
    let none = Span { start: 0, end: 0 };
    let mut found = Operands {
        count: 0,
        first: none,
        second: none,
        last: none,
    };
    let mut at = 0;
    loop {
        let end = part_end(t, at);
        found = with_operand(found, text::trimmed_span(t, at, end));
        if end == t.len() {
            return found;
        }
        at = end + 1;
    }
}

// ---- The size.

// Starts with D, A or (.
#[tactic(auto, using(crate::proofs::Size::plain_none, crate::proofs::Size::plain_some))]
fn is_plain(t: &[u8]) -> bool
    ensures { result ≡ is_plain t.now }
{
    matches!(t, [b'D' | b'A' | b'(', ..])
}

// Which operands decide the size.
#[derive(Clone, Copy, Debug, PartialEq, Eq, Hash)]
enum SizeRule {
    // 4 where the first starts with #.
    Immediate,
    // 4 where the first or the last does not start with D, A or (.
    Move,
}

// Which operands decide, by the mnemonic and the suffix; without any it is 2. The else takes a kind of an enum apart, which `?` cannot.
#[tactic(auto, using(crate::proofs::Size::sized_muls, crate::proofs::Size::sized_short, crate::proofs::Size::sized_cmp, crate::proofs::Size::sized_move, crate::proofs::Size::sized_rest), unfolding(rules::specs::Text::bytes))]
fn sized(mnemonic: &[u8], suffix: Suffix) -> Option<SizeRule>
    ensures { result ≡ sized_by (uppers mnemonic.now) suffix }
{
    if text::same_upper(mnemonic, b"MULS") {
        return Some(SizeRule::Immediate);
    }
    let Suffix::Long = suffix else {
        return None;
    };
    if text::same_upper(mnemonic, b"CMP") {
        return Some(SizeRule::Immediate);
    }
    if text::same_upper(mnemonic, b"MOVE") || text::same_upper(mnemonic, b"MOVEA") {
        return Some(SizeRule::Move);
    }
    None
}

// The first and the last operand ask for 4 bytes.
#[tactic(auto, using(crate::proofs::Size::four_immediate, crate::proofs::Size::four_first, crate::proofs::Size::four_last), unfolding(rules::specs::Text::bytes))]
fn takes_four(rule: SizeRule, first: &[u8], last: &[u8]) -> bool
    ensures { result ≡ is_long_by rule first.now last.now }
{
    match rule {
        SizeRule::Immediate => text::starts_with(first, b"#"),
        SizeRule::Move => !is_plain(first) || !is_plain(last),
    }
}

// The size of an instruction whose operands stand in `tail`.
#[tactic(auto, using(crate::proofs::Places::operands_within, crate::proofs::Size::size_few, crate::proofs::Size::size_four, crate::proofs::Size::size_two))]
fn size_of(rule: SizeRule, o: Operands, tail: &[u8]) -> u32
    requires { o ≡ operands_at tail.now }
    ensures { result ≡ size_by (Some rule) (operands_in tail.now) }
{
    if o.count < 2 {
        return 2;
    }
    let first = &tail[o.first.start..o.first.end];
    let last = &tail[o.last.start..o.last.end];
    if takes_four(rule, first, last) { 4 } else { 2 }
}

// The first byte leaves open that an operand decides: MULS, CMP, MOVE or MOVEA may stand there, or after blanks.
#[tactic(auto, unfolding(crate::specs::Size::may_be_long))]
fn may_be_long(t: &[u8]) -> bool
    ensures { result ≡ may_be_long t.now }
{
    t.first().is_some_and(|&b| {
        let u = text::upper_case(b);
        u == b'M' || u == b'C' || text::is_blank(b)
    })
}

/// How many bytes an instruction takes; no copy is needed, for blanks do not change an operand's first byte.
#[tactic(auto, using(crate::proofs::FirstPiece::head_of_lem, crate::proofs::Size::answer_short, crate::proofs::Size::answer_fixed, crate::proofs::Size::answer_standing))]
pub fn instruction_size(t: &[u8]) -> u32
    ensures { result ≡ size (instruction_of t.now) }
{
    if !may_be_long(t) {
        return 2;
    }
    let head = read_head(t);
    let suffix = suffix_of(t, head);
    // Without a rule it is 2, and no None that `?` could hand on.
    let Some(rule) = sized(&t[head.start..head.end], suffix) else {
        return 2;
    };
    let tail = &t[head.tail..];
    size_of(rule, split_operands(tail), tail)
}
