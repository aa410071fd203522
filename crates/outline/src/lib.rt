#![tactic(auto)]

//! One look at each byte of a line, before its steps are tried: where its text starts, its first colon, whether DC. or DS.
//! is in it, and where it ends. All are places in the source.
ghost use Rattle.std.specs.Prelude.{◌≡◌, ◌||◌, ◌+◌, ◌≤◌, length};
ghost use Rattle.rules.specs.Text.{leading};
ghost use Rattle.outline.specs.Lines.{line_from};
ghost use Rattle.outline.specs.Outline.{is_define, back, next_colon, outline_by, OutlineLineGives};

// Where the text of the line that starts at `at` begins, after its leading blanks. By place, here and in `text_start`: with two
// `text::skip_to` the loop of `outline_line` has an instruction a byte less, and takes a sixth more time.
fn after_blanks(source: &[u8], at: usize) -> usize
    requires { at ≤ length source.now }
    ensures { result ≡ at + leading (line_from source.now at) }
{
    for i in at..source.len() {
        if source[i] == 10 {
            return i;
        }
        if !text::is_blank(source[i]) {
            return i;
        }
    }
    source.len()
}

// The same, the usual blank first.
fn text_start(source: &[u8], at: usize) -> usize
    requires { at ≤ length source.now }
    ensures { result ≡ at + leading (line_from source.now at) }
{
    for i in at..source.len() {
        if source[i] != b' ' {
            return after_blanks(source, i);
        }
    }
    source.len()
}

// The two bytes are DC or DS, in either case.
#[tactic(auto, unfolding(crate::specs::Outline::is_define))]
fn is_define(p: u8, q: u8) -> bool
    ensures { result ≡ is_define p q }
{
    let c = text::upper_case(q);
    text::upper_case(p) == b'D' && (c == b'C' || c == b'S')
}

// DC or DS stands before i, from `start` on.
#[tactic(auto, unfolding(crate::specs::Outline::is_define, rules::specs::Text::upper))]
fn has_define(source: &[u8], start: usize, i: usize) -> bool
    requires { (start ≤ i) × (i ≤ length source.now) }
    ensures { result ≡ is_define (back source.now start i 2) (back source.now start i 1) }
{
    start + 2 <= i && is_define(source[i - 2], source[i - 1])
}

// DC. or DS. is there, with a dot at i.
fn next_define(source: &[u8], start: usize, i: usize, defines: bool) -> bool
    requires { (start ≤ i) × (i ≤ length source.now) }
    ensures { result ≡ (defines || is_define (back source.now start i 2) (back source.now start i 1)) }
{
    defines || has_define(source, start, i)
}

// The first colon, `none` where there is none yet, with one more at i: a place past all others in place of an `Option`,
// so that the loop of `outline_line` keeps one number.
fn next_colon(none: usize, colon: usize, i: usize) -> usize
    ensures { result ≡ next_colon none colon i }
{
    if colon != none { colon } else { i }
}

/// What one look at a line finds.
#[derive(Clone, Copy, Debug, PartialEq, Eq, Hash)]
pub struct Outline {
    /// Where its text starts, after the blanks that lead.
    pub start: usize,
    /// Its first colon; its end where there is none.
    // No Option: one comparison with the end says both that there is one and that it stands in the line.
    pub colon: usize,
    /// Whether DC. or DS. is in it.
    pub defines: bool,
    /// Where it ends.
    pub end: usize,
}

// The outline of a line that ends at `end`; the colon is `none` where there is none.
fn outline_by(start: usize, none: usize, colon: usize, defines: bool, end: usize) -> Outline
    ensures { result ≡ outline_by start none colon defines end }
{
    Outline {
        start,
        colon: if colon == none { end } else { colon },
        defines,
        end,
    }
}

/// The outline of the line that starts at `at`. No byte over the colon's matters.
#[tactic(auto, using(crate::proofs::Looking::looked_first, crate::proofs::Looking::colon_found, crate::proofs::Looking::colon_kept, crate::proofs::Looking::defines_found, crate::proofs::Looking::defines_kept, crate::proofs::Looking::looked_byte, crate::proofs::Looking::looked_letter, crate::proofs::Looking::ended, crate::proofs::Looking::over))]
pub fn outline_line(source: &[u8], at: usize) -> Outline
    requires { at ≤ length source.now }
    ensures { OutlineLineGives source.now at result }
{
    let none = source.len();
    let start = text_start(source, at);
    let mut colon = none;
    let mut defines = false;
    // By place: a colon's and the end's are told.
    for i in start..source.len() {
        let b = source[i];
        if b <= b':' {
            if b == 10 {
                return outline_by(start, none, colon, defines, i);
            }
            if b == b':' {
                colon = next_colon(none, colon, i);
            }
            if b == b'.' {
                defines = next_define(source, start, i, defines);
            }
        }
    }
    outline_by(start, none, colon, defines, source.len())
}
