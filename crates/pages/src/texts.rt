//! The texts of an example.
ghost use Rattle.std.specs.Prelude.{◌≡◌, ◌++◌, map, drop, IfOk};
ghost use Rattle.rules.specs.Text.{Text, same, trim_end};
ghost use Rattle.pages.specs.Page.{shown};
ghost use Rattle.pages.specs.Texts.{input_part, wanted_part, joined_lines, under, input_text, wanted_text, holds};

use crate::Example;
use std::alloc::{AllocError, Global};
use text::{kept_length, starts_with};

// The part of a line that counts, as a type.
trait LinePart {
    ghost part: { Text → Text };

    // The part.
    fn part(line: &[u8]) -> &[u8]
        ensures { result.now ≡ part line.now };
}

// Of a line of standard input.
struct InputPart;

impl LinePart for InputPart {
    ghost part = { input_part };

    #[tactic(auto, unfolding(rules::specs::Text::bytes))]
    fn part(line: &[u8]) -> &[u8] {
        let rest = behind(line, 5);
        if starts_with(rest, b" ") {
            behind(line, 6)
        } else {
            rest
        }
    }
}

// Of a line of what is printed or said.
struct WantedPart;

impl LinePart for WantedPart {
    ghost part = { wanted_part };

    fn part(line: &[u8]) -> &[u8] {
        behind(line, 4)
    }
}

/// What stands after n bytes.
#[tactic(auto, using(crate::proofs::Parts::dropped))]
pub fn behind(text: &[u8], n: usize) -> &[u8]
    ensures { result.now ≡ drop n text.now }
{
    &text[n.min(text.len())..]
}

// The parts of lines, a byte 10 in front of each.
#[tactic(auto, using(crate::proofs::Parts::under_first, crate::proofs::Parts::under_next, crate::proofs::Parts::under_last))]
fn stack<T: LinePart>(alloc: Global, lines: &[&[u8]]) -> Result<Vec<u8>, AllocError>
    ensures { IfOk result (λ v. v.items ≡ under T.part (map (λ l. l.now) lines.now)) }
{
    let mut text = Vec::new(alloc);
    for k in 0..lines.len() {
        text.push(b'\n')?;
        text.extend_from_slice(T::part(lines[k]))?;
    }
    Ok(text)
}

/// Standard input, a byte 10 in front of it where there is any.
pub fn input_under(alloc: Global, example: &Example<'_>) -> Result<Vec<u8>, AllocError>
    ensures { IfOk result (λ v. v.items ≡ under input_part (shown example.now).input) }
{
    stack::<InputPart>(alloc, example.input)
}

/// What stands after the first byte.
pub fn behind_first(text: &[u8]) -> &[u8]
    ensures { result.now ≡ drop 1 text.now }
{
    behind(text, 1)
}

/// Whether two texts are the same.
#[tactic(auto, using(text::proofs::Compare::same_longer, text::proofs::Compare::same_starts))]
pub fn is_same(s: &[u8], t: &[u8]) -> bool
    ensures { result ≡ same s.now t.now }
{
    s.len() == t.len() && starts_with(s, t)
}

// A text without the blanks at its end.
#[tactic(auto, using(text::proofs::Trim::take_trim_end))]
fn kept(text: &[u8]) -> &[u8]
    ensures { result.now ≡ trim_end text.now }
{
    &text[..kept_length(text)]
}

/// Whether an example holds, where this is printed and then said.
pub fn holds(alloc: Global, example: &Example<'_>, got: &[u8]) -> Result<bool, AllocError>
    ensures { IfOk result (λ b. b ≡ holds (shown example.now) got.now) }
{
    let wanted = stack::<WantedPart>(alloc, example.wanted)?;
    Ok(is_same(kept(behind_first(&wanted)), kept(got)))
}
