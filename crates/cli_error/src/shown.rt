//! The line that a refusal speaks of, as it is shown under the refusal.
ghost use Rattle.std.specs.Prelude.{◌≡◌, ◌+◌, ◌*◌, ◌<◌, ◌≤◌, ℕ, ◌++◌, map, length, take, drop, eqb, option_map, IfSome, OnOk, nat_eq};
ghost use Rattle.std.specs.List.{count_by};
ghost use Rattle.rules.specs.Text.{cut_at, nth};
ghost use Rattle.answer.specs.Refusal.{number_of, place_of};
ghost use Rattle.text.specs.Breaks.{breaks};
ghost use Rattle.cli_error.specs.Shown.{spoken_index, line_at, shown_byte, shown_bytes, numbered_text, line_text, shown_text};

use crate::bytes::{add, add_padded};
use answer::Refusal;
use std::alloc::AllocError;
use text::{ByteTest, skip_to};

/// As many bytes of a line as are shown.
const SHOWN: usize = 120;

// The byte that ends a line.
struct Break;

impl ByteTest for Break {
    ghost test = { eqb 10 };

    fn passes(b: u8) -> bool {
        b == b'\n'
    }
}

// How many bytes 10 a text has.
#[tactic(auto, using(crate::proofs::Counting::breaks_counted))]
fn count_breaks(s: &[u8]) -> usize
    ensures { result ≡ breaks s.now }
{
    count_newlines(s)
}

// The same, promised in std's words.
fn count_newlines(s: &[u8]) -> usize
    ensures { result ≡ count_by (λ b. nat_eq b 10) s.now }
{
    s.iter().filter(|&&b| b == b'\n').count()
}

// The line, from 0, that a refusal of a source or a list speaks of.
#[tactic(auto, unfolding(crate::specs::Shown::spoken_index, crate::specs::Shown::line_index, crate::specs::Refusals::counted, crate::specs::Refusals::row_of))]
fn spoken_index(refusal: Refusal, source: &[u8]) -> Option<usize>
    ensures { result ≡ spoken_index (number_of refusal) (place_of refusal) source.now }
{
    match refusal {
        Refusal::HighByte(offset) => Some(count_breaks(&source[..offset.min(source.len())])),
        Refusal::HighAddress(line)
        | Refusal::ManyLabels(line)
        | Refusal::NoSuchLine(line)
        | Refusal::NoEncoding(line)
        | Refusal::OutOfReach(line) => line.checked_sub(1),
        Refusal::BadMark(index) | Refusal::OutsideAddress(index) | Refusal::Misplaced(index) =>
            Some(index),
        _ => None,
    }
}

// The k-th line, from 0, without its byte 10.
#[tactic(auto, using(crate::proofs::Walking::walk_start, crate::proofs::Walking::walk_within, crate::proofs::Walking::walk_more, crate::proofs::Walking::walk_none, crate::proofs::Walking::walk_found))]
fn line_at(source: &[u8], k: usize) -> Option<&[u8]>
    ensures line { option_map (λ l. l.now) result ≡ line_at source.now k }
    ensures few { IfSome result (λ l. k ≤ length source.now) }
{
    let mut at = 0;
    for _ in 0..k {
        let end = skip_to::<Break>(source, at);
        if end == source.len() {
            return None;
        }
        at = end + 1;
    }
    let end = skip_to::<Break>(source, at);
    Some(&source[at..end])
}

#[tactic(auto, unfolding(crate::specs::Shown::shown_byte))]
fn shown_byte(b: u8) -> u8
    ensures { result ≡ shown_byte b }
{
    if b < 32 || b == 127 { b'?' } else { b }
}

// Appends bytes as they are shown.
fn add_masked(out: &mut Vec<u8>, bytes: &[u8]) -> Result<(), AllocError>
    ensures { OnOk result (out.new.items ≡ out.old.items ++ map shown_byte bytes.now) }
{
    for &b in bytes {
        out.push(shown_byte(b))?;
    }
    Ok(())
}

// Appends a line as it is shown.
#[tactic(auto, using(crate::proofs::Columns::front_of), unfolding(crate::specs::Shown::shown_bytes))]
fn add_shown(out: &mut Vec<u8>, line: &[u8]) -> Result<(), AllocError>
    ensures { OnOk result (out.new.items ≡ out.old.items ++ shown_bytes line.now) }
{
    add_masked(out, &line[..line.len().min(SHOWN)])
}

// Appends the k-th line with its number, or nothing where there is none.
#[tactic(auto, using(crate::proofs::Columns::appended), unfolding(rules::specs::Text::bytes))]
fn add_numbered(out: &mut Vec<u8>, source: &[u8], k: usize) -> Result<(), AllocError>
    ensures { OnOk result (out.new.items ≡ out.old.items ++ numbered_text k (line_at source.now k)) }
{
    let Some(line) = line_at(source, k) else {
        return Ok(());
    };
    add(out, b"lagvettu: ")?;
    add_padded(out, k as u64 + 1)?;
    add(out, b"  ")?;
    add_shown(out, line)?;
    add(out, b"\n")?;
    Ok(())
}

/// Appends the line of a source, or of a list's text, that a refusal speaks of; nothing where it speaks of none.
#[tactic(auto, unfolding(crate::specs::Shown::shown_text))]
pub(crate) fn add_line(out: &mut Vec<u8>, refusal: Refusal, source: &[u8]) -> Result<(), AllocError>
    ensures { OnOk result (out.new.items ≡ out.old.items ++ shown_text (number_of refusal) (place_of refusal) source.now) }
{
    match spoken_index(refusal, source) {
        Some(k) => add_numbered(out, source, k),
        None => Ok(()),
    }
}
