#![tactic(auto)]

//! What a source is checked for before any of its lines is read.
ghost use Rattle.std.specs.Prelude.{◌≡◌, ◌+◌, ◌≤◌, Result, IfOk, OnOk, length, nat_eq, nat_lt, max, fold, position, count_by};
ghost use Rattle.rules.specs.Text.{cut_at};
ghost use Rattle.rules.specs.Limits.{max_source};
ghost use Rattle.rules.specs.Answer.{accepted};
ghost use Rattle.rules.specs.Assemble.{first_high, checks};
ghost use Rattle.source.specs.Clear.{Clear};
ghost use Rattle.answer.specs.Refusal.{answer_of};

use answer::Refusal;

/// The highest byte, with many looked at at a time.
fn highest(s: &[u8]) -> u8
    ensures { result ≡ fold max 0 s.now }
{
    s.iter().fold(0, |highest, &b| highest.max(b))
}

fn find_high(s: &[u8]) -> Option<usize>
    ensures { result ≡ position (λ b. nat_lt 127 b) s.now }
{
    s.iter().position(|&b| b > 127)
}

/// The first byte over 127, sought only where there is one.
#[tactic(auto, using(crate::proofs::High::high, crate::proofs::High::nothing_high))]
fn first_high(s: &[u8]) -> Option<usize>
    ensures { result ≡ first_high 0 s.now }
{
    if highest(s) < 128 { None } else { find_high(s) }
}

// The count is small, so that many bytes are looked at at a time; `symbols` counts in texts of any length, where a u16 is too small.
fn newlines(s: &[u8]) -> u16
    requires { length s.now ≤ max_source }
    ensures { result ≡ count_by (λ b. nat_eq b 10) s.now }
{
    let mut n = 0;
    for &b in s {
        n += u16::from(b == b'\n');
    }
    n
}

/// How many lines the source has.
#[tactic(auto, using(crate::proofs::Lines::length_cut))]
pub fn count_lines(s: &[u8]) -> usize
    requires { length s.now ≤ max_source }
    ensures { result ≡ length (cut_at 10 s.now) }
{
    usize::from(newlines(s)) + 1
}

/// How many lines the source has; refused where it is too long, has a byte over 127 or too many lines.
#[tactic(auto, using(crate::proofs::Checks::checks_1, crate::proofs::Checks::checks_2, crate::proofs::Checks::checks_3, crate::proofs::Checks::checks_none, crate::proofs::Checks::clear))]
pub fn check_source(source: &[u8]) -> Result<usize, Refusal>
    ensures lines { IfOk result (λ n. n ≡ length (cut_at 10 source.now)) }
    ensures clear { OnOk result (Clear source.now) }
    ensures answer { answer_of result ≡ checks source.now (accepted (length (cut_at 10 source.now))) }
{
    if source.len() > rules::MAX_SOURCE {
        return Err(Refusal::LongSource(source.len()));
    }
    if let Some(place) = first_high(source) {
        return Err(Refusal::HighByte(place));
    }
    let lines = count_lines(source);
    if lines > rules::MAX_LINES {
        return Err(Refusal::ManyLines(lines));
    }
    Ok(lines)
}
