//! The examples of a page.
ghost use Rattle.std.specs.Prelude.{◌≡◌, ◌≤◌, ◌<◌, ◌+◌, Bool, map, length, IfOk, IfSome, OnOk};
ghost use Rattle.rules.specs.Text.{Text, cut_at};
ghost use Rattle.text.specs.Find.{index_of};
ghost use Rattle.pages.specs.Page.{begins, is_file, is_input, is_wanted, passing, sample, samples, shown, with_rest};

use crate::Example;
use std::alloc::{AllocError, Global};
use text::{find_byte, starts_with};

// A test of a line, as a type.
trait LineTest {
    ghost test: { Text → Bool };

    // Whether the line passes.
    fn passes(line: &[u8]) -> bool
        ensures { result ≡ test line.now };
}

// A file.
struct FileRow;

impl LineTest for FileRow {
    ghost test = { is_file };

    #[tactic(auto, unfolding(rules::specs::Text::bytes))]
    fn passes(line: &[u8]) -> bool {
        starts_with(line, b"    = ")
    }
}

// A line of standard input.
struct InputRow;

impl LineTest for InputRow {
    ghost test = { is_input };

    #[tactic(auto, unfolding(rules::specs::Text::bytes))]
    fn passes(line: &[u8]) -> bool {
        starts_with(line, b"    >")
    }
}

// A line of what is printed or said.
struct WantedRow;

impl LineTest for WantedRow {
    ghost test = { is_wanted };

    #[tactic(auto, unfolding(rules::specs::Text::bytes))]
    fn passes(line: &[u8]) -> bool {
        starts_with(line, b"    ") && !starts_with(line, b"    $ ")
    }
}

#[tactic(auto, unfolding(rules::specs::Text::bytes))]
fn begins(line: &[u8]) -> bool
    ensures { result ≡ begins line.now }
{
    starts_with(line, b"    $ lagvettu ")
}

// How many lines in front pass.
#[tactic(auto, using(crate::proofs::Passing::all_pass, crate::proofs::Passing::one_fails, crate::proofs::Passing::one_passes, crate::proofs::Passing::none_passed))]
fn passing<T: LineTest>(lines: &[&[u8]]) -> usize
    ensures bound { result ≤ length lines.now }
    ensures value { result ≡ passing T.test (map (λ l. l.now) lines.now) }
{
    for k in 0..lines.len() {
        if !T::passes(lines[k]) {
            return k;
        }
    }
    lines.len()
}

// The example that begins on a line, with the lines below it.
#[tactic(auto, using(crate::proofs::Passing::sample_is))]
fn read_example<'a>(line: &'a [u8], below: &'a [&'a [u8]]) -> Example<'a>
    ensures { shown result ≡ sample line.now (map (λ l. l.now) below.now) }
{
    let (files, rest) = below.split_at(passing::<FileRow>(below));
    let (input, rest) = rest.split_at(passing::<InputRow>(rest));
    let (wanted, _) = rest.split_at(passing::<WantedRow>(rest));
    Example {
        line,
        files,
        input,
        wanted,
    }
}

// Adds the example that begins on line k, if one does.
#[tactic(auto, using(crate::proofs::Samples::one_begins, crate::proofs::Samples::no_begin))]
fn add_example<'a>(
    examples: &mut Vec<Example<'a>>,
    lines: &'a [&'a [u8]],
    k: usize,
) -> Result<(), AllocError>
    requires { k < length lines.now }
    ensures { OnOk result (with_rest (λ l. l.now) (λ e. shown e) lines.now (k + 1) examples.new.items ≡ with_rest (λ l. l.now) (λ e. shown e) lines.now k examples.old.items) }
{
    if !begins(lines[k]) {
        return Ok(());
    }
    examples.push(read_example(lines[k], &lines[k + 1..]))?;
    Ok(())
}

/// The examples of a page, by its lines.
#[tactic(auto, using(crate::proofs::Samples::first, crate::proofs::Samples::next, crate::proofs::Samples::last))]
pub fn read_examples<'a>(
    alloc: Global,
    lines: &'a [&'a [u8]],
) -> Result<Vec<Example<'a>>, AllocError>
    ensures { IfOk result (λ v. map (λ e. shown e) v.items ≡ samples (map (λ l. l.now) lines.now)) }
{
    let mut examples = Vec::new(alloc);
    for k in 0..lines.len() {
        add_example(&mut examples, lines, k)?;
    }
    Ok(examples)
}

// Where the first byte c stands.
fn find(text: &[u8], c: u8) -> Option<usize>
    ensures value { result ≡ index_of c text.now }
    ensures bound { IfSome result (λ n. n < length text.now) }
{
    find_byte(text, c)
}

/// A text cut at each byte c.
#[tactic(auto, using(crate::proofs::Cutting::begun))]
pub fn cut_at<'a>(alloc: Global, text: &'a [u8], c: u8) -> Result<Vec<&'a [u8]>, AllocError>
    ensures { IfOk result (λ v. map (λ l. l.now) v.items ≡ cut_at c text.now) }
{
    let mut parts = Vec::new(alloc);
    let mut rest = text;
    for _k in 0..text.len() {
        let Some(n) = find(rest, c) else {
            parts.push(rest)?;
            return Ok(parts);
        };
        parts.push(&rest[..n])?;
        rest = &rest[n + 1..];
    }
    parts.push(rest)?;
    Ok(parts)
}
