//! The names that words give files. A word that was not UTF-8 ends in byte 0, and names none.
ghost use Rattle.std.specs.Prelude.{◌≡◌, false, find, map, drop, option_map, IfOk};
ghost use Rattle.cli_run.specs.From.{from_of};
ghost use Rattle.cli_args.specs.Given.{number_count};
ghost use Rattle.cli_args.specs.Asked.{named_file, froms, all_froms, operand_at, is_broken, shown};
ghost use Rattle.cli_args.specs.Lexed.{givens_of};
ghost use Rattle.cli_args.specs.Parsed.{from_word, was_after, broken_in, unread_among, unread_in};

use crate::givens::{operand_at, value_of, values_of};
use crate::lexing::{Given, number_count};
use crate::{Command, Setting};
use cli_run::source::Source;
use std::alloc::{AllocError, Global};

// ---- What FILE names.

/// A file; `-` is standard input, or standard output, as none is.
pub(crate) fn named_file<'a>(word: Option<&'a str>) -> Option<&'a str>
    ensures { option_map (λ s. s.now) result ≡ named_file (option_map (λ s. s.now) word.entry) }
{
    match word {
        Some(word) => { if word == "-" { None } else { Some(word) } }
        None => None,
    }
}

/// FILE, if it is operand k.
pub(crate) fn file_at<'a>(operands: &[&'a str], k: usize) -> Option<&'a str>
    ensures { option_map (λ s. s.now) result ≡ named_file (operand_at k (map (λ s. s.now) operands.now)) }
{
    named_file(operand_at(operands, k))
}

// One of several: standard input is read once.
fn source_of<'a>(word: &'a str, was: bool) -> Source<'a>
    ensures { from_of result ≡ from_word was word.now }
{
    if word != "-" {
        return Source::File(word);
    }
    if was { Source::Again } else { Source::Standard }
}

// Whether standard input is named so far.
fn was_after(word: &str, was: bool) -> bool
    ensures { result ≡ was_after was word.now }
{
    if word == "-" { true } else { was }
}

// All of them.
fn named_sources<'a>(alloc: Global, operands: &[&'a str]) -> Result<Vec<Source<'a>>, AllocError>
    ensures { IfOk result (λ v. map from_of v.items ≡ froms false (map (λ s. s.now) operands.now)) }
{
    let mut sources = Vec::new(alloc);
    let mut was = false;
    for k in 0..operands.len() {
        sources.push(source_of(operands[k], was))?;
        was = was_after(operands[k], was);
    }
    Ok(sources)
}

/// FILE, of a command that takes several: standard input if there is none.
#[tactic(auto, using(crate::proofs::Gathered::no_froms, crate::proofs::Gathered::some_froms))]
pub(crate) fn sources_of<'a>(
    alloc: Global,
    operands: &[&'a str],
) -> Result<Vec<Source<'a>>, AllocError>
    ensures { IfOk result (λ v. map from_of v.items ≡ all_froms (map (λ s. s.now) operands.now)) }
{
    if operands.is_empty() {
        let mut sources = Vec::new(alloc);
        sources.push(Source::Standard)?;
        return Ok(sources);
    }
    named_sources(alloc, operands)
}

// ---- Names that are not UTF-8.

/// Whether a name was not UTF-8, by the byte 0 at its end.
fn is_broken(name: &str) -> bool
    ensures { result ≡ is_broken name.now }
{
    match name.as_bytes().last() {
        Some(last) => *last == 0,
        None => false,
    }
}

/// A text as it is printed: without the byte 0 at its end.
pub(crate) fn shown(text: &[u8]) -> &[u8]
    ensures { result.now ≡ shown text.now }
{
    match text.split_last() {
        Some((last, rest)) if *last == 0 => rest,
        _ => text,
    }
}

/// The same of a name.
pub(crate) fn shown_name(name: &str) -> &str
    ensures { result.now ≡ shown name.now }
{
    match name.strip_suffix("\0") {
        Some(rest) => rest,
        None => name,
    }
}

// The first of the names that was not UTF-8, as it stands among them.
fn found_broken<'a>(names: &[&'a str]) -> Option<&'a str>
    ensures { result ≡ find (λ s. is_broken s.now) names.now }
{
    names.iter().copied().find(|name| is_broken(name))
}

// The same by its text.
fn first_broken<'a>(names: &[&'a str]) -> Option<&'a str>
    ensures { option_map (λ s. s.now) result ≡ find is_broken (map (λ s. s.now) names.now) }
{
    found_broken(names)
}

/// A name, if it was not UTF-8.
pub(crate) fn broken<'a>(name: Option<&'a str>) -> Option<&'a str>
    ensures { option_map (λ s. s.now) result ≡ broken_in (option_map (λ s. s.now) name.entry) }
{
    match name {
        Some(name) => { if is_broken(name) { Some(name) } else { None } }
        None => None,
    }
}

// The first of these names that was not UTF-8: a branch table's, a sheet's, a file's.
#[tactic(auto, using(crate::proofs::Gathered::in_first, crate::proofs::Gathered::in_second, crate::proofs::Gathered::in_third))]
fn first_unread<'a>(
    branches: Option<&'a str>,
    sheets: &[&'a str],
    files: &[&'a str],
) -> Option<&'a str>
    ensures { option_map (λ s. s.now) result
        ≡ unread_among (option_map (λ s. s.now) branches.entry) (map (λ s. s.now) sheets.now) (map (λ s. s.now) files.now) }
{
    match broken(branches) {
        Some(name) => Some(name),
        None => match first_broken(sheets) {
            Some(name) => Some(name),
            None => first_broken(files),
        },
    }
}

// FILE, as often as it is given: the operands after the numbers.
#[tactic(auto, using(crate::proofs::Gathered::no_files, crate::proofs::Gathered::some_files))]
fn files_of<'a, 'b>(command: Command, operands: &'b [&'a str]) -> &'b [&'a str]
    ensures { map (λ s. s.now) result.now ≡ drop (number_count command) (map (λ s. s.now) operands.now) }
{
    let count = number_count(command);
    if operands.len() <= count {
        return &[];
    }
    &operands[count..]
}

/// The first name of a file to be read that was not UTF-8.
pub(crate) fn unread_name<'a>(
    alloc: Global,
    command: Command,
    givens: &[Given<'a>],
    operands: &[&'a str],
) -> Result<Option<&'a str>, AllocError>
    ensures { IfOk result (λ o. option_map (λ s. s.now) o
        ≡ unread_in command (givens_of givens.now) (map (λ s. s.now) operands.now)) }
{
    let sheets = values_of(alloc, Setting::Sheet, givens)?;
    let branches = value_of(Setting::Branches, givens);
    Ok(first_unread(branches, sheets.as_slice(), files_of(command, operands)))
}
