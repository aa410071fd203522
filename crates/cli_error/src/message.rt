//! The messages of refusals, failures and usage errors, and the rows of `check`.
ghost use Rattle.std.specs.Prelude.{◌≡◌, ◌++◌, option_map, IfOk, OnOk};
ghost use Rattle.answer.specs.Refusal.{number_of, place_of};
ghost use Rattle.listing.specs.Listing.{decimal};
ghost use Rattle.rules.specs.Text.{Text};
ghost use Rattle.cli_error.specs.Refusals.{counted_text};
ghost use Rattle.cli_error.specs.Fault.{misuse_text};
ghost use Rattle.cli_error.specs.Messages.{place_text, refused_row, refused_text, not_a_list_text, not_a_sheet_text, verb, failed_text, no_memory_text, wrong_use_text, usage_text, accepted_row};

use crate::What;
use crate::bytes::{add, add_decimal};
use crate::shown::add_line;
use crate::words::{Counts, counted, counted_text, words};
use answer::Refusal;
use std::alloc::{AllocError, Global};

// ---- Refusals.

// Appends where a refusal speaks of.
#[tactic(auto, using(crate::proofs::Columns::appended))]
fn add_place(out: &mut Vec<u8>, counted: Option<Counts>, place: usize) -> Result<(), AllocError>
    ensures { OnOk result (out.new.items ≡ out.old.items ++ place_text counted place) }
{
    match counted {
        Some(counted) => {
            add(out, counted_text(counted))?;
            add_decimal(out, place as u64)?;
            Ok(())
        }
        None => Ok(()),
    }
}

// Appends a refusal of the text that is named so.
#[tactic(auto, using(crate::proofs::Columns::appended), unfolding(crate::specs::Messages::refused_row, rules::specs::Text::bytes))]
fn add_refused(out: &mut Vec<u8>, name: &[u8], refusal: Refusal) -> Result<(), AllocError>
    ensures { OnOk result (out.new.items ≡ out.old.items ++ refused_row name.now (number_of refusal) (place_of refusal)) }
{
    add(out, name)?;
    add(out, b": refused ")?;
    add_decimal(out, u64::from(refusal.number()))?;
    add_place(out, counted(refusal), refusal.place())?;
    add(out, b": ")?;
    add(out, words(refusal))?;
    add(out, b"\n")?;
    Ok(())
}

/// A refusal of the text that is named so, and the line of the source, or of the list's text, of which it speaks.
#[tactic(auto, using(crate::proofs::Columns::appended), unfolding(crate::specs::Messages::refused_text, rules::specs::Text::bytes))]
pub fn refusal_message(
    alloc: Global,
    name: &[u8],
    refusal: Refusal,
    source: &[u8],
) -> Result<Vec<u8>, AllocError>
    ensures { IfOk result (λ text. text.items ≡ refused_text name.now (number_of refusal) (place_of refusal) source.now) }
{
    let mut text = Vec::new(alloc);
    add(&mut text, b"lagvettu: ")?;
    add_refused(&mut text, name, refusal)?;
    add_line(&mut text, refusal, source)?;
    Ok(text)
}

// ---- Texts that are not what they should be.

/// A text that is no list's, and its first wrong line.
#[tactic(auto, unfolding(crate::specs::Messages::not_a_list_text, rules::specs::Text::bytes))]
pub fn no_list_message(alloc: Global, name: &[u8], line: usize) -> Result<Vec<u8>, AllocError>
    ensures { IfOk result (λ text. text.items ≡ not_a_list_text name.now line) }
{
    let mut text = Vec::new(alloc);
    add(&mut text, b"lagvettu: ")?;
    add(&mut text, name)?;
    add(&mut text, b": not a list: line ")?;
    add_decimal(&mut text, line as u64)?;
    add(&mut text, b"\n")?;
    Ok(text)
}

/// A text that is no sheet's, and its first wrong line.
#[tactic(auto, unfolding(crate::specs::Messages::not_a_sheet_text, rules::specs::Text::bytes))]
pub fn no_sheet_message(alloc: Global, name: &[u8], line: usize) -> Result<Vec<u8>, AllocError>
    ensures { IfOk result (λ text. text.items ≡ not_a_sheet_text name.now line) }
{
    let mut text = Vec::new(alloc);
    add(&mut text, b"lagvettu: ")?;
    add(&mut text, name)?;
    add(&mut text, b": not a sheet: line ")?;
    add_decimal(&mut text, line as u64)?;
    add(&mut text, b"\n")?;
    Ok(text)
}

// ---- Files.

#[tactic(auto, unfolding(rules::specs::Text::bytes))]
fn verb(what: What) -> &'static [u8]
    ensures { result.now ≡ verb what }
{
    match what {
        What::Open => b"open ",
        What::Read => b"read ",
        What::Write => b"write ",
    }
}

/// What failed of the file that is named so, and the reason.
#[tactic(auto, unfolding(crate::specs::Messages::failed_text, rules::specs::Text::bytes))]
pub fn failure_message(
    alloc: Global,
    what: What,
    name: &[u8],
    reason: &[u8],
) -> Result<Vec<u8>, AllocError>
    ensures { IfOk result (λ text. text.items ≡ failed_text what name.now reason.now) }
{
    let mut text = Vec::new(alloc);
    add(&mut text, b"lagvettu: cannot ")?;
    add(&mut text, verb(what))?;
    add(&mut text, name)?;
    add(&mut text, b": ")?;
    add(&mut text, reason)?;
    add(&mut text, b"\n")?;
    Ok(text)
}

/// That there is no memory for what would have to be said.
#[tactic(auto, unfolding(rules::specs::Text::bytes))]
pub fn memory_message() -> &'static [u8]
    ensures { result.now ≡ no_memory_text }
{
    b"lagvettu: out of memory\n"
}

// ---- Wrong use.

/// What is wrong with words that name no command, and where the right use is.
#[tactic(auto, unfolding(crate::specs::Messages::usage_text, rules::specs::Text::bytes))]
fn usage_message(alloc: Global, wrong: &[u8]) -> Result<Vec<u8>, AllocError>
    ensures { IfOk result (λ text. text.items ≡ usage_text wrong.now) }
{
    let mut text = Vec::new(alloc);
    add(&mut text, b"lagvettu: ")?;
    add(&mut text, wrong)?;
    add(&mut text, b"; see lagvettu --help\n")?;
    Ok(text)
}

// The same of a command.
#[tactic(auto, unfolding(crate::specs::Messages::wrong_use_text, rules::specs::Text::bytes))]
fn wrong_use_message(alloc: Global, command: &[u8], wrong: &[u8]) -> Result<Vec<u8>, AllocError>
    ensures { IfOk result (λ text. text.items ≡ wrong_use_text command.now wrong.now) }
{
    let mut text = Vec::new(alloc);
    add(&mut text, b"lagvettu: ")?;
    add(&mut text, command)?;
    add(&mut text, b": ")?;
    add(&mut text, wrong)?;
    add(&mut text, b"\nlagvettu: see lagvettu ")?;
    add(&mut text, command)?;
    add(&mut text, b" --help\n")?;
    Ok(text)
}

/// What is wrong with the words, and where the right use is.
pub fn misuse_message(
    alloc: Global,
    command: Option<&str>,
    wrong: &[u8],
) -> Result<Vec<u8>, AllocError>
    ensures { IfOk result (λ text. text.items ≡ misuse_text (option_map (λ s. s.now) command.entry) wrong.now) }
{
    match command {
        Some(command) => wrong_use_message(alloc, command.as_bytes(), wrong),
        None => usage_message(alloc, wrong),
    }
}

// ---- The rows of `check`.

/// The row of a text that is accepted.
#[tactic(auto, unfolding(crate::specs::Messages::accepted_row, rules::specs::Text::bytes))]
pub fn accepted_row(alloc: Global, name: &[u8]) -> Result<Vec<u8>, AllocError>
    ensures { IfOk result (λ row. row.items ≡ accepted_row name.now) }
{
    let mut row = Vec::new(alloc);
    add(&mut row, name)?;
    add(&mut row, b": accepted\n")?;
    Ok(row)
}

/// The row of a text that is refused.
pub fn refused_row(alloc: Global, name: &[u8], refusal: Refusal) -> Result<Vec<u8>, AllocError>
    ensures { IfOk result (λ row. row.items ≡ refused_row name.now (number_of refusal) (place_of refusal)) }
{
    let mut row = Vec::new(alloc);
    add_refused(&mut row, name, refusal)?;
    Ok(row)
}
