#![tactic(auto)]

//! `symbols` and `nearest`: the labels of a script, and the label nearest to an address, as text or as JSON.
ghost use Rattle.std.specs.Prelude.{◌≡◌, true, false, ℕ, List};
ghost use Rattle.rules.specs.Text.{Text};
ghost use Rattle.rules.specs.Answer.{Answer};
ghost use Rattle.station.specs.Puts.{Puts};
ghost use Rattle.cli_error.specs.Gives.{Makes};
ghost use Rattle.cli_run.specs.Input.{IsOf, OfInput};
ghost use Rattle.cli_labels.specs.Labels.{symbols_made, nearest_made, text_of_symbols, text_of_nearest, IsTextOf, Answers, text_made};

use answer::Refusal;
use cli_error::Failure;
use cli_run::blame::input_failure;
use cli_run::input::{Contents, Input, SCRIPT};
use cli_run::one::One;
use jsontext::labels::{labels_text, nearest_text};
use nearest::nearest_label;
use neartext::{NEAR, put_near};
use rules::MAX_LABELS;
use std::alloc::{AllocError, Global};
use symbols::list_symbols;
use symtext::{SYMBOLS, put_symbols};

/// The labels of a script at a base.
#[derive(Clone, Copy, Debug, PartialEq, Eq, Hash)]
pub struct Symbols {
    pub json: bool,
    pub base: u32,
}

/// The label nearest to an address in a script at a base.
#[derive(Clone, Copy, Debug, PartialEq, Eq, Hash)]
pub struct NearestLabel {
    pub json: bool,
    pub base: u32,
    pub address: u32,
}

// ---- What both commands do with an answer.

// The text that a call has written at the front of the buffer, or its refusal.
fn text_in(answer: Result<usize, Refusal>, buffer: Vec<u8>) -> Result<Vec<u8>, Refusal>
    ensures { (a : Answer Text) (x : List ℕ) → Puts a answer x buffer.items → IsTextOf a result }
{
    match answer {
        Ok(length) => {
            let mut text = buffer;
            text.truncate(length);
            Ok(text)
        }
        Err(refusal) => Err(refusal),
    }
}

// What a command makes of the answer to its input.
fn text_or_failure<'a>(
    input: Input<'a>,
    answer: Result<Result<Vec<u8>, Refusal>, AllocError>,
) -> Result<Vec<u8>, Failure<'a>>
    ensures { (a : Answer Text) → Answers a answer → OfInput 32768 input.entry (λ b. Makes (text_made b a) result) }
{
    match answer {
        Ok(Ok(text)) => Ok(text),
        Ok(Err(refusal)) => Err(input_failure(input, refusal)),
        Err(_) => Err(Failure::NoMemory),
    }
}

// ---- All labels.

// A line for each label.
fn symbol_lines(
    alloc: Global,
    script: &[u8],
    base: u32,
) -> Result<Result<Vec<u8>, Refusal>, AllocError>
    ensures { Answers (text_of_symbols false base script.now) result }
{
    let mut buffer = vec![in alloc; 0u8; SYMBOLS]?;
    let answer = put_symbols(script, base, buffer.as_mut_slice());
    Ok(text_in(answer, buffer))
}

// One value for all labels.
fn symbol_values(
    alloc: Global,
    script: &[u8],
    base: u32,
) -> Result<Result<Vec<u8>, Refusal>, AllocError>
    ensures { Answers (text_of_symbols true base script.now) result }
{
    let mut starts = [0u32; MAX_LABELS];
    let mut lengths = [0u32; MAX_LABELS];
    let mut addresses = [0u32; MAX_LABELS];
    let mut lines = [0u32; MAX_LABELS];
    match list_symbols(
        script,
        base,
        &mut starts,
        &mut lengths,
        &mut addresses,
        &mut lines,
    ) {
        Ok(count) => match labels_text(
            alloc,
            script,
            &starts[..count],
            &lengths[..count],
            &addresses[..count],
            &lines[..count],
        ) {
            Ok(text) => Ok(Ok(text)),
            Err(e) => Err(e),
        },
        Err(refusal) => Ok(Err(refusal)),
    }
}

// The labels of what was read.
fn symbols_of(
    alloc: Global,
    work: &Symbols,
    contents: Contents<'_>,
) -> Result<Result<Vec<u8>, Refusal>, AllocError>
    ensures { (s : Text) → IsOf 32768 s contents.entry → Answers (text_of_symbols work.now.json work.now.base s) result }
{
    match contents {
        Contents::Whole(script) => {
            if work.json {
                symbol_values(alloc, script, work.base)
            } else {
                symbol_lines(alloc, script, work.base)
            }
        }
        Contents::TooLong(_, total) => Ok(Err(Refusal::LongSource(total))),
    }
}

impl One for Symbols {
    ghost kept = { 32768 };

    ghost made = { λ s t b. symbols_made s.json s.base b };

    fn kept() -> usize
        ensures { result ≡ 32768 }
    {
        SCRIPT
    }

    fn make<'a>(
        &self,
        alloc: Global,
        _table: Option<Input<'a>>,
        input: Input<'a>,
    ) -> Result<Vec<u8>, Failure<'a>> {
        text_or_failure(input, symbols_of(alloc, self, input.contents))
    }
}

// ---- The nearest label.

// The line of the label.
fn near_line(
    alloc: Global,
    script: &[u8],
    base: u32,
    address: u32,
) -> Result<Result<Vec<u8>, Refusal>, AllocError>
    ensures { Answers (text_of_nearest false base address script.now) result }
{
    let mut buffer = vec![in alloc; 0u8; NEAR]?;
    let answer = put_near(script, base, address, buffer.as_mut_slice());
    Ok(text_in(answer, buffer))
}

// Its value.
fn near_value(
    alloc: Global,
    script: &[u8],
    base: u32,
    address: u32,
) -> Result<Result<Vec<u8>, Refusal>, AllocError>
    ensures { Answers (text_of_nearest true base address script.now) result }
{
    match nearest_label(script, base, address) {
        Ok(label) => match nearest_text(alloc, script, label) {
            Ok(text) => Ok(Ok(text)),
            Err(e) => Err(e),
        },
        Err(refusal) => Ok(Err(refusal)),
    }
}

// The label of what was read.
fn nearest_of(
    alloc: Global,
    work: &NearestLabel,
    contents: Contents<'_>,
) -> Result<Result<Vec<u8>, Refusal>, AllocError>
    ensures { (s : Text) → IsOf 32768 s contents.entry → Answers (text_of_nearest work.now.json work.now.base work.now.address s) result }
{
    match contents {
        Contents::Whole(script) => {
            if work.json {
                near_value(alloc, script, work.base, work.address)
            } else {
                near_line(alloc, script, work.base, work.address)
            }
        }
        Contents::TooLong(_, length) => Ok(Err(Refusal::LongSource(length))),
    }
}

impl One for NearestLabel {
    ghost kept = { 32768 };

    ghost made = { λ s t b. nearest_made s.json s.base s.address b };

    fn kept() -> usize
        ensures { result ≡ 32768 }
    {
        SCRIPT
    }

    fn make<'a>(
        &self,
        alloc: Global,
        _table: Option<Input<'a>>,
        input: Input<'a>,
    ) -> Result<Vec<u8>, Failure<'a>> {
        text_or_failure(input, nearest_of(alloc, self, input.contents))
    }
}
