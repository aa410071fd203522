//! What is said on standard error.
ghost use Rattle.std.specs.Prelude.{◌≡◌, ◌≤◌, ◌⊎◌, Result, ⊤, Ok, Err, length, take, option_map, IfOk, OnErr, MatchResult};
ghost use Rattle.std.specs.declared.io.Error.{Error};
ghost use Rattle.std.specs.Io.KnownBytes.{Appends, Keeps};
ghost use Rattle.rules.specs.Text.{Text};
ghost use Rattle.outcome.specs.Outcome.{Left};
ghost use Rattle.diagnostic.specs.Said.{no_memory_text};
ghost use Rattle.serving.specs.Said.{named, called, called_by, with_input, name_of, of_table, said_of, Tells};
ghost use Rattle.serving.specs.Gathered.{NoRoom};

use diagnostic::said::{failed_by, no_memory, stopped};
use outcome::{Outcome, Stop, Which};
use std::alloc::{AllocError, Global};
use std::io::{Error, ErrorKind, Write};

/// How the files of a call are named.
#[derive(Clone, Copy)]
pub(crate) struct Names<'a> {
    pub table: &'a str,
    pub input: &'a str,
    pub output: &'a str,
}

/// The name of an input: standard input has none.
#[tactic(auto, unfolding(crate::specs::Said::named, rules::specs::Text::bytes))]
pub fn named(name: Option<&str>) -> &str
    ensures { result.now ≡ named (option_map (λ s. s.now) name.entry) }
{
    match name {
        Some(name) => name,
        None => "standard input",
    }
}

/// The names of a call's files.
pub(crate) fn names_of<'a>(
    branches: Option<&'a str>,
    file: Option<&'a str>,
    output: &'a str,
) -> Names<'a>
    ensures { called result ≡ called_by (option_map (λ s. s.now) branches.entry) (option_map (λ s. s.now) file.entry) output.now }
{
    Names {
        table: named(branches),
        input: named(file),
        output,
    }
}

/// The names where another input is read.
pub(crate) fn with_input<'a>(names: Names<'a>, file: Option<&'a str>) -> Names<'a>
    ensures { called result ≡ with_input (called names.entry) (option_map (λ s. s.now) file.entry) }
{
    Names {
        table: names.table,
        input: named(file),
        output: names.output,
    }
}

// The name of what failed.
fn name_of<'a>(names: Names<'a>, which: Option<Which>) -> &'a str
    ensures { result.now ≡ name_of (called names.entry) which }
{
    match which {
        None => names.output,
        Some(Which::Table) => names.table,
        Some(Which::Input) | Some(Which::Sheet(_)) | Some(Which::Script) => names.input,
    }
}

// Whether it is the table that is refused.
fn is_of_table(stop: Stop) -> bool
    ensures { result ≡ of_table stop }
{
    match stop {
        Stop::Refused(Which::Table, _) => true,
        Stop::Refused(Which::Input, _)
        | Stop::Refused(Which::Sheet(_), _)
        | Stop::Refused(Which::Script, _)
        | Stop::NotAList(_)
        | Stop::NotASheet(_) => false,
    }
}

// Writes what a writer takes of the bytes at once, and answers how many; none where a signal came.
fn write_some<E: Write>(errors: &mut E, bytes: &[u8]) -> Result<usize, Error>
    ensures some { IfOk result (λ n. (n ≤ length bytes.now) × Appends (E.contents errors.old) (E.contents errors.new) (take n bytes.now)) }
    ensures none { OnErr result (Keeps (E.contents errors.old) (E.contents errors.new)) }
{
    match errors.write(bytes) {
        Ok(0) if !bytes.is_empty() => Err(Error::from(ErrorKind::WriteZero)),
        Ok(n) => Ok(n),
        Err(e) => match e.kind() {
            ErrorKind::Interrupted => Ok(0),
            _ => Err(e),
        },
    }
}

// Writes all bytes, or as many of the first as the writer took before it failed: it is not waited for.
fn write_said<E: Write>(errors: &mut E, bytes: &[u8]) -> Result<(), Error>
    ensures { Left (E.contents errors.old) (E.contents errors.new) bytes.now result }
{
    let mut rest = bytes;
    for _ in 0..u64::MAX {
        let n = write_some(errors, rest)?;
        rest = &rest[n..];
        if rest.is_empty() {
            return Ok(());
        }
    }
    Err(Error::from(ErrorKind::TimedOut))
}

/// Says a text, or that there was no memory for it. Where that can't be written there is nobody to tell.
pub fn say<E: Write>(text: Result<Vec<u8>, AllocError>, errors: &mut E)
    ensures { (w : Text) × (r : Result ⊤ Error) × MatchResult text (λ v. w ≡ v.items) (λ _. w ≡ no_memory_text) × Left (E.contents errors.old) (E.contents errors.new) w r }
{
    match text {
        Ok(text) => {
            let _ = write_said(errors, &text);
        }
        Err(_) => {
            let _ = write_said(errors, no_memory());
        }
    }
}

// Why there is no text: of the table, or of the input with its line.
fn stopped_by(
    alloc: Global,
    names: Names<'_>,
    source: &[u8],
    stop: Stop,
) -> Result<Vec<u8>, AllocError>
    ensures { IfOk result (λ v. v.items ≡ said_of (called names.entry) source.now stop) }
{
    if is_of_table(stop) {
        stopped(alloc, names.table.as_bytes(), stop, &[])
    } else {
        stopped(alloc, names.input.as_bytes(), stop, source)
    }
}

/// Says what a call comes to, where there is something to say; source, the text of the input.
#[tactic(auto, using(crate::proofs::Silent::accepted_silent, crate::proofs::Silent::not_all_silent, crate::proofs::Silent::wrong_use_silent))]
pub(crate) fn tell<E: Write>(
    alloc: Global,
    names: Names<'_>,
    source: &[u8],
    outcome: Outcome,
    errors: &mut E,
)
    ensures { Tells (called names.entry) source.now outcome (E.contents errors.old) (E.contents errors.new) }
{
    match outcome {
        Outcome::Stopped(stop) => say(stopped_by(alloc, names, source, stop), errors),
        Outcome::Failed(what, which, e) => {
            let name = name_of(names, which).as_bytes();
            say(failed_by(alloc, what, name, &e), errors)
        }
        Outcome::NoMemory => say(Err(AllocError), errors),
        Outcome::Accepted | Outcome::NotAll | Outcome::WrongUse => {}
    }
}

/// Says what a call comes to, and answers it.
pub(crate) fn told<E: Write>(
    alloc: Global,
    names: Names<'_>,
    source: &[u8],
    outcome: Outcome,
    errors: &mut E,
) -> Outcome
    ensures answer { result ≡ outcome }
    ensures told { Tells (called names.entry) source.now outcome (E.contents errors.old) (E.contents errors.new) }
{
    tell(alloc, names, source, outcome, errors);
    outcome
}

/// Says that there was no memory to join texts in.
pub(crate) fn no_room<E: Write>(errors: &mut E) -> Outcome
    ensures { NoRoom (E.contents errors.old) (E.contents errors.new) result }
{
    let _ = write_said(errors, no_memory());
    Outcome::NoMemory
}
