//! Why lines have no word: `{"files":[{"file":"x.s","lines":[{"line":1,"verdict":"not an instruction"}]}]}`.
ghost use Rattle.std.specs.Prelude.{◌≡◌, ◌+◌, ◌<◌, ◌^◌, IfOk, List, map, length as len};
ghost use Rattle.whytext.specs.WhyLine.{phrase};
ghost use Rattle.whytext.specs.Verdicts.{said_of};
ghost use Rattle.serde_json.specs.View.{view};
ghost use Rattle.jsontext.specs.Line.{IsLine};
ghost use Rattle.jsontext.specs.Lines.{verdict_data, lines_data, Explained, explained, file_data, files_data};

use crate::line;
use explain::Verdict;
use serde_json::{Value, json};
use std::alloc::{AllocError, Global};

// What a verdict says.
#[tactic(auto, unfolding(rules::specs::Text::bytes))]
fn phrase(verdict: Verdict) -> &'static str
    ensures { result.now ≡ phrase (said_of verdict) }
{
    match verdict {
        Verdict::Emitted => "word emitted",
        Verdict::NotInstruction => "not an instruction",
        Verdict::UnknownMnemonic => "unknown mnemonic",
        Verdict::WrongCount => "wrong operand count",
        Verdict::WrongKinds => "operand kinds",
        Verdict::NoDigits => "number: no digits",
        Verdict::BadDigit => "number: bad digit",
        Verdict::OutOfRange => "number: out of range",
        Verdict::NotRecorded => "label not recorded",
        Verdict::OutOfReach => "displacement out of range",
    }
}

// The verdict on a line.
#[tactic(auto, unfolding(crate::specs::Lines::verdict_data))]
fn verdict_value(alloc: Global, line: usize, verdict: Verdict) -> Result<Value, AllocError>
    ensures { IfOk result (λ v. view v ≡ verdict_data line (said_of verdict)) }
{
    json!(in alloc; {"line": line, "verdict": phrase(verdict)})
}

// The verdicts on the lines from `first` on.
fn line_values(alloc: Global, first: usize, verdicts: &[Verdict]) -> Result<Vec<Value>, AllocError>
    requires { first + len verdicts.now < 2 ^ 64 }
    ensures { IfOk result (λ vs. map view vs.items ≡ lines_data first (map said_of verdicts.now)) }
{
    let mut items = Vec::new(alloc);
    for (k, verdict) in verdicts.iter().enumerate() {
        let item = verdict_value(alloc, first + k, *verdict)?;
        items.push(item)?;
    }
    Ok(items)
}

/// A script's entry: its name, and the verdicts on its lines from `first` on.
#[tactic(auto, unfolding(crate::specs::Lines::file_data))]
pub fn file_value(
    alloc: Global,
    name: &str,
    first: usize,
    verdicts: &[Verdict],
) -> Result<Value, AllocError>
    requires { first + len verdicts.now < 2 ^ 64 }
    ensures { IfOk result (λ v. view v ≡ file_data (explained name.now first (map said_of verdicts.now))) }
{
    let items = Value::Array(line_values(alloc, first, verdicts)?);
    json!(in alloc; {"file": name, "lines": items})
}

// The entries of scripts.
fn files_value(alloc: Global, files: Vec<Value>) -> Result<Value, AllocError>
    ensures { (fs : List Explained) → map view files.items ≡ map file_data fs → IfOk result (λ v. view v ≡ files_data fs) }
{
    json!(in alloc; {"files": Value::Array(files)})
}

/// The line for the entries of scripts, as `file_value` makes them.
pub fn files_text(alloc: Global, files: Vec<Value>) -> Result<Vec<u8>, AllocError>
    ensures { (fs : List Explained) → map view files.items ≡ map file_data fs → IfOk result (λ t. IsLine (files_data fs) t.items) }
{
    let value = files_value(alloc, files)?;
    line(alloc, &value)
}
