//! A list of words: `{"list":[{"address":4096,"mark":0,"word":20081}]}`.
ghost use Rattle.std.specs.Prelude.{◌≡◌, IfOk, map};
ghost use Rattle.rules.specs.Assemble.{slices};
ghost use Rattle.rules.specs.Tally.{held};
ghost use Rattle.serde_json.specs.View.{view};
ghost use Rattle.jsontext.specs.Line.{IsLine};
ghost use Rattle.jsontext.specs.Places.{place_data, list_data, HaveRoom};

use crate::line;
use serde_json::{Value, json};
use std::alloc::{AllocError, Global};

// A word with its address and mark.
#[tactic(auto, unfolding(crate::specs::Places::place_data))]
fn place_value(alloc: Global, address: u32, word: u16, mark: u8) -> Result<Value, AllocError>
    ensures { IfOk result (λ v. view v ≡ place_data record { address = address; word = word; mark = mark }) }
{
    json!(in alloc; {"address": address, "mark": mark, "word": word})
}

// The words of the first `count` places of three slices.
fn place_values(
    alloc: Global,
    addresses: &[u32],
    words: &[u16],
    marks: &[u8],
    count: usize,
) -> Result<Vec<Value>, AllocError>
    requires { HaveRoom count addresses.now words.now marks.now }
    ensures { IfOk result (λ vs. map view vs.items ≡ map place_data (held count (slices addresses.now words.now marks.now))) }
{
    let mut items = Vec::new(alloc);
    // A word stands at one index of three slices.
    for k in 0..count {
        let item = place_value(alloc, addresses[k], words[k], marks[k])?;
        items.push(item)?;
    }
    Ok(items)
}

// The list that three slices hold in their first `count` places.
fn list_value(
    alloc: Global,
    addresses: &[u32],
    words: &[u16],
    marks: &[u8],
    count: usize,
) -> Result<Value, AllocError>
    requires { HaveRoom count addresses.now words.now marks.now }
    ensures { IfOk result (λ v. view v ≡ list_data (held count (slices addresses.now words.now marks.now))) }
{
    let items = Value::Array(place_values(alloc, addresses, words, marks, count)?);
    json!(in alloc; {"list": items})
}

/// The line for the list that three slices hold in their first `count` places.
pub fn list_text(
    alloc: Global,
    addresses: &[u32],
    words: &[u16],
    marks: &[u8],
    count: usize,
) -> Result<Vec<u8>, AllocError>
    requires { HaveRoom count addresses.now words.now marks.now }
    ensures { IfOk result (λ t. IsLine (list_data (held count (slices addresses.now words.now marks.now))) t.items) }
{
    let value = list_value(alloc, addresses, words, marks, count)?;
    line(alloc, &value)
}
