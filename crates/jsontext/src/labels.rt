//! Labels with their lines, `{"labels":[{"address":4096,"line":2,"name":"LIM"}]}`, and the label nearest to an address,
//! `{"distance":3,"name":"GO"}`.
ghost use Rattle.std.specs.Prelude.{ℕ, ◌≡◌, ◌+◌, ◌≤◌, IfOk, None, map, length as len, take, drop};
ghost use Rattle.rules.specs.Assemble.{first_high};
ghost use Rattle.requests.specs.Symbols.{rows};
ghost use Rattle.serde_json.specs.View.{view};
ghost use Rattle.jsontext.specs.Line.{IsLine};
ghost use Rattle.jsontext.specs.Labels.{label_data, labels_data, labels_in, near_data, nearest_data, ruled, RowsStand};

use crate::line;
use nearest::Nearest;
use serde_json::{Value, json};
use std::alloc::{AllocError, Global};
use std::str;

// A name that stands in a source.
fn name_at(source: &[u8], start: usize, length: usize) -> &str
    requires within { start + length ≤ len source.now }
    requires ascii { first_high 0 source.now ≡ None }
    ensures { result.now ≡ take length (drop start source.now) }
{
    let end = start + length;
    match str::from_utf8(&source[start..end]) {
        Ok(name) => name,
        // There is no byte above 127.
        Err(_) => "",
    }
}

// A label with its address and line.
#[tactic(auto, unfolding(crate::specs::Labels::label_data))]
fn label_value(alloc: Global, name: &str, address: u32, line: u32) -> Result<Value, AllocError>
    ensures { (start : ℕ) → IfOk result (λ v. view v ≡ label_data record { name = name.now; start = start; address = address; line = line }) }
{
    json!(in alloc; {"address": address, "line": line, "name": name})
}

// The labels of rows.
fn label_values(
    alloc: Global,
    source: &[u8],
    starts: &[u32],
    lengths: &[u32],
    addresses: &[u32],
    lines: &[u32],
) -> Result<Vec<Value>, AllocError>
    requires { RowsStand source.now (rows starts.now lengths.now addresses.now lines.now) }
    ensures { IfOk result (λ vs. map view vs.items ≡ map label_data (labels_in source.now (rows starts.now lengths.now addresses.now lines.now))) }
{
    let mut items = Vec::new(alloc);
    // A row stands at one index of four slices.
    for k in 0..starts.len() {
        // `usize` has no `From<u32>`.
        let name = name_at(source, starts[k] as usize, lengths[k] as usize);
        let item = label_value(alloc, name, addresses[k], lines[k])?;
        items.push(item)?;
    }
    Ok(items)
}

// The labels of rows, in order.
fn labels_value(
    alloc: Global,
    source: &[u8],
    starts: &[u32],
    lengths: &[u32],
    addresses: &[u32],
    lines: &[u32],
) -> Result<Value, AllocError>
    requires { RowsStand source.now (rows starts.now lengths.now addresses.now lines.now) }
    ensures { IfOk result (λ v. view v ≡ labels_data (labels_in source.now (rows starts.now lengths.now addresses.now lines.now))) }
{
    let items = Value::Array(label_values(alloc, source, starts, lengths, addresses, lines)?);
    json!(in alloc; {"labels": items})
}

/// The line for the labels of a source whose numbers stand in four slices.
pub fn labels_text(
    alloc: Global,
    source: &[u8],
    starts: &[u32],
    lengths: &[u32],
    addresses: &[u32],
    lines: &[u32],
) -> Result<Vec<u8>, AllocError>
    requires { RowsStand source.now (rows starts.now lengths.now addresses.now lines.now) }
    ensures { IfOk result (λ t. IsLine (labels_data (labels_in source.now (rows starts.now lengths.now addresses.now lines.now))) t.items) }
{
    let value = labels_value(alloc, source, starts, lengths, addresses, lines)?;
    line(alloc, &value)
}

// A name, and the distance from its address to the one that is asked for.
fn near_value(alloc: Global, name: &str, distance: u32) -> Result<Value, AllocError>
    ensures { IfOk result (λ v. view v ≡ near_data name.now distance) }
{
    json!(in alloc; {"distance": distance, "name": name})
}

/// The line for the label of a source that is nearest to an address.
pub fn nearest_text(alloc: Global, source: &[u8], label: Nearest) -> Result<Vec<u8>, AllocError>
    requires within { label.start + label.length ≤ len source.now }
    requires ascii { first_high 0 source.now ≡ None }
    ensures { IfOk result (λ t. IsLine (nearest_data source.now (ruled label)) t.items) }
{
    let name = name_at(source, label.start, label.length);
    let value = near_value(alloc, name, label.distance)?;
    line(alloc, &value)
}
