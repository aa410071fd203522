//! The names that a new file and its folder have.
ghost use Rattle.std.specs.Prelude.{◌≡◌, IfOk, string_bytes};
ghost use Rattle.wholefile.specs.Beside.{letter, drawn_name, beside, opened, folder};

use crate::disk::DRAWN;
use std::alloc::{AllocError, Global};
use std::path::Path;

// A letter by a byte: a to z or 2 to 7.
fn letter(b: u8) -> u8
    ensures { result ≡ letter b }
{
    let k = b % 32;
    if k < 26 { b'a' + k } else { b'2' + (k - 26) }
}

// The name of a new file.
#[tactic(auto, unfolding(rules::specs::Text::bytes))]
fn drawn_name(alloc: Global, drawn: &[u8; DRAWN]) -> Result<String, AllocError>
    ensures { IfOk result (λ s. string_bytes s ≡ drawn_name drawn.now) }
{
    let mut name = String::from_str(alloc, ".lagvettu-")?;
    for b in drawn {
        name.push(char::from(letter(*b)))?;
    }
    Ok(name)
}

/// The path of a new file in the folder of a name.
pub fn beside(alloc: Global, name: &str, drawn: &[u8; DRAWN]) -> Result<String, AllocError>
    ensures { IfOk result (λ s. string_bytes s ≡ beside name.now drawn.now) }
{
    let drawn = drawn_name(alloc, drawn)?;
    let path = Path::new(name).with_file_name(alloc, drawn.as_str())?;
    Ok(path.into_string())
}

// The folder, or `.` for none.
#[tactic(auto, unfolding(rules::specs::Text::bytes))]
fn or_here(folder: &str) -> &str
    ensures { result.now ≡ opened (Some folder.now) }
{
    if folder.is_empty() { "." } else { folder }
}

/// The folder that a name is in.
#[tactic(auto, unfolding(rules::specs::Text::bytes))]
pub fn folder(name: &str) -> &str
    ensures { result.now ≡ folder name.now }
{
    match Path::new(name).parent() {
        Some(parent) => or_here(parent.as_str()),
        None => ".",
    }
}
