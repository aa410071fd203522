//! The files of an example, and standard input.
ghost use Rattle.std.specs.Prelude.{◌≡◌, map, IfOk, option_map};
ghost use lib.ListN.{get_or};
ghost use Rattle.pages.specs.Files.{digit, byte, filed, file, held, named};

use crate::reading::cut_at;
use crate::texts::{behind, is_same};
use std::alloc::{AllocError, Global};

/// A file in memory.
#[derive(Drop)]
pub struct Held<'a> {
    pub name: &'a [u8],
    pub bytes: Vec<u8>,
}

fn digit(b: u8) -> usize
    ensures { result ≡ digit b }
{
    let b = usize::from(b);
    if 65 <= b {
        b - 55
    } else {
        b.saturating_sub(48)
    }
}

// The digit at a place, 0 where there is none.
fn digit_at(piece: &[u8], k: usize) -> usize
    ensures { result ≡ digit (get_or piece.now k 0) }
{
    match piece.get(k) {
        Some(b) => digit(*b),
        None => 0,
    }
}

// A byte of two digits.
fn byte(piece: &[u8]) -> u8
    ensures { result ≡ byte piece.now }
{
    ((16 * digit_at(piece, 0) + digit_at(piece, 1)) % 256) as u8
}

// The bytes of these pieces.
#[tactic(auto, using(crate::proofs::Filed::mapped_first, crate::proofs::Filed::mapped_next, crate::proofs::Filed::mapped_last))]
fn bytes(alloc: Global, pieces: &[&[u8]]) -> Result<Vec<u8>, AllocError>
    ensures { IfOk result (λ v. v.items ≡ map (λ p. byte p.now) pieces.now) }
{
    let mut text = Vec::new(alloc);
    for k in 0..pieces.len() {
        text.push(byte(pieces[k]))?;
    }
    Ok(text)
}

// A file by the pieces of its row.
#[tactic(auto, using(crate::proofs::Filed::none_filed))]
fn read_pieces<'a>(alloc: Global, pieces: &[&'a [u8]]) -> Result<Held<'a>, AllocError>
    ensures { IfOk result (λ h. named h ≡ filed (map (λ p. p.now) pieces.now)) }
{
    match pieces {
        [] => Ok(Held {
            name: b"",
            bytes: Vec::new(alloc),
        }),
        [name, rest @ ..] => {
            let bytes = bytes(alloc, rest)?;
            Ok(Held { name, bytes })
        }
    }
}

// A file by its row.
fn read_file<'a>(alloc: Global, row: &'a [u8]) -> Result<Held<'a>, AllocError>
    ensures { IfOk result (λ h. named h ≡ file row.now) }
{
    let pieces = cut_at(alloc, behind(row, 6), b' ')?;
    read_pieces(alloc, pieces.as_slice())
}

/// The files of an example, by their rows.
#[tactic(auto, using(crate::proofs::Filed::first, crate::proofs::Filed::next, crate::proofs::Filed::last))]
pub fn read_files<'a>(alloc: Global, rows: &[&'a [u8]]) -> Result<Vec<Held<'a>>, AllocError>
    ensures { IfOk result (λ v. map (λ h. named h) v.items ≡ map file (map (λ l. l.now) rows.now)) }
{
    let mut files = Vec::new(alloc);
    for k in 0..rows.len() {
        files.push(read_file(alloc, rows[k])?)?;
    }
    Ok(files)
}

/// The bytes of the first file of a name.
#[tactic(auto, using(crate::proofs::Filed::sought_first, crate::proofs::Filed::sought_here, crate::proofs::Filed::sought_later, crate::proofs::Filed::sought_nowhere))]
pub fn find_bytes<'a>(files: &'a [Held<'_>], name: &[u8]) -> Option<&'a [u8]>
    ensures { option_map (λ b. b.now) result ≡ held name.now (map (λ h. named h) files.now) }
{
    for k in 0..files.len() {
        if is_same(files[k].name, name) {
            return Some(&files[k].bytes);
        }
    }
    None
}
