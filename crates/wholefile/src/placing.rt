//! A file put whole: a new one is made beside it, and takes its place.
ghost use Rattle.std.specs.Prelude.{◌≡◌, ◌≤◌, Some, length, IfSome, option_map};
ghost use Rattle.std.specs.declared.option.Option.{Option};
ghost use Rattle.wholefile.specs.Shelf.{File, Shelf, alter, found, leads};
ghost use Rattle.wholefile.specs.declared.Seen.TheVariants as Is;
ghost use Rattle.wholefile.specs.Put.{Sees, IsDevice, Ends, given_back, owned, finished, New, Takes, Undone, rights_for, Allowed, PutsNew, Replaces, Put, LeadsToTheFile, ChangesNoOther};

use crate::beside::beside;
use crate::disk::Disk;
use crate::{Kept, Placed, Seen};
use std::alloc::Global;
use std::io::{Error, ErrorKind};

// ---- A new file that is open.

// Gives it to the group of the old one, and to its owner too where that may be.
fn give_back<D: Disk>(disk: &mut D, file: &D::File, old: Kept) -> Result<(), Error>
    ensures { Ends (D.named file.now) (given_back old) (D.known disk.old) (D.known disk.new) result }
{
    match disk.give(file, Some(old.owner), old.group) {
        Ok(()) => Ok(()),
        Err(_) => match disk.give(file, None, old.group) {
            Ok(()) => Ok(()),
            Err(_) => Err(Error::new(ErrorKind::PermissionDenied, "its group cannot be kept")),
        },
    }
}

// Makes it whose the old one was. It gets the rights last: no other group has them before.
fn own<D: Disk>(disk: &mut D, file: &D::File, old: Option<Kept>) -> Result<(), Error>
    ensures { Ends (D.named file.now) (owned old) (D.known disk.old) (D.known disk.new) result }
{
    match old {
        None => Ok(()),
        Some(old) => match give_back(disk, file, old) {
            Ok(()) => disk.permit(file, old.rights),
            Err(e) => Err(e),
        },
    }
}

// Makes sure of it with the text.
fn complete<D: Disk>(
    disk: &mut D,
    file: &D::File,
    old: Option<Kept>,
    text: &[u8],
) -> Result<(), Error>
    requires { IfSome (D.known disk.old) (λ s. length text.now ≤ s.limit) }
    ensures { Ends (D.named file.now) (finished old text.now) (D.known disk.old) (D.known disk.new) result }
{
    match disk.fill(file, text) {
        Ok(()) => match own(disk, file, old) {
            Ok(()) => disk.sync(file),
            Err(e) => Err(e),
        },
        Err(e) => Err(e),
    }
}

// ---- A new file under its own name.

// Removes it, and answers why.
fn undo<D: Disk>(disk: &mut D, name: &str, why: Error) -> Error
    ensures { (old : Option Shelf) (h : File → File) → D.known disk.old ≡ option_map (alter name.now h) old → Undone (D.stays disk.new name.now) name.now old (D.known disk.new) }
{
    match disk.remove(name) {
        Ok(()) => why,
        Err(_) => why,
    }
}

// Puts it in the place of what another name holds, or removes it.
fn take_place<D: Disk>(
    disk: &mut D,
    file: D::File,
    name: &str,
    to: &str,
    old: Option<Kept>,
    text: &[u8],
) -> Result<(), Error>
    requires named { D.named file ≡ name.now }
    requires new { IfSome (D.known disk.old) (New name.now to.now (length text.now)) }
    ensures { Takes (D.stays disk.new name.now) name.now to.now (finished old text.now) (D.known disk.old) (D.known disk.new) result }
{
    match complete(disk, &file, old, text) {
        Ok(()) => match disk.rename(name, to) {
            Ok(()) => Ok(()),
            Err(e) => Err(undo(disk, name, e)),
        },
        Err(e) => Err(undo(disk, name, e)),
    }
}

// ---- A new file in the place of the old one.

// The rights that a new file is made with: until it has the old one's, its owner's alone.
fn rights_for(old: Option<Kept>) -> u32
    ensures { result ≡ rights_for old }
{
    match old {
        Some(_) => 0o600,
        None => 0o666,
    }
}

// Makes it under a name, and puts it in the place of what another holds.
fn put_by<D: Disk>(
    disk: &mut D,
    name: &str,
    to: &str,
    old: Option<Kept>,
    text: &[u8],
) -> Result<(), Error>
    requires allowed { IfSome (D.known disk.old) (Allowed to.now) }
    requires room { IfSome (D.known disk.old) (λ s. length text.now ≤ s.limit) }
    ensures { PutsNew (D.stays disk.new) to.now old text.now (D.known disk.old) (D.known disk.new) result }
{
    match disk.create(name, rights_for(old)) {
        Ok(file) => take_place(disk, file, name, to, old, text),
        Err(e) => Err(e),
    }
}

// Draws the name.
fn put_new<D: Disk>(
    disk: &mut D,
    alloc: Global,
    to: &str,
    old: Option<Kept>,
    text: &[u8],
) -> Result<(), Error>
    requires allowed { IfSome (D.known disk.old) (Allowed to.now) }
    requires room { IfSome (D.known disk.old) (λ s. length text.now ≤ s.limit) }
    ensures { PutsNew (D.stays disk.new) to.now old text.now (D.known disk.old) (D.known disk.new) result }
{
    match disk.draw() {
        Ok(drawn) => match beside(alloc, to, &drawn) {
            Ok(name) => put_by(disk, name.as_str(), to, old, text),
            Err(e) => Err(Error::from(e)),
        },
        Err(e) => Err(e),
    }
}

// Asks for room and for the folder first, and makes sure of the folder last.
fn replace<D: Disk>(
    disk: &mut D,
    alloc: Global,
    to: &str,
    old: Option<Kept>,
    text: &[u8],
) -> Result<Placed, Error>
    requires { IfSome (D.known disk.old) (Allowed to.now) }
    ensures { Replaces (D.settled disk.new) (D.stays disk.new) to.now old text.now (D.known disk.old) (D.known disk.new) result }
{
    match disk.has_room(text.len()) {
        Ok(()) => match disk.open_folder(to) {
            Ok(folder) => match put_new(disk, alloc, to, old, text) {
                Ok(()) => match disk.sync_folder(&folder) {
                    Ok(()) => Ok(Placed::Settled),
                    Err(e) => Ok(Placed::Unsettled(e)),
                },
                Err(e) => Err(e),
            },
            Err(e) => Err(e),
        },
        Err(e) => Err(e),
    }
}

// ---- A path.

// Over a file that stands where the path leads.
fn put_over<D: Disk>(
    disk: &mut D,
    alloc: Global,
    path: &str,
    old: Kept,
    text: &[u8],
) -> Result<Placed, Error>
    requires { IfSome (D.known disk.old) (λ s. Sees (found s path.now) (Some (Is.File old))) }
    ensures { Put (D.settled disk.new) (D.stays disk.new) path.now text.now (D.known disk.old) (D.known disk.new) result }
{
    match disk.real(alloc, path) {
        Ok(real) => match disk.may_write(real.as_str()) {
            Ok(()) => replace(disk, alloc, real.as_str(), Some(old), text),
            Err(e) => Err(e),
        },
        Err(e) => Err(e),
    }
}

// Into a device or a pipe.
fn put_into<D: Disk>(disk: &mut D, path: &str, text: &[u8]) -> Result<Placed, Error>
    requires { IfSome (D.known disk.old) (λ s. IsDevice (found s path.now)) }
    ensures { Put (D.settled disk.new) (D.stays disk.new) path.now text.now (D.known disk.old) (D.known disk.new) result }
{
    match disk.pour(path, text) {
        Ok(()) => Ok(Placed::Poured),
        Err(e) => Err(e),
    }
}

/// Puts a text whole into the file that a path leads to, or not at all. A new file takes the old one's place, with its group and rights and,
/// where that may be, its owner; a device or a pipe is written to.
pub fn put<D: Disk>(disk: &mut D, alloc: Global, path: &str, text: &[u8]) -> Result<Placed, Error>
    ensures { Put (D.settled disk.new) (D.stays disk.new) path.now text.now (D.known disk.old) (D.known disk.new) result }
{
    match disk.look(path) {
        Ok(None) => replace(disk, alloc, path, None, text), // also under a link to nothing
        Ok(Some(Seen::File(old))) => put_over(disk, alloc, path, old, text),
        Ok(Some(Seen::Device)) => put_into(disk, path, text),
        Err(e) => Err(e), // what stands there is not known
    }
}

// ---- What is put, in plain words.

/// The path leads to the file that was put.
#[tactic(auto, using(crate::proofs::Found::leads_to_the_file))]
pub fn leads_to_the_file()
    ensures { LeadsToTheFile }
{}

/// No other name was changed.
#[tactic(auto, using(crate::proofs::Found::changes_no_other))]
pub fn changes_no_other()
    ensures { ChangesNoOther }
{}
