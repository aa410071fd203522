//! A small disk in memory: a file `out`, which may be there, a link `link` to it, a device `dev`, and room for one new file. Any of its steps can
//! be made to fail.
ghost use Rattle.std.specs.Prelude.{◌≡◌, true, Some, None, OnOk, OnErr, option_map, string_bytes, bit_and};
ghost use Rattle.rules.specs.Text.{same};
ghost use Rattle.wholefile.specs.Shelf.{Shelf, file, made, added, given, with_rights, sure, standing, alter, moved, poured};
ghost use Rattle.wholefile.specs.Put.{Sees, Does};
ghost use Rattle.wholefile.specs.Slots.{new_name, Leads, node, shelf};

use crate::disk::{DRAWN, Disk};
use crate::{Kept, Seen};
use std::alloc::Global;
use std::io::{Error, ErrorKind};
use text::starts_with;

/// A file.
#[derive(Drop)]
pub struct Stored {
    pub text: Vec<u8>,
    pub synced: bool,
    pub kept: Kept,
}

/// The disk. Its step number `fails_at`, from 0, fails.
#[derive(Drop)]
pub struct Memory {
    pub alloc: Global,
    pub out: Option<Stored>,
    pub fresh: Option<Stored>,
    pub given: Vec<u8>,
    pub owner: u32,
    pub group: u32,
    pub mask: u32,
    pub limit: usize,
    pub is_writable: bool,
    pub takes_owner: bool,
    pub takes_group: bool,
    pub removes: bool,
    pub is_settled: bool,
    pub is_stuck: bool,
    pub fails_at: usize,
}

/// The new file, open.
#[derive(Drop)]
pub struct Open;

/// The folder of a name.
#[derive(Drop)]
pub struct Folder {
    of: String,
}

/// The names that there are.
#[derive(Clone, Copy, Debug, PartialEq, Eq, Hash)]
enum Place {
    New,
    Device,
    Out,
    Link,
    Nothing,
}

// Whether two names are the same.
#[tactic(auto, using(text::proofs::Compare::same_longer, text::proofs::Compare::same_starts))]
fn is_same(s: &[u8], t: &[u8]) -> bool
    ensures { result ≡ same s.now t.now }
{
    s.len() == t.len() && starts_with(s, t)
}

#[tactic(auto, using(text::proofs::Compare::same_is), unfolding(rules::specs::Text::bytes))]
fn named(name: &str) -> Place
    ensures { Leads name.now result }
{
    let name = name.as_bytes();
    if is_same(name, b".lagvettu-aaaaaa") {
        return Place::New;
    }
    if is_same(name, b"dev") {
        return Place::Device;
    }
    if is_same(name, b"out") {
        return Place::Out;
    }
    if is_same(name, b"link") {
        return Place::Link;
    }
    Place::Nothing
}

fn failed() -> Error {
    Error::from(ErrorKind::Other)
}

// What a look sees of a file.
fn seen(file: &Option<Stored>) -> Option<Seen>
    ensures { Sees (node file.now) result }
{
    match file {
        Some(file) => Some(Seen::File(file.kept)),
        None => None,
    }
}

impl Memory {
    // Whether this step fails.
    fn fails(&mut self) -> bool
        ensures same { shelf self.new ≡ shelf self.old }
        ensures settled { self.new.is_settled ≡ self.old.is_settled }
        ensures stuck { self.new.is_stuck ≡ self.old.is_stuck }
    {
        let fails = self.fails_at == 0;
        self.fails_at = self.fails_at.wrapping_sub(1);
        fails
    }

    // Makes the new file, if there is none.
    fn make(&mut self, name: &str, rights: u32) -> Result<(), Error>
        ensures free { OnOk result ((shelf self.old).holds name.now ≡ None) }
        ensures named { OnOk result (name.now ≡ new_name) }
        ensures made { OnOk result (shelf self.new ≡ standing name.now (Some (file (made rights (shelf self.old)))) (shelf self.old)) }
        ensures same { OnErr result (shelf self.new ≡ shelf self.old) }
    {
        match named(name) {
            Place::New => {}
            _ => return Err(failed()),
        }
        match self.fresh {
            None => {}
            Some(_) => return Err(failed()),
        }
        let kept = Kept {
            owner: self.owner,
            group: self.group,
            rights: rights & self.mask,
        };
        self.fresh = Some(Stored {
            text: Vec::new(self.alloc),
            synced: false,
            kept,
        });
        Ok(())
    }

    // Writes at the end of the new file.
    fn add(&mut self, text: &[u8]) -> Result<(), Error>
        ensures { Does new_name (added text.now) (Some (shelf self.old)) (Some (shelf self.new)) result }
    {
        match self.fresh.take() {
            Some(mut file) => {
                file.synced = false;
                let result = file.text.extend_from_slice(text);
                self.fresh = Some(file);
                match result {
                    Ok(()) => Ok(()),
                    Err(e) => Err(Error::from(e)),
                }
            }
            None => Err(failed()),
        }
    }

    // Gives the new file to an owner, if one is named, and a group.
    fn hand(&mut self, owner: Option<u32>, group: u32) -> Result<(), Error>
        ensures given { OnOk result (shelf self.new ≡ alter new_name (given owner group) (shelf self.old)) }
        ensures same { OnErr result (shelf self.new ≡ shelf self.old) }
    {
        match self.fresh.take() {
            Some(mut file) => {
                file.kept.owner = owner.unwrap_or(file.kept.owner);
                file.kept.group = group;
                file.synced = false;
                self.fresh = Some(file);
                Ok(())
            }
            None => Err(failed()),
        }
    }

    // Gives the new file its rights.
    fn allow(&mut self, rights: u32) -> Result<(), Error>
        ensures { Does new_name (with_rights rights) (Some (shelf self.old)) (Some (shelf self.new)) result }
    {
        match self.fresh.take() {
            Some(mut file) => {
                file.kept.rights = rights;
                file.synced = false;
                self.fresh = Some(file);
                Ok(())
            }
            None => Err(failed()),
        }
    }

    // Makes sure of the new file.
    fn secure(&mut self) -> Result<(), Error>
        ensures { Does new_name sure (Some (shelf self.old)) (Some (shelf self.new)) result }
    {
        match self.fresh.take() {
            Some(mut file) => {
                file.synced = true;
                self.fresh = Some(file);
                Ok(())
            }
            None => Err(failed()),
        }
    }

    // Moves the new file.
    fn shift(&mut self, from: &str, to: &str) -> Result<(), Error>
        ensures moved { OnOk result (shelf self.new ≡ moved from.now to.now (shelf self.old)) }
        ensures same { OnErr result (shelf self.new ≡ shelf self.old) }
    {
        match named(from) {
            Place::New => {}
            _ => return Err(failed()),
        }
        match named(to) {
            Place::Out => {}
            _ => return Err(failed()),
        }
        match self.fresh.take() {
            Some(file) => {
                self.out = Some(file);
                Ok(())
            }
            None => Err(failed()),
        }
    }

    // Removes the new file.
    fn take_away(&mut self, name: &str) -> Result<(), Error>
        ensures removed { OnOk result (shelf self.new ≡ standing name.now None (shelf self.old)) }
        ensures same { OnErr result (shelf self.new ≡ shelf self.old) }
        ensures stuck { self.new.is_stuck ≡ self.old.is_stuck }
    {
        match named(name) {
            Place::New => {
                self.fresh = None;
                Ok(())
            }
            _ => Err(failed()),
        }
    }

    // Gives the device a text.
    fn give_device(&mut self, name: &str, text: &[u8]) -> Result<(), Error>
        ensures given { OnOk result (shelf self.new ≡ poured name.now text.now (shelf self.old)) }
        ensures same { OnErr result (shelf self.new ≡ shelf self.old) }
    {
        match named(name) {
            Place::Device => match self.given.extend_from_slice(text) {
                Ok(()) => Ok(()),
                Err(e) => Err(Error::from(e)),
            },
            _ => Err(failed()),
        }
    }
}

impl Disk for Memory {
    type File = Open;

    type Folder = Folder;

    ghost known = { λ m. Some (shelf m) };

    ghost named = { λ _. new_name };

    ghost folder_of = { λ f. string_bytes f.of };

    ghost settled = { λ m _. m.is_settled ≡ true };

    ghost stays = { λ m _. m.is_stuck ≡ true };

    fn look(&mut self, name: &str) -> Result<Option<Seen>, Error> {
        if self.fails() {
            return Err(failed());
        }
        match named(name) {
            Place::New => Ok(seen(&self.fresh)),
            Place::Device => Ok(Some(Seen::Device)),
            Place::Out => Ok(seen(&self.out)),
            Place::Link => Ok(seen(&self.out)),
            Place::Nothing => Ok(None),
        }
    }

    fn real(&mut self, alloc: Global, name: &str) -> Result<String, Error> {
        if self.fails() {
            return Err(failed());
        }
        match named(name) {
            Place::Out => Ok(String::from_str(alloc, "out")?),
            Place::Link => Ok(String::from_str(alloc, "out")?),
            _ => Err(failed()),
        }
    }

    fn may_write(&mut self, _name: &str) -> Result<(), Error> {
        if self.fails() {
            return Err(failed());
        }
        if self.is_writable {
            Ok(())
        } else {
            Err(failed())
        }
    }

    fn has_room(&mut self, size: usize) -> Result<(), Error> {
        if self.fails() {
            return Err(failed());
        }
        if size <= self.limit {
            Ok(())
        } else {
            Err(failed())
        }
    }

    fn open_folder(&mut self, name: &str) -> Result<Folder, Error> {
        if self.fails() {
            return Err(failed());
        }
        let of = String::from_str(self.alloc, name)?;
        Ok(Folder { of })
    }

    fn draw(&mut self) -> Result<[u8; DRAWN], Error> {
        if self.fails() {
            return Err(failed());
        }
        Ok([0; DRAWN])
    }

    fn create(&mut self, name: &str, rights: u32) -> Result<Open, Error> {
        if self.fails() {
            return Err(failed());
        }
        match self.make(name, rights) {
            Ok(()) => Ok(Open),
            Err(e) => Err(e),
        }
    }

    // Half of the text is written where it fails.
    fn fill(&mut self, _file: &Open, text: &[u8]) -> Result<(), Error> {
        if self.fails() {
            let _ = self.add(&text[..text.len() / 2]);
            return Err(failed());
        }
        self.add(text)
    }

    fn give(&mut self, _file: &Open, owner: Option<u32>, group: u32) -> Result<(), Error> {
        if self.fails() {
            return Err(failed());
        }
        if !self.takes_group || owner.is_some() && !self.takes_owner {
            return Err(failed());
        }
        self.hand(owner, group)
    }

    fn permit(&mut self, _file: &Open, rights: u32) -> Result<(), Error> {
        if self.fails() {
            return Err(failed());
        }
        self.allow(rights)
    }

    fn sync(&mut self, _file: &Open) -> Result<(), Error> {
        if self.fails() {
            return Err(failed());
        }
        self.secure()
    }

    fn rename(&mut self, from: &str, to: &str) -> Result<(), Error> {
        if self.fails() {
            return Err(failed());
        }
        self.is_settled = false;
        self.shift(from, to)
    }

    fn sync_folder(&mut self, _folder: &Folder) -> Result<(), Error> {
        if self.fails() {
            return Err(failed());
        }
        self.is_settled = true;
        Ok(())
    }

    fn remove(&mut self, name: &str) -> Result<(), Error> {
        self.is_stuck = true;
        if self.fails() || !self.removes {
            return Err(failed());
        }
        self.take_away(name)
    }

    // Half of the text is given where it fails.
    fn pour(&mut self, name: &str, text: &[u8]) -> Result<(), Error> {
        if self.fails() {
            let _ = self.give_device(name, &text[..text.len() / 2]);
            return Err(failed());
        }
        self.give_device(name, text)
    }
}
