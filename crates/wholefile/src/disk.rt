//! The steps of a file system that a file is put by.
ghost use Rattle.std.specs.Prelude.{◌≡◌, ◌≤◌, ℕ, true, length, IfSome, IfOk, OnOk, OnErr, None, Some, option_map, string_bytes};
ghost use Rattle.std.specs.declared.option.Option.{Option};
ghost use Rattle.rules.specs.Text.{Text};
ghost use Rattle.wholefile.specs.Shelf.{Shelf, file, leads, found, made, added, given, with_rights, sure, standing, alter, moved};
ghost use Rattle.wholefile.specs.Put.{Sees, Does, Pours, Ready};

use crate::{Kept, Seen};
use std::alloc::Global;
use std::io::Error;

/// How many bytes a new file's name is drawn by.
pub const DRAWN: usize = 6;

/// A file system, step by step. A step that fails leaves all as it was, but for the file that it works on.
pub trait Disk {
    /// A new file, open for writing.
    type File: Drop;

    /// A folder.
    type Folder: Drop;

    // What stands on it, where that is known. Of the system's nothing is known.
    ghost known: { Self → Option Shelf } = { λ _. None };

    // The name of an open file.
    ghost named: { Self.File → Text };

    // Of which name a folder is that of.
    ghost folder_of: { Self.Folder → Text };

    // What is known once the folder of a name is sure to be kept.
    ghost settled: { Self → Text → Type 0 };

    // What is known once the file of a name could not be removed.
    ghost stays: { Self → Text → Type 0 };

    /// What stands where a name leads; none only where it leads to nothing.
    fn look(&mut self, name: &str) -> Result<Option<Seen>, Error>
        ensures same { known self.new ≡ known self.old }
        ensures seen { IfSome (known self.old) (λ s. IfOk result (λ r. Sees (found s name.now) r)) };

    /// Where a name leads.
    fn real(&mut self, alloc: Global, name: &str) -> Result<String, Error>
        ensures same { known self.new ≡ known self.old }
        ensures leads { IfSome (known self.old) (λ s. IfOk result (λ r. string_bytes r ≡ leads s name.now)) };

    /// Whether the file of a name may be written.
    fn may_write(&mut self, name: &str) -> Result<(), Error>
        ensures same { known self.new ≡ known self.old }
        ensures allowed { IfSome (known self.old) (λ s. OnOk result (s.may_write name.now ≡ true)) };

    /// Whether a file may have so many bytes.
    fn has_room(&mut self, size: usize) -> Result<(), Error>
        ensures same { known self.new ≡ known self.old }
        ensures room { IfSome (known self.old) (λ s. OnOk result (size ≤ s.limit)) };

    /// Opens the folder that a name is in.
    fn open_folder(&mut self, name: &str) -> Result<Self::Folder, Error>
        ensures same { known self.new ≡ known self.old }
        ensures of { IfOk result (λ f. folder_of f ≡ name.now) };

    /// Draws by what a new file is named.
    fn draw(&mut self) -> Result<[u8; DRAWN], Error>
        ensures same { known self.new ≡ known self.old };

    /// Makes a file under a name that has none, with those of the rights that new files get.
    fn create(&mut self, name: &str, rights: u32) -> Result<Self::File, Error>
        ensures named { IfOk result (λ f. named f ≡ name.now) }
        ensures free { IfSome (known self.old) (λ s. OnOk result (s.holds name.now ≡ None)) }
        ensures made { OnOk result (known self.new ≡ option_map (λ s. standing name.now (Some (file (made rights s))) s) (known self.old)) }
        ensures same { OnErr result (known self.new ≡ known self.old) };

    /// Writes at the end of a file.
    fn fill(&mut self, file: &Self::File, text: &[u8]) -> Result<(), Error>
        requires { IfSome (known self.old) (λ s. length text.now ≤ s.limit) }
        ensures { Does (named file.now) (added text.now) (known self.old) (known self.new) result };

    /// Gives a file to a group, and to an owner if one is named.
    fn give(&mut self, file: &Self::File, owner: Option<u32>, group: u32) -> Result<(), Error>
        ensures given { OnOk result (known self.new ≡ option_map (alter (named file.now) (given owner group)) (known self.old)) }
        ensures same { OnErr result (known self.new ≡ known self.old) };

    /// Gives a file its rights.
    fn permit(&mut self, file: &Self::File, rights: u32) -> Result<(), Error>
        ensures { Does (named file.now) (with_rights rights) (known self.old) (known self.new) result };

    /// Makes sure that a file is kept as it is.
    fn sync(&mut self, file: &Self::File) -> Result<(), Error>
        ensures { Does (named file.now) sure (known self.old) (known self.new) result };

    /// Moves a file to another name, in the place of what stands there.
    fn rename(&mut self, from: &str, to: &str) -> Result<(), Error>
        requires { IfSome (known self.old) (Ready from.now to.now) }
        ensures moved { OnOk result (known self.new ≡ option_map (moved from.now to.now) (known self.old)) }
        ensures same { OnErr result (known self.new ≡ known self.old) };

    /// Makes sure that a folder keeps its names.
    fn sync_folder(&mut self, folder: &Self::Folder) -> Result<(), Error>
        ensures same { known self.new ≡ known self.old }
        ensures settled { OnOk result (settled self.new (folder_of folder.now)) };

    /// Removes the file of a name.
    fn remove(&mut self, name: &str) -> Result<(), Error>
        ensures removed { OnOk result (known self.new ≡ option_map (standing name.now None) (known self.old)) }
        ensures same { OnErr result (known self.new ≡ known self.old) }
        ensures stays { OnErr result (stays self.new name.now) };

    /// Writes to what a name leads to, which is a device or a pipe.
    fn pour(&mut self, name: &str, text: &[u8]) -> Result<(), Error>
        ensures { Pours name.now text.now (known self.old) (known self.new) result };
}
