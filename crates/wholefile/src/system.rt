//! The system's disk.
ghost use Rattle.std.specs.Prelude.{string_bytes, ⊤, None};

use crate::beside::folder;
use crate::disk::{DRAWN, Disk};
use crate::limit::limit_in;
use crate::{Kept, Seen};
use outcome::writing::write_whole;
use std::alloc::Global;
use std::fs;
use std::fs::{File, OpenOptions, Permissions};
use std::io::{Error, ErrorKind};
use std::os::unix::fs::{MetadataExt, OpenOptionsExt, PermissionsExt, fchown};
use std::random::RandomSource;

/// The disk that a process runs on.
#[derive(Drop)]
pub struct System<'a> {
    pub rt: &'a HostRuntime,
}

/// A file or a folder that is open, with the name by which it is known.
#[derive(Drop)]
pub struct Opened {
    file: File,
    name: String,
}

// EFBIG, "File too large".
const TOO_LARGE: i32 = 27;

// The rights that a file keeps: those of owner, group and all others.
const RIGHTS: u32 = 0o777;

impl<'a> Disk for System<'a> {
    type File = Opened;

    type Folder = Opened;

    ghost known = { λ _. None };

    ghost named = { λ f. string_bytes f.name };

    ghost folder_of = { λ f. string_bytes f.name };

    ghost settled = { λ _ _. ⊤ };

    ghost stays = { λ _ _. ⊤ };

    // A link to nothing counts as nothing: it is replaced.
    fn look(&mut self, name: &str) -> Result<Option<Seen>, Error> {
        match fs::metadata(self.rt, name) {
            Ok(data) => {
                if !data.is_file() {
                    return Ok(Some(Seen::Device));
                }
                let kept = Kept {
                    owner: data.uid(),
                    group: data.gid(),
                    rights: data.mode() & RIGHTS,
                };
                Ok(Some(Seen::File(kept)))
            }
            Err(e) => match e.kind() {
                ErrorKind::NotFound => Ok(None),
                _ => Err(e),
            },
        }
    }

    fn real(&mut self, _alloc: Global, name: &str) -> Result<String, Error> {
        match fs::canonicalize(self.rt, name) {
            Ok(path) => Ok(path.into_string()),
            Err(e) => Err(e),
        }
    }

    fn may_write(&mut self, name: &str) -> Result<(), Error> {
        match OpenOptions::new().write(true).open(self.rt, name) {
            Ok(_) => Ok(()),
            Err(e) => Err(e),
        }
    }

    // A file that would grow above its limit ends the process, so the limit is read before. Where it cannot be read there is none.
    fn has_room(&mut self, size: usize) -> Result<(), Error> {
        let limit = match fs::read_to_string(self.rt, "/proc/self/limits") {
            Ok(text) => limit_in(text.as_bytes()),
            Err(_) => None,
        };
        match limit {
            Some(limit) if (limit as usize) < size => Err(Error::from_raw_os_error(TOO_LARGE)),
            _ => Ok(()),
        }
    }

    fn open_folder(&mut self, name: &str) -> Result<Opened, Error> {
        let kept = String::from_str(self.rt.alloc(), name)?;
        match File::open(self.rt, folder(name)) {
            Ok(file) => Ok(Opened { file, name: kept }),
            Err(e) => Err(e),
        }
    }

    fn draw(&mut self) -> Result<[u8; DRAWN], Error> {
        let mut drawn = [0u8; DRAWN];
        match self.rt.fill_bytes(&mut drawn) {
            Ok(()) => Ok(drawn),
            Err(e) => Err(e),
        }
    }

    fn create(&mut self, name: &str, rights: u32) -> Result<Opened, Error> {
        let kept = String::from_str(self.rt.alloc(), name)?;
        let mut how = OpenOptions::new();
        how.write(true).create_new(true).mode(rights);
        match how.open(self.rt, name) {
            Ok(file) => Ok(Opened { file, name: kept }),
            Err(e) => Err(e),
        }
    }

    #[tactic(auto, using(crate::proofs::Unknown::unknown))]
    fn fill(&mut self, file: &Opened, text: &[u8]) -> Result<(), Error> {
        write_whole(self.rt, &mut &file.file, text)
    }

    fn give(&mut self, file: &Opened, owner: Option<u32>, group: u32) -> Result<(), Error> {
        fchown(&file.file, owner, Some(group))
    }

    #[tactic(auto, using(crate::proofs::Unknown::unknown))]
    fn permit(&mut self, file: &Opened, rights: u32) -> Result<(), Error> {
        file.file.set_permissions(Permissions::from_mode(rights))
    }

    #[tactic(auto, using(crate::proofs::Unknown::unknown))]
    fn sync(&mut self, file: &Opened) -> Result<(), Error> {
        file.file.sync_all()
    }

    fn rename(&mut self, from: &str, to: &str) -> Result<(), Error> {
        fs::rename(self.rt, from, to)
    }

    fn sync_folder(&mut self, folder: &Opened) -> Result<(), Error> {
        folder.file.sync_all()
    }

    fn remove(&mut self, name: &str) -> Result<(), Error> {
        fs::remove_file(self.rt, name)
    }

    fn pour(&mut self, name: &str, text: &[u8]) -> Result<(), Error> {
        match OpenOptions::new().write(true).open(self.rt, name) {
            Ok(mut file) => write_whole(self.rt, &mut file, text),
            Err(e) => Err(e),
        }
    }
}
