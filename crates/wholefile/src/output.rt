//! A file as an output.
ghost use Rattle.wholefile.specs.Put.{Whole};

use crate::Placed;
use crate::disk::Disk;
use crate::placing::put;
use outcome::output::Output;
use std::alloc::Global;
use std::io::Error;

/// The file that a path leads to, which a text is put into whole or not at all. That its folder is not sure to keep its name is an error, though the
/// new file stands.
#[derive(Drop)]
pub struct WholeFile<'a, D> {
    pub disk: D,
    pub alloc: Global,
    pub path: &'a str,
}

impl<'a, D: Disk> Output for WholeFile<'a, D> {
    ghost puts = { λ old new text result. Whole (D.settled new.disk) (D.stays new.disk) old.path.now text (D.known old.disk) (D.known new.disk) result };

    fn put(&mut self, text: &[u8]) -> Result<(), Error> {
        match put(&mut self.disk, self.alloc, self.path, text) {
            Ok(Placed::Settled) => Ok(()),
            Ok(Placed::Poured) => Ok(()),
            Ok(Placed::Unsettled(e)) => Err(e),
            Err(e) => Err(e),
        }
    }
}
