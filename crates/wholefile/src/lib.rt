#![tactic(auto)]

//! A file that is written whole or not at all: a new one is made beside it, and takes its place once it is sure to be kept.
pub mod disk; // disk.rt: the steps of a file system
pub mod placing; // placing.rt: a new file beside the old one, and in its place
pub mod output; // output.rt: a file as an output
pub mod system; // system.rt: the system's disk
pub mod memory; // memory.rt: a small disk in memory, whose steps can fail
pub mod beside; // beside.rt: the names of a new file and of its folder
pub mod limit; // limit.rt: how large a file may become

ghost use Rattle.std.specs.Prelude.{◌≡◌};

use std::io::Error;

/// Whose a file is: its owner and group by number, and the rights.
#[derive(Clone, Copy, Debug, PartialEq, Eq, Hash)]
pub struct Kept {
    pub owner: u32,
    pub group: u32,
    pub rights: u32,
}

/// What stands where a name leads.
#[derive(Clone, Copy, Debug, PartialEq, Eq, Hash)]
pub enum Seen {
    /// A file.
    File(Kept),
    /// A device, a pipe, or whatever else is no file.
    Device,
}

/// How a text was put.
#[derive(Clone, Copy, Drop)]
pub enum Placed {
    /// In a new file, which is sure to stand there.
    Settled,
    /// In a new file, which stands there; that its folder is sure to keep its name failed for this reason.
    Unsettled(Error),
    /// Into a device or a pipe.
    Poured,
}
