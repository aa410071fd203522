//! The files of the system, and its standard input.
use outcome::opening::Opening;
use std::fs::File;
use std::io;
use std::io::{Error, Read, Stdin};

/// Where the command reads from.
#[derive(Drop)]
pub struct Inputs<'a> {
    pub rt: &'a HostRuntime,
}

/// An input that is open.
#[derive(Drop)]
pub enum Source {
    /// Standard input.
    Standard(Stdin),
    /// A file.
    Named(File),
}

impl Read for Source {
    fn read(&mut self, buf: &mut [u8]) -> io::Result<usize> {
        match self {
            Source::Standard(input) => input.read(buf),
            Source::Named(file) => file.read(buf),
        }
    }
}

impl<'a> Opening for Inputs<'a> {
    type Reader = Source;

    fn open(&self, name: Option<&str>) -> Result<Source, Error> {
        match name {
            None => Ok(Source::Standard(self.rt.stdin())),
            Some(name) => Ok(Source::Named(File::open(self.rt, name)?)),
        }
    }
}
