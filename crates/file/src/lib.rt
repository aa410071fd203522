#![tactic(auto)]

//! A file that a program is given by its name: it is read to its end, and its front kept. No contract says whose text that is.
ghost use Rattle.file.specs.FileRead.{FileRead};

use console::SMALL_CHUNK;
use station::SCRIPT;
use station::input::{Input, failed_at, read_whole};
use std::fs;
use std::rt::Files;

/// Reads a file to its end, and keeps its front. A file that cannot be opened is one that cannot be read, and so is one whose name is not
/// UTF-8.
#[tactic(auto, using(crate::proofs::Steps::not_opened, crate::proofs::Steps::opened))]
pub fn read_file<R: Files>(files: &R, path: &[u8], buffer: &mut [u8]) -> Input
    ensures { FileRead buffer.old buffer.new result }
{
    // What stands for a file that cannot be read is an `Input`: `?` cannot answer it.
    let Ok(name) = str::from_utf8(path) else {
        return failed_at(0);
    };
    match fs::open(files, name) {
        Ok(mut file) => read_whole::<_, SMALL_CHUNK>(&mut file, buffer),
        Err(_) => failed_at(0),
    }
}

/// The same of a script, or of what else has at most a script's length.
pub fn read_script<R: Files>(files: &R, path: &[u8], script: &mut [u8; SCRIPT]) -> Input
    ensures { FileRead script.old script.new result }
{
    read_file(files, path, script)
}
