#![tactic(auto)]

//! A branch table in a file, for the programs that take `-b FILE`.
ghost use Rattle.file.specs.FileRead.{FileRead};

use file::read_file;
use station::TABLE;
use station::input::Input;
use std::rt::Files;

/// Reads the file at the path to its end, and keeps its front; nothing where there is no path, since no table is lent.
pub fn read_table<R: Files>(files: &R, path: Option<&[u8]>, table: &mut [u8; TABLE]) -> Input
    ensures { FileRead table.old table.new result }
{
    match path {
        Some(path) => read_file(files, path, table),
        // No `default()`: an `Input` starts with more to read.
        None => Input {
            total: 0,
            more: false,
            failed: false,
        },
    }
}
