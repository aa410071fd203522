//! The numbers of the standard streams. The system gives a file that is opened the lowest number that is free: where a program starts without
//! one of the three streams, that would be the stream's, and what is said would land in a file. So each such number is taken first.
ghost use Rattle.std.specs.Bool.{OnFalse};
ghost use Rattle.std.specs.Prelude.{◌≡◌, None};

use std::fs::{File, OpenOptions};
use std::os::fd::{AsFd, AsRawFd};
use std::rt::Files;

/// What takes the numbers of the standard streams that were free.
#[derive(Drop)]
pub struct Kept {
    input: Option<File>,
    first: Option<File>,
    second: Option<File>,
    third: Option<File>,
}

// A file that cannot be read takes the number of standard input, where that is free: so reading it fails.
fn unreadable<R: Files<File = File>>(files: &R, input: &impl AsFd) -> Option<File> {
    match input.as_fd().try_clone_to_owned() {
        Ok(_) => None,
        Err(_) => OpenOptions::new().write(true).open(files, "/dev/null").ok(),
    }
}

// A file that cannot be written takes the lowest number that is free, where that is a standard stream's.
fn unwritable<R: Files<File = File>>(files: &R, due: bool) -> Option<File>
    ensures { OnFalse due (result ≡ None) }
{
    if !due {
        return None;
    }
    let file = File::open(files, "/").ok()?;
    if file.as_raw_fd() <= 2 {
        Some(file)
    } else {
        None
    }
}

/// Takes the numbers of the standard streams that are free, for as long as that is kept.
pub fn keep_numbers<R: Files<File = File>>(files: &R, input: &impl AsFd) -> Kept {
    let input = unreadable(files, input);
    let first = unwritable(files, true);
    let second = unwritable(files, first.is_some());
    let third = unwritable(files, second.is_some());
    Kept {
        input,
        first,
        second,
        third,
    }
}
