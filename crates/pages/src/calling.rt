//! A call of the command on an example, in memory.
ghost use Rattle.std.specs.Prelude.{map, Some, IfOk};
ghost use Rattle.outcome.specs.Outcome.{Left};
ghost use Rattle.pages.specs.Page.{shown};
ghost use Rattle.pages.specs.Files.{named, readable};
ghost use Rattle.pages.specs.Called.{printed, Gives};

use crate::Example;
use crate::files::{Held, find_bytes, read_files};
use crate::reading::cut_at;
use crate::texts::{behind, behind_first, input_under};
use console::Arguments;
use outcome::opening::Opening;
use outcome::output::Output;
use std::alloc::{AllocError, Global};
use std::env::FillError;
use std::io::{Error, ErrorKind};
use std::rt::Clock;
use wholefile::memory::Memory;
use work::running::run;

/// Standard output, in memory.
#[derive(Drop)]
pub struct Printed {
    pub text: Vec<u8>,
}

impl Output for Printed {
    ghost puts = { λ old new text result. Left (printed old) (printed new) text result };

    fn put(&mut self, text: &[u8]) -> Result<(), Error> {
        match self.text.extend_from_slice(text) {
            Ok(()) => Ok(()),
            Err(e) => Err(Error::from(e)),
        }
    }
}

/// The words of an example, the command's name first.
#[derive(Drop)]
pub struct Words<'a> {
    words: Vec<&'a [u8]>,
}

impl<'a> Arguments for Words<'a> {
    ghost known = { λ w. Some (map (λ l. l.now) w.words.items) };

    fn put(&self, k: usize, text: &mut [u8]) -> Result<usize, FillError> {
        if self.words.len() <= k {
            return Err(FillError::NotPresent);
        }
        let word = self.words[k];
        if text.len() < word.len() {
            return Err(FillError::TooLong);
        }
        text[..word.len()].copy_from_slice(word);
        Ok(word.len())
    }
}

/// The files of an example, and its standard input.
#[derive(Drop)]
pub struct Inputs<'a> {
    files: &'a [Held<'a>],
    input: &'a [u8],
}

impl<'a> Opening for Inputs<'a> {
    type Reader = &'a [u8];

    ghost holds = { λ s name. readable (map (λ h. named h) s.files.now) s.input.now name };

    fn open(&self, name: Option<&str>) -> Result<&'a [u8], Error> {
        let Some(name) = name else {
            return Ok(self.input);
        };
        match find_bytes(self.files, name.as_bytes()) {
            Some(bytes) => Ok(bytes),
            None => Err(Error::from(ErrorKind::NotFound)),
        }
    }
}

// A disk, on which no example puts anything.
fn disk(alloc: Global) -> Memory {
    Memory {
        alloc,
        out: None,
        fresh: None,
        given: Vec::new(alloc),
        owner: 0,
        group: 0,
        mask: 0,
        limit: 0,
        is_writable: false,
        takes_owner: false,
        takes_group: false,
        removes: false,
        is_settled: false,
        is_stuck: false,
        fails_at: 0,
    }
}

/// What the command prints of an example, and after it what it says.
pub fn call<C: Clock>(
    clock: &C,
    alloc: Global,
    example: &Example<'_>,
) -> Result<Vec<u8>, AllocError>
    ensures { IfOk result (λ got. Gives (shown example.now) got.items) }
{
    let words = Words {
        words: cut_at(alloc, behind(example.line, 6), b' ')?,
    };
    let files = read_files(alloc, example.files)?;
    let under = input_under(alloc, example)?;
    let inputs = Inputs {
        files: &files,
        input: behind_first(&under),
    };
    let mut out = Printed {
        text: Vec::new(alloc),
    };
    let mut said = Vec::new(alloc);
    let ended = run(
        &words,
        clock,
        alloc,
        &inputs,
        disk(alloc),
        &mut out,
        &mut said,
    );
    let mut got = out.text;
    got.extend_from_slice(&said)?;
    Ok(got)
}
