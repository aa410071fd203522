//! `assemble` and `manual`: the list of a script.
ghost use Rattle.std.specs.Prelude.{◌≡◌};
ghost use Rattle.cli_lists.specs.Assembled.{assembled, assembled_manual};

use crate::call::{Call, call_of};
use crate::listed::{assemble_contents, list_output};
use cli_error::Failure;
use cli_run::blame::{failure_of, input_failure};
use cli_run::input::{Input, SCRIPT};
use cli_run::one::One;
use std::alloc::Global;

/// The list of a script at a base, under a branch table if one is named, as text or as JSON.
#[derive(Clone, Copy)]
pub struct Assembling {
    pub json: bool,
    pub base: u32,
}

/// The list of a script at a base by the manual's words.
#[derive(Clone, Copy)]
pub struct AssemblingManual {
    pub base: u32,
}

impl One for Assembling {
    ghost kept = { 32768 };

    ghost made = { λ s t b. assembled s.json s.base t b };

    fn kept() -> usize
        ensures { result ≡ 32768 }
    {
        SCRIPT
    }

    fn make<'a>(
        &self,
        alloc: Global,
        table: Option<Input<'a>>,
        input: Input<'a>,
    ) -> Result<Vec<u8>, Failure<'a>> {
        match assemble_contents(alloc, call_of(self.base, table), input.contents) {
            Ok(Ok(list)) => list_output(alloc, self.json, &list),
            Ok(Err(refusal)) => Err(failure_of(table, input, refusal)),
            Err(_) => Err(Failure::NoMemory),
        }
    }
}

impl One for AssemblingManual {
    ghost kept = { 32768 };

    ghost made = { λ s t b. assembled_manual s.base b };

    fn kept() -> usize
        ensures { result ≡ 32768 }
    {
        SCRIPT
    }

    fn make<'a>(
        &self,
        alloc: Global,
        _table: Option<Input<'a>>,
        input: Input<'a>,
    ) -> Result<Vec<u8>, Failure<'a>> {
        match assemble_contents(alloc, Call::Manual(self.base), input.contents) {
            Ok(Ok(list)) => list_output(alloc, false, &list),
            Ok(Err(refusal)) => Err(input_failure(input, refusal)),
            Err(_) => Err(Failure::NoMemory),
        }
    }
}
