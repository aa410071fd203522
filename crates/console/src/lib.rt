#![tactic(auto)]

//! What a program asks of the system: its arguments. They are bytes, which need not be text, and nothing allocates.
ghost use Rattle.std.specs.Prelude.{◌≡◌, ◌≤◌, ◌-◌, ◌^◌, min, length, ℕ, List, IfSome, None};
ghost use Rattle.std.specs.declared.option.Option.{Option};
ghost use Rattle.std.specs.Io.{WritesAtMost};
ghost use Rattle.console.specs.Arguments.{argument_at, fitting, IsFront, Puts};

use std::env::{Env, FillError};

/// The longest argument that is read.
pub const ARGUMENT: usize = 4096;

/// What a read of a program's input asks for.
pub const CHUNK: usize = 65536;

/// What a read of a file or of names asks for.
pub const SMALL_CHUNK: usize = 4096;

/// Where a program's arguments come from: the system, or a list of them.
pub trait Arguments {
    // The arguments, the program's own name first, where they are known. Of the system's nothing is known.
    ghost known: { Self → Option (List (List ℕ)) } = { λ _. None };

    /// Puts argument k at the front of the text and answers its length, or says why not.
    fn put(&self, k: usize, text: &mut [u8]) -> Result<usize, FillError>
        ensures bound { WritesAtMost result text.new }
        ensures bytes { IfSome (known self.now) (λ arguments. Puts arguments k text.new result) };
}

impl<E: Env> Arguments for E {
    fn put(&self, k: usize, text: &mut [u8]) -> Result<usize, FillError> {
        self.arg(k, text)
    }
}

/// How many arguments there are, with the program's own name, or 2^64 - 1 where there are more.
pub fn argument_count<A: Arguments>(arguments: &A) -> usize
    ensures { IfSome (A.known arguments.now) (λ known. result ≡ min (length known) (2 ^ 64 - 1)) }
{
    // An argument is asked for by its place.
    for k in 0..usize::MAX {
        if let Err(FillError::NotPresent) = arguments.put(k, &mut []) {
            return k;
        }
    }
    usize::MAX
}

/// Puts an argument at the front of the text, and answers its length: 0 where there is no such argument, or it is longer than the text.
// 0 and no `Option`: its callers take an argument that is not there as an empty one.
pub fn argument<A: Arguments>(arguments: &A, k: usize, text: &mut [u8]) -> usize
    ensures in_bounds { result ≤ length text.new }
    ensures bytes { IfSome (A.known arguments.now) (λ known. IsFront (fitting (length text.new) (argument_at known k)) text.new result) }
{
    arguments.put(k, text).unwrap_or(0)
}
