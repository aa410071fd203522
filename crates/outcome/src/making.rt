//! Making a text out of what was read.
ghost use Rattle.std.specs.Prelude.{◌≡◌, ◌≤◌, ℕ, Bool, true, false, List, MatchResult};
ghost use Rattle.rules.specs.Text.{Text};
ghost use Rattle.rules.specs.Answer.{Answer};
ghost use Rattle.answer.specs.Refusal.{number_of, place_of};
ghost use Rattle.station.specs.Reads.{Reads};
ghost use Rattle.outcome.specs.Made.{Made, made, refuses, stopped, of_which, told_text};
ghost use Rattle.station.specs.Puts.{Puts};
ghost use Rattle.outcome.specs.Outcome.{NotMade};

use crate::{Stop, Unmade, of_which};
use answer::Refusal;
use station::TABLE;
use station::input::Input;
use std::alloc::Global;

/// The work of a command on one input, of which N bytes are kept.
pub trait Make<const N: usize> {
    // What is promised of the bytes of the branch table, none where none is lent, and those of the input.
    ghost promised: { Self → Text → Text → Made };

    /// Makes the text of a table and an input that were read to their ends.
    fn make(
        &self,
        alloc: Global,
        table: &[u8; TABLE],
        branches: Input,
        front: &[u8; N],
        input: Input,
    ) -> Result<Vec<u8>, Unmade>
        requires { (branches.failed ≡ false) × (input.failed ≡ false) }
        ensures { (a b : Text) → Reads a table.now branches → Reads b front.now input → MatchResult result (λ v. promised self.now a b ≡ made v.items) (NotMade (promised self.now a b)) };
}

/// A refusal that stops a call: it speaks of the branch table or of the input.
pub fn stop_of(refusal: Refusal) -> Stop
    ensures { stopped result ≡ refuses (of_which (number_of refusal)) (number_of refusal) (place_of refusal) }
{
    Stop::Refused(of_which(refusal), refusal)
}

/// The text that a call has put at the front of the room, where it stays; or its refusal.
pub fn put_text(answer: Result<usize, Refusal>, room: Vec<u8>) -> Result<Vec<u8>, Unmade>
    requires { (a : Answer Text) × (x : List ℕ) × Puts a answer x room.items }
    ensures { (a : Answer Text) (x : List ℕ) → Puts a answer x room.items → MatchResult result (λ v. told_text a ≡ made v.items) (NotMade (told_text a)) }
{
    match answer {
        Ok(n) => {
            let mut text = room;
            text.truncate(n);
            Ok(text)
        }
        Err(refusal) => Err(Unmade::Stopped(stop_of(refusal))),
    }
}

/// What one of several inputs comes to: its text, and whether the input is accepted.
#[derive(Drop)]
pub struct Part {
    pub text: Vec<u8>,
    pub accepted: bool,
}

/// What stands in front of the texts of several inputs, between them and after them.
#[derive(Clone, Copy)]
pub struct Joining {
    pub front: &'static [u8],
    pub between: &'static [u8],
    pub behind: &'static [u8],
}

/// The work of a command on one of several inputs, which has a name.
pub trait MakeNamed<const N: usize> {
    // What is promised of the input's name, the bytes of the branch table, none where none is lent, and those of the input.
    ghost promised: { Self → Text → Text → Text → Made };

    // Whether the input is accepted, of the bytes of the table and the input, where a text is made all the same.
    ghost accepts: { Self → Text → Text → Bool } = { λ _ _ _. true };

    /// Makes the text of an input of that name, with a table; both were read to their ends.
    fn make_named(
        &self,
        alloc: Global,
        name: &str,
        table: &[u8; TABLE],
        branches: Input,
        front: &[u8; N],
        input: Input,
    ) -> Result<Part, Unmade>
        requires { (branches.failed ≡ false) × (input.failed ≡ false) }
        ensures { (a b : Text) → Reads a table.now branches → Reads b front.now input → MatchResult result (λ p. (promised self.now name.now a b ≡ made p.text.items) × (p.accepted ≡ accepts self.now a b)) (NotMade (promised self.now name.now a b)) };
}
