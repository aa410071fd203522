//! Which file a refusal is of, in a call that reads an input, and a branch table if one is named.
ghost use Rattle.std.specs.Prelude.{◌≡◌, ◌||◌, ℕ, eqb};
ghost use Rattle.answer.specs.Refusal.{number_of, place_of};
ghost use Rattle.cli_error.specs.Answered.{fails};
ghost use Rattle.cli_error.specs.Gives.{Fails};
ghost use Rattle.cli_run.specs.Input.{OfInput, OfBoth};
ghost use Rattle.cli_run.specs.Told.{of_input, blamed};

use crate::input::Input;
use answer::Refusal;
use cli_error::Failure;

/// Whether a refusal is of a branch table, in a call that has one.
pub fn is_of_table(refusal: Refusal) -> bool
    ensures { result ≡ (eqb (number_of refusal) 16 || eqb (number_of refusal) 17) }
{
    matches!(refusal, Refusal::BadCommand(_) | Refusal::BadBranchName(_))
}

/// A refusal of an input.
pub fn input_failure<'a>(input: Input<'a>, refusal: Refusal) -> Failure<'a>
    ensures { (kept : ℕ) → OfInput kept input.entry (λ b. Fails (fails (of_input kept b (number_of refusal) (place_of refusal))) result) }
{
    Failure::Refused(input.name, refusal, input.contents.front())
}

/// A refusal of a branch table or an input.
pub fn failure_of<'a>(table: Option<Input<'a>>, input: Input<'a>, refusal: Refusal) -> Failure<'a>
    ensures { (kept : ℕ) → OfBoth kept table.entry input.entry (λ t b. Fails (fails (blamed kept t b (number_of refusal) (place_of refusal))) result) }
{
    match table {
        Some(table) => {
            if is_of_table(refusal) {
                return Failure::Refused(table.name, refusal, &[]);
            }
            input_failure(input, refusal)
        }
        None => input_failure(input, refusal),
    }
}
