//! The branch table that a script stands under, if one is named; and the line in front of a script's text.
ghost use Rattle.std.specs.Prelude.{◌≡◌, ◌++◌, IfOk, OnOk, cond, [], ◌∷◌};
ghost use Rattle.std.specs.Option.{option_copied};
ghost use Rattle.rules.specs.Answer.{refused};
ghost use Rattle.answer.specs.Refusal.{number_of, place_of};
ghost use Rattle.cli_lines.specs.Lines.{table_front, long_answer, headed as headed_text};
ghost use Rattle.cli_lines.specs.State.{OfTable};

use answer::Refusal;
use branches::load_branches;
use cli_run::input::Input;
use std::alloc::{AllocError, Global};

/// What is kept of the branch table.
pub(crate) fn table_names<'a>(table: Option<Input<'a>>) -> Option<&'a [u8]>
    ensures { OfTable table.entry (λ t. option_copied result ≡ table_front t) }
{
    match table {
        Some(table) => Some(table.contents.front()),
        None => None,
    }
}

/// The refusal of a script over the limit, of which only the length counts: a table that is refused comes first.
pub(crate) fn long_script(names: Option<&[u8]>, total: usize) -> Refusal
    ensures { long_answer (option_copied names.entry) total ≡ refused (number_of result) (place_of result) }
{
    match names {
        Some(table) => match load_branches(table) {
            Ok(_) => Refusal::LongSource(total),
            Err(refusal) => refusal,
        },
        None => Refusal::LongSource(total),
    }
}

// Adds the line with a name, if there are several scripts.
fn push_head(text: &mut Vec<u8>, headed: bool, name: &str) -> Result<(), AllocError>
    ensures { OnOk result (text.new.items ≡ text.old.items ++ cond headed (name.now ++ (58 ∷ 10 ∷ [])) []) }
{
    if headed {
        text.extend_from_slice(name.as_bytes())?;
        text.extend_from_slice(b":\n")?;
    }
    Ok(())
}

/// A text, with the line in front of it if there are several scripts.
#[tactic(auto, unfolding(crate::specs::Lines::headed))]
pub(crate) fn under_head(
    alloc: Global,
    headed: bool,
    name: &str,
    text: &[u8],
) -> Result<Vec<u8>, AllocError>
    ensures { IfOk result (λ v. v.items ≡ headed_text headed name.now text.now) }
{
    let mut made = Vec::new(alloc);
    push_head(&mut made, headed, name)?;
    made.extend_from_slice(text)?;
    Ok(made)
}
