//! A script, and the table that it stands under if one is lent; and the line in front of its text.
ghost use Rattle.std.specs.Prelude.{◌≡◌, ◌≤◌, ◌++◌, IfOk, IfErr, OnOk, min, cond, [], ◌∷◌};
ghost use Rattle.rules.specs.Text.{Text};
ghost use Rattle.rules.specs.Limits.{max_lines};
ghost use Rattle.rules.specs.Answer.{refused};
ghost use Rattle.answer.specs.Refusal.{answer_of, number_of, place_of};
ghost use Rattle.requests.specs.Explain.{explain_all_by, explain_by};
ghost use Rattle.explain.specs.Verdict.{explained_of, count_of, written_over};
ghost use Rattle.outcome.specs.declared.Unmade.TheVariants.{NoMemory};
ghost use Rattle.make_lines.specs.Lines.{by_names, lent_of, headed as headed_text};

use answer::Refusal;
use branches::load_branches;
use explain::{Verdict, explain_branches, explain_line, explain_lines, explain_lines_branches};
use outcome::Unmade;
use rules::MAX_LINES;
use std::alloc::{AllocError, Global};

/// The refusal of a script over the limit, of which only the length counts: a table that is refused comes first.
pub fn long_script(lent: bool, table: &[u8], total: usize) -> Refusal
    ensures { by_names {A = Text} (lent_of lent table.now) (λ names. refused 1 total) ≡ refused (number_of result) (place_of result) }
{
    let long = Refusal::LongSource(total);
    if !lent {
        return long;
    }
    match load_branches(table) {
        Ok(_) => long,
        Err(refusal) => refusal,
    }
}

/// The verdict on a line of a script.
#[tactic(auto, unfolding(crate::specs::Lines::by_names, crate::specs::Lines::lent_of))]
pub fn explain_one(
    lent: bool,
    table: &[u8],
    source: &[u8],
    base: u32,
    line: usize,
) -> Result<Verdict, Refusal>
    ensures { answer_of result ≡ explained_of (by_names (lent_of lent table.now) (λ names. explain_by names base source.now line)) }
{
    if lent {
        explain_branches(table, source, base, line)
    } else {
        explain_line(source, base, line)
    }
}

/// The verdicts on all lines that are read, into the first places, and how many they are.
#[tactic(auto, unfolding(crate::specs::Lines::by_names, crate::specs::Lines::lent_of))]
pub fn explain_each(
    lent: bool,
    table: &[u8],
    source: &[u8],
    base: u32,
    verdicts: &mut [Verdict; MAX_LINES],
) -> Result<usize, Refusal>
    ensures value { answer_of result ≡ count_of (by_names (lent_of lent table.now) (λ names. explain_all_by names base source.now)) }
    ensures count { IfOk result (λ n. n ≤ max_lines) }
    ensures verdicts_after { verdicts.new ≡ written_over (by_names (lent_of lent table.now) (λ names. explain_all_by names base source.now)) verdicts.old }
{
    if lent {
        explain_lines_branches(table, source, base, verdicts)
    } else {
        explain_lines(source, base, verdicts)
    }
}

// Adds the line with a name, if it is asked for.
fn push_head(text: &mut Vec<u8>, headed: bool, name: &str) -> Result<(), AllocError>
    ensures { OnOk result (text.new.items ≡ text.old.items ++ cond headed (name.now ++ (58 ∷ 10 ∷ [])) []) }
{
    if headed {
        text.extend_from_slice(name.as_bytes())?;
        text.extend_from_slice(b":\n")?;
    }
    Ok(())
}

/// A text, with the line in front of it if that is asked for.
#[tactic(auto, unfolding(crate::specs::Lines::headed))]
pub fn under_head(
    alloc: Global,
    headed: bool,
    name: &str,
    text: &[u8],
) -> Result<Vec<u8>, AllocError>
    ensures { IfOk result (λ v. v.items ≡ headed_text headed name.now text.now) }
{
    let mut made = Vec::new(alloc);
    push_head(&mut made, headed, name)?;
    made.extend_from_slice(text)?;
    Ok(made)
}
