//! The options and the operands among what is given.
ghost use Rattle.std.specs.Prelude.{◌≡◌, ◌++◌, map, option_map, IfOk, OnOk};
ghost use Rattle.std.specs.List.{list_any};
ghost use Rattle.std.specs.Option.{option_or};
ghost use Rattle.cli_args.specs.Asked.{is_setting, value_in, value_of, values_of, is_json, has_json, tries_of, last_of, operands_of, operand_at, option_list};
ghost use Rattle.cli_args.specs.Lexed.{given_of, givens_of};
ghost use Rattle.cli_args.specs.Parsed.{operand_in, three_in, three_of};

use crate::Setting;
use crate::lexing::Given;
use std::alloc::{AllocError, Global};

// ---- The values of an option.

// Whether two options are the same.
fn is_setting(setting: Setting, other: Setting) -> bool
    ensures { result ≡ is_setting setting other }
{
    setting.name() == other.name()
}

// The value of an option, if this is one of its uses.
fn value_in<'a>(setting: Setting, given: Given<'a>) -> Option<&'a str>
    ensures { option_map (λ s. s.now) result ≡ value_in setting (given_of given.entry) }
{
    match given {
        Given::Value(other, value) => {
            if is_setting(setting, other) {
                Some(value)
            } else {
                None
            }
        }
        Given::Flag(_) | Given::Tries(_, _, _) | Given::Operand(_) => None,
    }
}

// The same, or else the value before it.
fn later_value<'a>(setting: Setting, given: Given<'a>, before: Option<&'a str>) -> Option<&'a str>
    ensures { option_map (λ s. s.now) result
        ≡ option_or (value_in setting (given_of given.entry)) (option_map (λ s. s.now) before.entry) }
{
    match value_in(setting, given) {
        Some(value) => Some(value),
        None => before,
    }
}

/// The value of an option: of one that is given twice the last counts.
pub(crate) fn value_of<'a>(setting: Setting, givens: &[Given<'a>]) -> Option<&'a str>
    ensures { option_map (λ s. s.now) result ≡ value_of setting (givens_of givens.now) }
{
    let mut value = None;
    for k in 0..givens.len() {
        value = later_value(setting, givens[k], value);
    }
    value
}

// Adds a word, if there is one.
fn add<'a>(words: &mut Vec<&'a str>, word: Option<&'a str>) -> Result<(), AllocError>
    ensures { OnOk result (map (λ s. s.now) words.new.items
        ≡ map (λ s. s.now) words.old.items ++ option_list (option_map (λ s. s.now) word.entry)) }
{
    match word {
        Some(word) => {
            words.push(word)?;
            Ok(())
        }
        None => Ok(()),
    }
}

/// All values of an option, in their order.
pub(crate) fn values_of<'a>(
    alloc: Global,
    setting: Setting,
    givens: &[Given<'a>],
) -> Result<Vec<&'a str>, AllocError>
    ensures { IfOk result (λ v. map (λ s. s.now) v.items ≡ values_of setting (givens_of givens.now)) }
{
    let mut values = Vec::new(alloc);
    for k in 0..givens.len() {
        add(&mut values, value_in(setting, givens[k]))?;
    }
    Ok(values)
}

// Whether this is --json.
fn is_json(given: &Given<'_>) -> bool
    ensures { result ≡ is_json (given_of given.now) }
{
    match given {
        Given::Flag(setting) => is_setting(Setting::Json, *setting),
        Given::Value(_, _) | Given::Tries(_, _, _) | Given::Operand(_) => false,
    }
}

fn any_json(givens: &[Given<'_>]) -> bool
    ensures { result ≡ list_any (λ g. is_json (given_of g)) givens.now }
{
    givens.iter().any(|given| is_json(given))
}

/// Whether --json is given.
pub(crate) fn has_json(givens: &[Given<'_>]) -> bool
    ensures { result ≡ has_json (givens_of givens.now) }
{
    any_json(givens)
}

// ---- The values of -w.

/// The words of `-w`.
#[derive(Clone, Copy)]
pub struct Three<'a> {
    pub(crate) at: &'a str,
    pub(crate) from: &'a str,
    pub(crate) to: &'a str,
}

// The words, or else those before them.
fn later_three<'a>(given: Given<'a>, before: Option<Three<'a>>) -> Option<Three<'a>>
    ensures { option_map three_of result ≡ option_or (three_in (given_of given.entry)) (option_map three_of before.entry) }
{
    match given {
        Given::Tries(at, from, to) => Some(Three { at, from, to }),
        Given::Flag(_) | Given::Value(_, _) | Given::Operand(_) => before,
    }
}

/// The last words of `-w`.
pub(crate) fn three_of<'a>(givens: &[Given<'a>]) -> Option<Three<'a>>
    ensures { option_map three_of result ≡ last_of (tries_of (givens_of givens.now)) }
{
    let mut three = None;
    for k in 0..givens.len() {
        three = later_three(givens[k], three);
    }
    three
}

// ---- The operands.

fn operand_in<'a>(given: Given<'a>) -> Option<&'a str>
    ensures { option_map (λ s. s.now) result ≡ operand_in (given_of given.entry) }
{
    match given {
        Given::Operand(word) => Some(word),
        Given::Flag(_) | Given::Value(_, _) | Given::Tries(_, _, _) => None,
    }
}

/// All operands, in their order.
pub(crate) fn operands_of<'a>(
    alloc: Global,
    givens: &[Given<'a>],
) -> Result<Vec<&'a str>, AllocError>
    ensures { IfOk result (λ v. map (λ s. s.now) v.items ≡ operands_of (givens_of givens.now)) }
{
    let mut operands = Vec::new(alloc);
    for k in 0..givens.len() {
        add(&mut operands, operand_in(givens[k]))?;
    }
    Ok(operands)
}

/// Operand k.
#[tactic(auto, using(crate::proofs::Gathered::operand_there, crate::proofs::Gathered::no_operand))]
pub(crate) fn operand_at<'a>(operands: &[&'a str], k: usize) -> Option<&'a str>
    ensures { option_map (λ s. s.now) result ≡ operand_at k (map (λ s. s.now) operands.now) }
{
    if operands.len() <= k {
        return None;
    }
    Some(operands[k])
}
