//! A call on one input, and one on several, with the files that are asked for.
ghost use Rattle.std.specs.Prelude.{◌≡◌, ◌^◌, ◌<◌, ℕ, [], Option, IfOk, map, option_map};
ghost use Rattle.rules.specs.Text.{Text};
ghost use Rattle.asked.specs.Names.{input_of};
ghost use Rattle.asked.specs.Said.{Says};
ghost use Rattle.diagnostic.specs.Said.{no_memory_text};
ghost use Rattle.outcome.specs.declared.Outcome.TheVariants.{NoMemory};
ghost use Rattle.work.specs.Calls.{file_of, inputs_of, Joins, One, Each};

use asked::naming::input_of;
use asked::saying::say;
use commandline::Asked;
use outcome::Outcome;
use outcome::making::{Joining, Make, MakeNamed};
use outcome::opening::Opening;
use outcome::output::Output;
use serving::{serve, serve_each};
use std::alloc::{AllocError, Global};
use std::io::Write;
use std::rt::Clock;

/// Texts that stand one after the other.
pub(crate) fn plain() -> Joining
    ensures { Joins result [] [] [] }
{
    Joining {
        front: b"",
        between: b"",
        behind: b"",
    }
}

/// FILE as an input: none is standard input.
pub(crate) fn file_of<'a>(asked: &Asked<'a>) -> Option<&'a str>
    ensures { option_map (λ s. s.now) result ≡ file_of asked.now }
{
    match asked.files.first() {
        Some(name) => input_of(name),
        None => None,
    }
}

// The files of these names as inputs.
#[tactic(auto, using(crate::proofs::Inputs::first, crate::proofs::Inputs::next, crate::proofs::Inputs::last))]
fn named<'a>(alloc: Global, names: &[&'a str]) -> Result<Vec<Option<&'a str>>, AllocError>
    ensures { IfOk result (λ v. map (λ o. option_map (λ s. s.now) o) v.items ≡ map (λ n. input_of n.now) names.now) }
{
    let mut inputs = Vec::new(alloc);
    for k in 0..names.len() {
        inputs.push(input_of(names[k]))?;
    }
    Ok(inputs)
}

// The files as inputs: where none is named it is standard input.
#[tactic(auto, using(crate::proofs::Inputs::none_named, crate::proofs::Inputs::some_named))]
fn inputs_of<'a>(alloc: Global, asked: &Asked<'a>) -> Result<Vec<Option<&'a str>>, AllocError>
    ensures { IfOk result (λ v. map (λ o. option_map (λ s. s.now) o) v.items ≡ inputs_of asked.now) }
{
    if asked.files.is_empty() {
        let mut standard = Vec::new(alloc);
        standard.push(None)?;
        return Ok(standard);
    }
    named(alloc, asked.files.as_slice())
}

/// A call on one input; `output` is how the output is named in what is said.
pub(crate) fn one<F: Opening, M: Make<N>, O: Output, E: Write, const N: usize>(
    alloc: Global,
    files: &F,
    work: &M,
    asked: &Asked<'_>,
    output: &str,
    out: &mut O,
    errors: &mut E,
) -> Outcome
    requires { N < 2 ^ 63 }
    ensures { One (M.promised work.now) N (λ n. F.holds files.now n) asked.now output.now (λ s r. O.puts out.old out.new s r) (out.new ≡ out.old) (E.contents errors.old) (E.contents errors.new) result }
{
    let branches = asked.branches;
    let file = file_of(asked);
    serve::<_, _, _, _, N>(alloc, files, work, branches, file, output, out, errors)
}

// That there is no memory for the names of the inputs.
fn no_room<C: Clock, E: Write>(clock: &C, errors: &mut E) -> Outcome
    ensures { (result ≡ NoMemory) × Says (E.contents errors.old) (E.contents errors.new) no_memory_text }
{
    say(clock, errors, Err(AllocError));
    Outcome::NoMemory
}

/// A call on several inputs.
pub(crate) fn each<C: Clock, F: Opening, M: MakeNamed<N>, O: Output, E: Write, const N: usize>(
    clock: &C,
    alloc: Global,
    files: &F,
    work: &M,
    joining: Joining,
    asked: &Asked<'_>,
    output: &str,
    out: &mut O,
    errors: &mut E,
) -> Outcome
    requires { N < 2 ^ 63 }
    ensures { Each (λ a s b. M.promised work.now s a b) (λ a b. M.accepts work.now a b) N joining (λ n. F.holds files.now n) asked.now output.now (λ s r. O.puts out.old out.new s r) (out.new ≡ out.old) (E.contents errors.old) (E.contents errors.new) result }
{
    match inputs_of(alloc, asked) {
        Ok(inputs) => serve_each::<_, _, _, _, N>(
            alloc,
            files,
            work,
            joining,
            asked.branches,
            inputs.as_slice(),
            output,
            out,
            errors,
        ),
        Err(_) => no_room(clock, errors),
    }
}
