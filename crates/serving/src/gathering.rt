//! The texts of several inputs, joined one after another.
ghost use Rattle.std.specs.Prelude.{◌≡◌, ◌⊎◌, ◌^◌, ◌<◌, ◌++◌, ◌∷◌, [], ◌&&◌, true, false, Bool, ℕ, List, Option, Ok, Err, map, take, option_map, IfOk, IfErr, OnOk};
ghost use Rattle.std.specs.List.{list_all};
ghost use Rattle.rules.specs.Text.{Text};
ghost use Rattle.station.specs.Reads.{Reads};
ghost use Rattle.outcome.specs.Made.{Made, made};
ghost use Rattle.outcome.specs.Outcome.{NotMade};
ghost use Rattle.outcome.specs.Joined.{joined};
ghost use Rattle.outcome.specs.declared.making.Joining.{Joining};
ghost use Rattle.serving.specs.Said.{called, with_input, named, Tells};
ghost use Rattle.serving.specs.Served.{Held};
ghost use Rattle.serving.specs.Gathered.{Taken, Takes, Stops, Halts, Halted, NoRoom, parts};
ghost use Rattle.serving.specs.Gathering.{Gathering};

use crate::reading::{kept_of, read_input};
use crate::telling::{Names, no_room, told, with_input};
use outcome::making::{Joining, MakeNamed, Part};
use outcome::opening::Opening;
use outcome::{Outcome, Unmade};
use station::TABLE;
use station::input::Input;
use std::alloc::{AllocError, Global};
use std::io::Write;

/// The text of several inputs, what is to stand in front of the next part, and whether all are accepted.
#[derive(Drop)]
pub(crate) struct Gathered {
    pub text: Vec<u8>,
    pub lead: &'static [u8],
    pub all: bool,
}

// ---- One input.

// What a call comes to that has no text.
fn stops(unmade: Unmade) -> Outcome
    ensures { (m : Made) → NotMade m unmade → Stops m result }
{
    match unmade {
        Unmade::Stopped(stop) => Outcome::Stopped(stop),
        Unmade::NoMemory => Outcome::NoMemory,
    }
}

// The part of an input that was read; or why there is none, as it is said.
fn make_part<M: MakeNamed<N>, E: Write, const N: usize>(
    alloc: Global,
    work: &M,
    names: Names<'_>,
    table: &[u8; TABLE],
    branches: Input,
    front: &[u8; N],
    input: Input,
    errors: &mut E,
) -> Result<Part, Outcome>
    requires { (branches.failed ≡ false) × (input.failed ≡ false) }
    ensures made { (a b : Text) → Reads a table.now branches → Reads b front.now input → IfOk result (λ p. (M.promised work.now names.entry.input.now a b ≡ made p.text.items) × (p.accepted ≡ M.accepts work.now a b)) }
    ensures quiet { OnOk result (errors.new ≡ errors.old) }
    ensures stops { (a b : Text) → Reads a table.now branches → Reads b front.now input → IfErr result (λ o. Stops (M.promised work.now names.entry.input.now a b) o × Tells (called names.entry) (take N b) o (E.contents errors.old) (E.contents errors.new)) }
{
    match work.make_named(alloc, names.input, table, branches, front, input) {
        Ok(part) => Ok(part),
        Err(unmade) => Err(told(alloc, names, kept_of(front, input), stops(unmade), errors)),
    }
}

// Reads an input and makes its part.
fn take_input<'a, F: Opening, M: MakeNamed<N>, E: Write, const N: usize>(
    alloc: Global,
    files: &F,
    work: &M,
    names: Names<'a>,
    table: &[u8; TABLE],
    branches: Input,
    name: Option<&'a str>,
    front: &mut [u8; N],
    errors: &mut E,
) -> Result<Part, Outcome>
    requires { branches.failed ≡ false }
    ensures taken { (a : Text) → Reads a table.now branches → IfOk result (λ p. (b : Text) × Held (F.holds files.now (option_map (λ s. s.now) name.entry)) b × (M.promised work.now (named (option_map (λ s. s.now) name.entry)) a b ≡ made p.text.items) × (p.accepted ≡ M.accepts work.now a b)) }
    ensures quiet { OnOk result (errors.new ≡ errors.old) }
    ensures halts { (a : Text) → Reads a table.now branches → IfErr result (Halts (F.holds files.now) (λ s b. M.promised work.now s a b) N (λ n s o. Tells (with_input (called names.entry) n) s o (E.contents errors.old) (E.contents errors.new)) (option_map (λ s. s.now) name.entry)) }
{
    let names = with_input(names, name);
    match read_input(files, name, front) {
        Ok(input) => make_part(alloc, work, names, table, branches, front, input, errors),
        Err(unread) => Err(told(alloc, names, &[], unread, errors)),
    }
}

// ---- Its part, joined to those before it.

// Where there is memory; else that is said.
fn in_memory<E: Write>(
    gathered: Result<Gathered, AllocError>,
    errors: &mut E,
) -> Result<Gathered, Outcome>
    ensures same { IfOk result (λ g. gathered ≡ Ok g) }
    ensures quiet { OnOk result (errors.new ≡ errors.old) }
    ensures none { IfErr result (NoRoom (E.contents errors.old) (E.contents errors.new)) }
{
    match gathered {
        Ok(gathered) => Ok(gathered),
        Err(_) => Err(no_room(errors)),
    }
}

// Whether all are accepted, with one more.
fn and(all: bool, accepted: bool) -> bool
    ensures { result ≡ (all && accepted) }
{
    all & accepted
}

// What stands in front of all.
fn begin(alloc: Global, front: &'static [u8]) -> Result<Gathered, AllocError>
    ensures { IfOk result (λ g. (g.text.items ≡ front.now) × (g.lead.now ≡ []) × (g.all ≡ true)) }
{
    let mut text = Vec::new(alloc);
    text.extend_from_slice(front)?;
    Ok(Gathered {
        text,
        lead: &[],
        all: true,
    })
}

// One part more.
fn add_part(gathered: Gathered, between: &'static [u8], part: Part) -> Result<Gathered, AllocError>
    ensures { IfOk result (λ g. (g.text.items ≡ (gathered.text.items ++ gathered.lead.now) ++ part.text.items) × (g.lead.now ≡ between.now) × (g.all ≡ (gathered.all && part.accepted))) }
{
    let Gathered {
        mut text,
        lead,
        all,
    } = gathered;
    text.extend_from_slice(lead)?;
    text.extend_from_slice(&part.text)?;
    Ok(Gathered {
        text,
        lead: between,
        all: and(all, part.accepted),
    })
}

// What stands after all.
fn end(gathered: Gathered, behind: &'static [u8]) -> Result<Gathered, AllocError>
    ensures { IfOk result (λ g. (g.text.items ≡ gathered.text.items ++ behind.now) × (g.all ≡ gathered.all)) }
{
    let Gathered {
        mut text,
        lead,
        all,
    } = gathered;
    text.extend_from_slice(behind)?;
    Ok(Gathered { text, lead, all })
}

// ---- All inputs.

// Reads an input, and joins its part to those before it.
fn add_input<'a, F: Opening, M: MakeNamed<N>, E: Write, const N: usize>(
    alloc: Global,
    files: &F,
    work: &M,
    joining: Joining,
    names: Names<'a>,
    table: &[u8; TABLE],
    branches: Input,
    name: Option<&'a str>,
    front: &mut [u8; N],
    gathered: Gathered,
    errors: &mut E,
) -> Result<Gathered, Outcome>
    requires { branches.failed ≡ false }
    ensures more { (a : Text) (ns : List (Option Text)) → Reads a table.now branches → Gathering (F.holds files.now) (λ s b. M.promised work.now s a b) (λ b. M.accepts work.now a b) joining ns gathered → IfOk result (Gathering (F.holds files.now) (λ s b. M.promised work.now s a b) (λ b. M.accepts work.now a b) joining (ns ++ (option_map (λ s. s.now) name.entry ∷ []))) }
    ensures quiet { OnOk result (errors.new ≡ errors.old) }
    ensures halts { (a : Text) → Reads a table.now branches → IfErr result (λ o. Halts (F.holds files.now) (λ s b. M.promised work.now s a b) N (λ n s o. Tells (with_input (called names.entry) n) s o (E.contents errors.old) (E.contents errors.new)) (option_map (λ s. s.now) name.entry) o ⊎ NoRoom (E.contents errors.old) (E.contents errors.new) o) }
{
    match take_input(
        alloc, files, work, names, table, branches, name, front, errors,
    ) {
        Ok(part) => in_memory(add_part(gathered, joining.between, part), errors),
        Err(halted) => Err(halted),
    }
}

// The inputs in their order, joined to what stands in front of all.
fn add_inputs<'a, F: Opening, M: MakeNamed<N>, E: Write, const N: usize>(
    alloc: Global,
    files: &F,
    work: &M,
    joining: Joining,
    names: Names<'a>,
    table: &[u8; TABLE],
    branches: Input,
    inputs: &[Option<&'a str>],
    front: &mut [u8; N],
    begun: Gathered,
    errors: &mut E,
) -> Result<Gathered, Outcome>
    requires whole { branches.failed ≡ false }
    requires none { (begun.text.items ≡ joining.front.now) × (begun.lead.now ≡ []) × (begun.all ≡ true) }
    ensures gathered { (a : Text) → Reads a table.now branches → IfOk result (Gathering (F.holds files.now) (λ s b. M.promised work.now s a b) (λ b. M.accepts work.now a b) joining (map (option_map (λ s. s.now)) inputs.now)) }
    ensures quiet { OnOk result (errors.new ≡ errors.old) }
    ensures halts { (a : Text) → Reads a table.now branches → IfErr result (λ o. Halted (F.holds files.now) (λ s b. M.promised work.now s a b) N (λ n s o. Tells (with_input (called names.entry) n) s o (E.contents errors.old) (E.contents errors.new)) (map (option_map (λ s. s.now)) inputs.now) o ⊎ NoRoom (E.contents errors.old) (E.contents errors.new) o) }
{
    let mut gathered = begun;
    for name in inputs {
        gathered = add_input(
            alloc, files, work, joining, names, table, branches, *name, front, gathered, errors,
        )?;
    }
    Ok(gathered)
}

/// The text of all inputs, with what stands in front of them, between them and after them.
pub(crate) fn gather<'a, F: Opening, M: MakeNamed<N>, E: Write, const N: usize>(
    alloc: Global,
    files: &F,
    work: &M,
    joining: Joining,
    names: Names<'a>,
    table: &[u8; TABLE],
    branches: Input,
    inputs: &[Option<&'a str>],
    front: &mut [u8; N],
    errors: &mut E,
) -> Result<Gathered, Outcome>
    requires { branches.failed ≡ false }
    ensures gathered { (a : Text) → Reads a table.now branches → IfOk result (λ e. (xs : List Taken) × Takes (F.holds files.now) (λ s b. M.promised work.now s a b) (map (option_map (λ s. s.now)) inputs.now) xs × (e.text.items ≡ joined joining (parts xs)) × (e.all ≡ list_all (λ t. M.accepts work.now a t.input) xs)) }
    ensures quiet { OnOk result (errors.new ≡ errors.old) }
    ensures halts { (a : Text) → Reads a table.now branches → IfErr result (λ o. Halted (F.holds files.now) (λ s b. M.promised work.now s a b) N (λ n s o. Tells (with_input (called names.entry) n) s o (E.contents errors.old) (E.contents errors.new)) (map (option_map (λ s. s.now)) inputs.now) o ⊎ NoRoom (E.contents errors.old) (E.contents errors.new) o) }
{
    match in_memory(begin(alloc, joining.front), errors) {
        Ok(begun) => match add_inputs(
            alloc, files, work, joining, names, table, branches, inputs, front, begun, errors,
        ) {
            Ok(gathered) => in_memory(end(gathered, joining.behind), errors),
            Err(halted) => Err(halted),
        },
        Err(halted) => Err(halted),
    }
}
