//! The scripts that an input names, one a line: each is added as soon as its name is whole.
ghost use Rattle.std.specs.Prelude.{◌≡◌, ◌≤◌, ◌++◌, Some, true, length, take, IfOk, IfErr, OnOk, MatchResult};
ghost use Rattle.std.specs.Io.KnownBytes.{Consumes, IsAtEnd};
ghost use Rattle.rules.specs.Text.{Text};
ghost use Rattle.requests.specs.Sheet.{Totals as Said};
ghost use Rattle.sheet.specs.Totals.{said};
ghost use Rattle.outcome.specs.declared.Which.TheVariants.{Script};
ghost use Rattle.make_sheet.specs.Series.{with_script};
ghost use Rattle.make_sheet.specs.Reading.{InputUnread, AddedIf, Unadded, Adding, Telling};
ghost use Rattle.make_sheet.specs.Served.{ScriptHalts, NamesAdded, NamesHalt};

use crate::files::add_script;
use crate::said::tell;
use outcome::opening::Opening;
use outcome::{Outcome, What, Which};
use sheet::Totals;
use sheettext::names::{NAME, held_on, take_name};
use station::SCRIPT;
use std::alloc::Global;
use std::io::{Error, ErrorKind, Read, Write};

// What a read of the names asks for.
const CHUNK: usize = 8192;

// Adds the script whose name is at the front, if it is whole.
fn add_if<F: Opening, E: Write>(
    alloc: Global,
    files: &F,
    whole: bool,
    name: &[u8],
    totals: Totals,
    front: &mut [u8; SCRIPT],
    errors: &mut E,
) -> Result<Totals, Outcome>
    ensures sum { MatchResult result (λ u. AddedIf whole (F.holds files.now) name.now (said totals) (said u)) (λ o. (whole ≡ true) × Unadded (F.holds files.now (Some name.now)) with_script Script (said totals) o) }
    ensures silent { OnOk result (errors.new ≡ errors.old) }
    ensures said { IfErr result (λ o. Telling (E.contents errors.old) (E.contents errors.new) name.now o) }
{
    if !whole {
        return Ok(totals);
    }
    add_script(alloc, files, name, totals, front, errors)
}

// Where the names stand: how many bytes of the next one are held, and the totals so far.
#[derive(Clone, Copy, Debug, PartialEq, Eq, Hash)]
struct Fed {
    held: usize,
    totals: Totals,
}

// Goes on with a chunk of the names: the script of each that ends there is added.
fn add_chunk<F: Opening, E: Write>(
    alloc: Global,
    files: &F,
    fed: Fed,
    chunk: &[u8],
    name: &mut [u8; NAME],
    front: &mut [u8; SCRIPT],
    errors: &mut E,
) -> Result<Fed, Outcome>
    ensures sum { (t : Said) (s : Text) → Adding (F.holds files.now) t s name.old fed.held (said fed.totals) → MatchResult result (λ f. Adding (F.holds files.now) t (s ++ chunk.now) name.new f.held (said f.totals)) (λ o. (rest : Text) → ScriptHalts (F.holds files.now) (Telling (E.contents errors.old) (E.contents errors.new)) ((s ++ chunk.now) ++ rest) t o) }
    ensures silent { OnOk result (errors.new ≡ errors.old) }
{
    let mut held = fed.held;
    let mut totals = fed.totals;
    let mut at = 0;
    // Each turn takes as many bytes as a name has.
    while at < chunk.len() {
        let taken = take_name(&chunk[at..], name, held);
        let whole = &name[..taken.held];
        totals = add_if(alloc, files, taken.whole, whole, totals, front, errors)?;
        held = held_on(taken);
        at += taken.used;
    }
    Ok(Fed { held, totals })
}

// Reads a chunk of the names, which are of the input that is named so.
fn read_names<R: Read, E: Write>(
    alloc: Global,
    from: &mut R,
    input: &str,
    chunk: &mut [u8; CHUNK],
    errors: &mut E,
) -> Result<usize, Outcome>
    ensures ok { IfOk result (λ n. (n ≤ length chunk.new) × Consumes (R.remaining from.old) (R.remaining from.new) (take n chunk.new) × (n ≡ 0 → IsAtEnd (R.remaining from.new))) }
    ensures err { IfErr result InputUnread }
    ensures silent { OnOk result (errors.new ≡ errors.old) }
    ensures said { IfErr result (λ o. Telling (E.contents errors.old) (E.contents errors.new) input.now o) }
{
    match from.read(chunk) {
        Ok(n) => Ok(n),
        Err(e) => {
            let failed = Outcome::Failed(What::Read, Some(Which::Input), e);
            tell(alloc, input.as_bytes(), failed, errors);
            Err(failed)
        }
    }
}

/// Reads the names to their end, which are of the input that is named so, and adds their scripts.
pub(crate) fn add_names<F: Opening, R: Read, E: Write>(
    alloc: Global,
    files: &F,
    from: &mut R,
    input: &str,
    totals: Totals,
    front: &mut [u8; SCRIPT],
    errors: &mut E,
) -> Result<Totals, Outcome>
    ensures sum { MatchResult result (λ u. NamesAdded (R.remaining from.old) (F.holds files.now) (said totals) (said u)) (λ o. NamesHalt (R.remaining from.old) (F.holds files.now) (Telling (E.contents errors.old) (E.contents errors.new)) input.now (said totals) o) }
    ensures silent { OnOk result (errors.new ≡ errors.old) }
{
    let mut name = [0u8; NAME];
    let mut chunk = [0u8; CHUNK];
    let mut fed = Fed { held: 0, totals };
    for _ in 0..u64::MAX {
        let n = read_names(alloc, from, input, &mut chunk, errors)?;
        if n == 0 {
            let held = fed.held;
            return add_if(
                alloc,
                files,
                0 < held,
                &name[..held],
                fed.totals,
                front,
                errors,
            );
        }
        fed = add_chunk(alloc, files, fed, &chunk[..n], &mut name, front, errors)?;
    }
    let why = Error::from(ErrorKind::FileTooLarge);
    let failed = Outcome::Failed(What::Read, Some(Which::Input), why);
    tell(alloc, input.as_bytes(), failed, errors);
    Err(failed)
}
