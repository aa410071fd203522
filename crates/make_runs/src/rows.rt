//! The runs of a list, one after another.
ghost use Rattle.std.specs.Prelude.{◌≡◌, [], ◌∷◌, ◌++◌, List, Some, cond, eqb, IfErr, OnOk, MatchResult, length as len};
ghost use Rattle.rules.specs.Text.{Text};
ghost use Rattle.rules.specs.Answer.{accepted};
ghost use Rattle.machine.specs.Bench.{bench_answer};
ghost use Rattle.benchtext.specs.BenchText.{with_value};
ghost use Rattle.jsontext.specs.Runs.{Tried, tried, Holds};
ghost use Rattle.outcome.specs.Outcome.{NotMade};
ghost use Rattle.outcome.specs.declared.Unmade.TheVariants.{NoMemory};
ghost use Rattle.make_runs.specs.Runs.{run_at, run_with, runs_of, runs_answer, rows_text, runs_told, RunsMade};

use crate::{Running, Tries};
use benchtext::write_list_run;
use jsontext::runs::RunList;
use machine::MEMORY;
use outcome::{Stop, Unmade, Which};
use station::TEXT;
use std::alloc::Global;
use stepper::{bench, check};

/// What is made of runs.
pub trait Rows {
    // What it holds of these runs.
    ghost holds: { List Tried → Self → Type 0 };

    /// Adds the run of a list that is not refused, and the value with which it is made, if one is tried.
    fn add(
        &mut self,
        alloc: Global,
        work: &Running,
        value: Option<u16>,
        addresses: &[u32],
        words: &[u16],
    ) -> Result<(), Unmade>
        requires { bench_answer (len addresses.now) addresses.now words.now (len addresses.now) ≡ accepted (len addresses.now) }
        ensures ok { (ts : List Tried) → holds ts self.old → OnOk result (holds (ts ++ tried value (run_at work.now addresses.now words.now) ∷ []) self.new) }
        ensures err { IfErr result (λ e. e ≡ NoMemory) };
}

/// Lines of text.
#[derive(Drop)]
pub struct Lines {
    pub text: Vec<u8>,
    // Where a line is put first, one after another.
    line: [u8; TEXT],
}

impl Lines {
    /// Without a line.
    pub fn new(alloc: Global) -> Lines
        ensures { result.text.items ≡ [] }
    {
        Lines {
            text: Vec::new(alloc),
            line: [0; TEXT],
        }
    }
}

impl Rows for Lines {
    ghost holds = { λ ts s. s.text.items ≡ rows_text ts };

    fn add(
        &mut self,
        _alloc: Global,
        work: &Running,
        value: Option<u16>,
        addresses: &[u32],
        words: &[u16],
    ) -> Result<(), Unmade> {
        let count = addresses.len();
        let line = &mut self.line;
        let n = write_list_run(
            value, addresses, words, count, &work.a, work.start, work.limit, line,
        );
        // No line is as long; what writes it does not say so.
        if TEXT < n {
            return Err(Unmade::NoMemory);
        }
        match self.text.extend_from_slice(&self.line[..n]) {
            Ok(()) => Ok(()),
            Err(_) => Err(Unmade::NoMemory),
        }
    }
}

impl Rows for RunList {
    ghost holds = { λ ts s. Holds ts s };

    fn add(
        &mut self,
        alloc: Global,
        work: &Running,
        value: Option<u16>,
        addresses: &[u32],
        words: &[u16],
    ) -> Result<(), Unmade> {
        let mut d = [0u32; 8];
        let mut memory = [0u8; MEMORY];
        let count = addresses.len();
        let answer = bench(
            addresses,
            words,
            count,
            &mut d,
            &work.a,
            &mut memory,
            work.start,
            work.limit,
        );
        match answer {
            Ok(ran) => match RunList::add(self, alloc, value, ran, &d) {
                Ok(()) => Ok(()),
                Err(_) => Err(Unmade::NoMemory),
            },
            Err(refusal) => Err(Unmade::Stopped(Stop::Refused(Which::Input, refusal))),
        }
    }
}

// A word of a list, or a value if it stands at an address.
fn word_at(at: u32, word: u16, address: u32, value: u16) -> u16
    ensures { result ≡ cond (eqb at address) value word }
{
    if at == address { value } else { word }
}

// Puts a value in place of the words at an address.
fn set_value(addresses: &[u32], words: &mut [u16], address: u32, value: u16)
    requires { len words.old ≡ len addresses.now }
    ensures { words.new ≡ with_value (len addresses.now) address value addresses.now words.old }
{
    // By index: of what `iter_mut` and `zip` leave in the words nothing is known.
    for i in 0..addresses.len() {
        words[i] = word_at(addresses[i], words[i], address, value);
    }
}

// Adds the runs with each value, of a list that is not refused.
fn add_tried<R: Rows>(
    rows: &mut R,
    alloc: Global,
    work: &Running,
    tries: Tries,
    addresses: &[u32],
    words: &mut [u16],
) -> Result<(), Unmade>
    requires accepts { bench_answer (len addresses.now) addresses.now words.old (len addresses.now) ≡ accepted (len addresses.now) }
    requires long { len words.old ≡ len addresses.now }
    ensures ok { R.holds [] rows.old → OnOk result (R.holds (runs_of work.now (Some tries) addresses.now words.old) rows.new) }
    ensures err { IfErr result (λ e. e ≡ NoMemory) }
{
    for value in u32::from(tries.from)..u32::from(tries.to) + 1 {
        // No value is above `to`.
        let value = value as u16;
        set_value(addresses, words, tries.address, value);
        rows.add(alloc, work, Some(value), addresses, words)?;
    }
    Ok(())
}

// Adds the runs of a list that is not refused.
fn add_runs<R: Rows>(
    rows: &mut R,
    alloc: Global,
    work: &Running,
    addresses: &[u32],
    words: &mut [u16],
) -> Result<(), Unmade>
    requires accepts { bench_answer (len addresses.now) addresses.now words.old (len addresses.now) ≡ accepted (len addresses.now) }
    requires long { len words.old ≡ len addresses.now }
    ensures ok { R.holds [] rows.old → OnOk result (R.holds (runs_of work.now work.now.tries addresses.now words.old) rows.new) }
    ensures err { IfErr result (λ e. e ≡ NoMemory) }
{
    match work.tries {
        Some(tries) => add_tried(rows, alloc, work, tries, addresses, words),
        None => rows.add(alloc, work, None, addresses, words),
    }
}

/// Adds the runs of a list, or answers its refusal. The words keep the last value.
pub fn add_list<R: Rows>(
    rows: &mut R,
    alloc: Global,
    work: &Running,
    addresses: &[u32],
    words: &mut [u16],
) -> Result<(), Unmade>
    requires { len words.old ≡ len addresses.now }
    ensures { R.holds [] rows.old → (f : List Tried → Text) → MatchResult result (λ _. RunsMade (λ ts. R.holds ts rows.new) f (runs_told f work.now addresses.now words.old)) (NotMade (runs_told f work.now addresses.now words.old)) }
{
    if let Err(refusal) = check(addresses, words, addresses.len()) {
        return Err(Unmade::Stopped(Stop::Refused(Which::Input, refusal)));
    }
    match add_runs(rows, alloc, work, addresses, words) {
        Ok(()) => Ok(()),
        Err(e) => Err(e),
    }
}
