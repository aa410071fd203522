//! Runs of the bench, one after another, as a whole tree of them would be too large:
//! `{"runs":[{"data_registers":[7,0,0,0,0,0,0,0],"end":"halt","flags":{..},"program_counter":4098,"steps":1,"value":12}]}`.
ghost use Rattle.std.specs.Prelude.{◌≡◌, [], ◌∷◌, ◌++◌, IfOk, OnOk, List, map, string_bytes};
ghost use Rattle.machine.specs.Machine.{ran_of};
ghost use Rattle.benchtext.specs.BenchText.{end_text};
ghost use Rattle.serde_json.specs.View.{view};
ghost use Rattle.serde_json.specs.Written.{compact_text, comma_if};
ghost use Rattle.jsontext.specs.Line.{whole, line_text};

use machine::{End, Flags, Ran};
use serde_json::{Value, json};
use std::alloc::{AllocError, Global};

// Why a run ended.
#[tactic(auto, unfolding(benchtext::specs::BenchText::end_text, rules::specs::Text::bytes))]
fn end_word(end: End) -> &'static str
    ensures { result.now ≡ end_text end }
{
    match end {
        End::OnHalt => "halt",
        End::OnWord => "word",
        End::OnAccess => "access",
        End::OnLimit => "limit",
    }
}

// Writes a comma, where a run stands before.
fn push_comma(text: &mut Vec<u8>, later: bool) -> Result<(), AllocError>
    ensures { OnOk result (text.new.items ≡ text.old.items ++ comma_if later) }
{
    if later {
        text.push(b',')?;
    }
    Ok(())
}

/// The line for runs that is being written, run by run.
#[derive(Drop)]
pub struct RunList {
    text: Vec<u8>,
    // Whether a run stands in it.
    later: bool,
}

impl RunList {
    ghost use Rattle.jsontext.specs.Runs.{tried, flags_data, registers_data, run_data, runs_data, Tried, Holds};

    // The flags.
    #[tactic(auto, unfolding(crate::specs::Runs::flags_data))]
    fn flags_value(alloc: Global, f: Flags) -> Result<Value, AllocError>
        ensures { IfOk result (λ v. view v ≡ flags_data f) }
    {
        json!(in alloc; {
            "carry": f.c,
            "extend": f.x,
            "negative": f.n,
            "overflow": f.v,
            "zero": f.z
        })
    }

    // The data registers.
    fn registers_value(alloc: Global, d: &[u32; 8]) -> Result<Value, AllocError>
        ensures { IfOk result (λ v. view v ≡ registers_data d.now) }
    {
        let mut items = Vec::new(alloc);
        for &value in d {
            items.push(Value::from(value))?;
        }
        Ok(Value::Array(items))
    }

    // A run, and the value with which it was made, if one was tried.
    #[tactic(auto, unfolding(crate::specs::Runs::run_data))]
    fn run_value(
        alloc: Global,
        value: Option<u16>,
        ran: Ran,
        d: &[u32; 8],
    ) -> Result<Value, AllocError>
        ensures { IfOk result (λ v. view v ≡ run_data (tried value (ran_of d.now [] ran []))) }
    {
        let registers = RunList::registers_value(alloc, d)?;
        let flags = RunList::flags_value(alloc, ran.status.flags)?;
        match value {
            Some(value) => json!(in alloc; {
                "data_registers": registers,
                "end": end_word(ran.end),
                "flags": flags,
                "program_counter": ran.status.pc,
                "steps": ran.steps,
                "value": value
            }),
            None => json!(in alloc; {
                "data_registers": registers,
                "end": end_word(ran.end),
                "flags": flags,
                "program_counter": ran.status.pc,
                "steps": ran.steps
            }),
        }
    }

    // Its text.
    #[tactic(auto, using(crate::proofs::Plain::run_whole))]
    fn run_text(
        alloc: Global,
        value: Option<u16>,
        ran: Ran,
        d: &[u32; 8],
    ) -> Result<String, AllocError>
        ensures { IfOk result (λ s. string_bytes s ≡ compact_text (run_data (tried value (ran_of d.now [] ran [])))) }
    {
        RunList::run_value(alloc, value, ran, d)?.to_string(alloc)
    }

    /// Without a run.
    pub fn new(alloc: Global) -> Result<RunList, AllocError>
        ensures { IfOk result (Holds []) }
    {
        let mut text = Vec::new(alloc);
        text.extend_from_slice(b"{\"runs\":[")?;
        Ok(RunList { text, later: false })
    }

    /// Adds a run, which left the data registers `d`, and the value with which it was made, if one was tried. Where memory is short
    /// there is no going on.
    pub fn add(
        &mut self,
        alloc: Global,
        value: Option<u16>,
        ran: Ran,
        d: &[u32; 8],
    ) -> Result<(), AllocError>
        ensures { (ts : List Tried) → Holds ts self.old → OnOk result (Holds (ts ++ tried value (ran_of d.now [] ran []) ∷ []) self.new) }
    {
        let run = RunList::run_text(alloc, value, ran, d)?;
        push_comma(&mut self.text, self.later)?;
        self.text.extend_from_slice(run.as_bytes())?;
        self.later = true;
        Ok(())
    }

    /// The line.
    pub fn finish(self) -> Result<Vec<u8>, AllocError>
        ensures { (ts : List Tried) → Holds ts self → IfOk result (λ t. t.items ≡ line_text (runs_data ts)) }
    {
        let mut text = self.text;
        text.extend_from_slice(b"]}\n")?;
        Ok(text)
    }
}
