#![tactic(auto)]

//! When the bench may make a step, and what a run is.
ghost use Rattle.machine.specs.Samples.{Marks, Runs};
ghost use Rattle.promises_bench.specs.BenchRuns.{JudgesExactly, RunsExactly, NoFormChangesA};

/// The next step is a form's exactly if the program counter is even and at most 16,382, the word there, high byte first, is the form's,
/// and what the form reaches besides is within memory: for MOVE.L from or to (An) an even An of at most 16,380, for MULS # a next word at
/// an even address of at most 16,382. It is the halt exactly if such a fetch finds $4E72, an unknown word exactly if it finds another
/// that is no form's, and a bad access exactly if the fetch or what its form reaches is odd or outside.
#[tactic(auto, using(crate::proofs::BenchJudge::judges_exactly))]
pub fn judges_exactly()
    ensures { JudgesExactly }
{}

/// A run is as many steps as it says, at most the limit, each one that may be made in the state that the steps before lead to. It ends at
/// the halt, at an unknown word or at a bad access; or, if the next step may be made, with the limit spent. The step that stops is not
/// counted and changes nothing. There is one such run, and it is what the bench computes.
#[tactic(auto, using(crate::proofs::BenchRun::runs_exactly))]
pub fn runs_exactly()
    ensures { RunsExactly }
{}

/// No form changes A0 to A7, and so no run does.
#[tactic(auto, using(crate::proofs::BenchRun::no_form_changes_a))]
pub fn no_form_changes_a()
    ensures { NoFormChangesA }
{}

/// Flags and products worked out by hand from the manual's tables: $7FFF + 1 as words sets N and V, ASL.L of $80000000 by 2 sets Z and V
/// and no C, and $FFFF times 2 is $FFFFFFFE.
#[tactic(auto, using(machine::proofs::Samples::marks))]
pub fn bench_marks()
    ensures { Marks }
{}

/// Runs worked out by hand: MOVEQ #3,D0, then SUBQ.L #1,D0 and BNE back to it, then the halt, is 7 steps; with a limit of 6 it is 6 and
/// the limit is told, with one of 7 the halt. An odd start and one at 16,384 end at once as a bad access.
#[tactic(auto, using(machine::proofs::Samples::runs))]
pub fn bench_runs()
    ensures { Runs }
{}
