#![tactic(auto)]

//! What a call of the bench refuses, what it answers, and what it leaves in the registers and the memory that are lent.
ghost use Rattle.promises_bench.specs.BenchCall.{FillsExactly, BenchRefusesExactly, BenchAcceptsExactly};
ghost use Rattle.promises_bench.specs.BenchCall.{RefusedBenchChangesNothing, AcceptedBenchLeavesItsRun};

/// The memory that a list is filled into, where its first count addresses are even and at most 16,382, has 16,384 bytes: at each of these
/// addresses the high byte of the last word that has it, after that byte the word's low one, and 0 everywhere else; no other memory has.
/// Of `$1234 at 2` and `$5678 at 2` byte 2 is $56 and byte 3 is $78.
#[tactic(auto, using(crate::proofs::BenchFill::fills_exactly))]
pub fn fills_exactly()
    ensures { FillsExactly }
{}

/// A call is refused 9, with the count, exactly if a slice is shorter than the count; and 19, with the lowest such index, exactly if it
/// is not and one of the first count addresses is odd or above 16,382.
#[tactic(auto, using(crate::proofs::BenchRefusals::bench_refuses_exactly))]
pub fn bench_refuses_exactly()
    ensures { BenchRefusesExactly }
{}

/// A call is accepted with a run exactly if neither of these conditions holds and it is the run, of at most the limit's steps, from this
/// state: D0 to D7 are 0, A0 to A7 and the program counter are as the caller names them, the flags X, N, Z, V and C are false, and the
/// memory is the list's, later entries over earlier, 0 elsewhere.
#[tactic(auto, using(crate::proofs::BenchAccepts::bench_accepts_exactly))]
pub fn bench_accepts_exactly()
    ensures { BenchAcceptsExactly }
{}

/// A refused call leaves the data registers and the memory that it is lent as they were.
#[tactic(auto, using(crate::proofs::BenchAccepts::refused_bench_changes_nothing))]
pub fn refused_bench_changes_nothing()
    ensures { RefusedBenchChangesNothing }
{}

/// An accepted call leaves the data registers and the memory of its run's last state, and A0 to A7 of that state are those that the
/// caller named.
#[tactic(auto, using(crate::proofs::BenchAccepts::accepted_bench_leaves_its_run))]
pub fn accepted_bench_leaves_its_run()
    ensures { AcceptedBenchLeavesItsRun }
{}
