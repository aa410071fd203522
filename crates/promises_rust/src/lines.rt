#![tactic(auto)]

//! A line alone: what is read in it is what the Rust's loop does with it.

ghost use Rattle.promises_rust.specs.RustLists.{LinesAreTheRusts, NoBracketNoSum, SumsAsked};
ghost use Rattle.promises_rust.specs.RustSums.{SumsReadAsTheirNumbers, FailedSumsAreTheRusts};

/// In each line that asks for no sum the labels and the task that are read are what the body of the Rust's loop does with the line, in any
/// state of the loop. A line asks for a sum only where the value of its DC begins with `[`: a `[` in a label, an operand, a comment or
/// anywhere else leaves the line in the comparison, as in `MOVE.L [A,D0` and `X: NOP ; see [5]`.
#[tactic(auto, using(crate::proofs::RustLine::lines_are_the_rusts))]
pub fn lines_are_the_rusts()
    ensures { LinesAreTheRusts }
{}

/// No line without `[` asks for a sum, nor does any line of a source without `[`, so that each such source stays in every comparison.
#[tactic(auto, using(crate::proofs::RustBrackets::no_bracket_no_sum))]
pub fn no_bracket_no_sum()
    ensures { NoBracketNoSum }
{}

/// Examples of which lines ask for a sum: none of `X[1]: NOP`, `NOP ; [5]`, `DC.W 5 ; [5]`, `DC.W 1[2]`, `DS.L [5]`, `ORG [5]` and others,
/// each of `X DC.L [5`, `[5] DC.W [5]`, `A: B: DC.W [1:2]` and others.
#[tactic(auto, using(crate::proofs::RustAsked::sums_asked))]
pub fn sums_asked()
    ensures { SumsAsked }
{}

/// A line whose sum is worth v reads, in its labels, its task and its size, as the line with any decimal digits worth v in the sum's place;
/// and with that line the Rust's loop does, in any state, what is read in the line with the sum. So `LIM: DC.W [2+3*4] ; n` is
/// `LIM: DC.W 14 ; n`.
#[tactic(auto, using(crate::proofs::RustSums::sums_read_as_their_numbers))]
pub fn sums_read_as_their_numbers()
    ensures { SumsReadAsTheirNumbers }
{}

/// A line whose sum has no value, because it is malformed, nests too deep or leaves the range, stays in the comparison as it is: with the
/// line itself the Rust's loop does what is read in it, the same labels and the same size, and no value.
#[tactic(auto, using(crate::proofs::RustSums::failed_sums_are_the_rusts))]
pub fn failed_sums_are_the_rusts()
    ensures { FailedSumsAreTheRusts }
{}
