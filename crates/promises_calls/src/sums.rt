#![tactic(auto)]

//! What is promised of sums in square brackets.
ghost use Rattle.promises.specs.Sums.{SumsMean, SumExamples};

/// A text has a sum's answer exactly so: it is read with v if it is, between square brackets, a sum of products of numbers without a sign
/// and of sums in parentheses, which nest at most 16 deep, if every number and every step, in whole numbers from the left, stays within 0
/// to 2^32 − 1, and if it comes to v; it is out of range if it is such a sum and one of them does not stay so; else it is a bad digit.
///
/// A DC's value has that answer if its first byte is `[`, and else the answer of a number of 32 bits; a missing piece has no digits. And
/// no text is two different sums.
#[tactic(auto, using(promises::proofs::Sums::sums_mean))]
pub fn sums_mean()
    ensures { SumsMean }
{}

/// Texts and lines have the answers that stand beside them: `[2+3*4]` is 14, `[(2+3)*4]` 20, `[7-2-1]` 4, `[1-2+3]` out of range,
/// `[1-2]x` a bad digit; `ORG [2]` is one too, and `DC.L [1 +2]`, where a blank cuts the piece.
#[tactic(auto, using(promises::proofs::Sums::sum_examples))]
pub fn sum_examples()
    ensures { SumExamples }
{}
