//! The limits, each as a number.

ghost use Rattle.promises_lists.specs.Numerals.{LimitsAreNumbers};

/// Each limit is the number that the rules give: what lies at it is not refused for it, and what lies past it is, with its place. A source
/// has at most 32,768 bytes, none over 127, 4,096 lines and 256 different names; base and addresses after lines are below 2^30; a distance
/// is within ±(2^30 − 1), and gives no address below 0 or above 2^30 + 1. So it is of the first pass with any sizes, of both calls that
/// assemble, and of a move. A list has at most 8,192 places, one of the manual's call 12,288.
#[tactic(auto, using(crate::proofs::AtLimits::limits_are_numbers))]
pub fn limits_are_numbers()
    ensures { LimitsAreNumbers }
{}
