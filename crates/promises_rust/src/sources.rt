#![tactic(auto)]

//! Whole sources at base 0: their lists, which are accepted, and the refusals. Without sums means that no line that is read asks for one.

ghost use Rattle.promises_rust.specs.RustLists.{ListIsTheRusts, WithinIsAccepted, AcceptedIsWithin, RefusedByTheRust};
ghost use Rattle.promises_rust.specs.RustSums.{SourcesWithSumsAreTheRusts, EverySourceIsGiven};

/// Where a source without sums is accepted at base 0, its list, marks left out, is what the Rust original makes of the source cut at byte
/// 10: the same addresses and words in the same order. Lines after the END line are not read, and may ask for sums.
#[tactic(auto, using(crate::proofs::RustLists::list_is_the_rusts))]
pub fn list_is_the_rusts()
    ensures { ListIsTheRusts }
{}

/// A source without sums whose bytes, lines, and whose Rust address and labels after each line are within the limits is accepted at
/// base 0, and its list, marks left out, is the Rust's.
#[tactic(auto, using(crate::proofs::RustRefused::within_is_accepted))]
pub fn within_is_accepted()
    ensures { WithinIsAccepted }
{}

/// And no other: of a source without sums that is accepted at base 0 the bytes, the lines, and the Rust's address and labels after each
/// line are within the limits.
#[tactic(auto, using(crate::proofs::RustRefused::accepted_is_within))]
pub fn accepted_is_within()
    ensures { AcceptedIsWithin }
{}

/// At base 0 a source without sums is refused exactly by the first condition that holds, with its number and place: too long, a byte over
/// 127, too many lines, then line by line a label too many before an address too high, both in the Rust's own state after that line.
#[tactic(auto, using(crate::proofs::RustRefused::refused_by_the_rust))]
pub fn refused_by_the_rust()
    ensures { RefusedByTheRust }
{}

/// A source with sums stays in the comparison too: give the Rust, for each line whose sum has a value, the line with decimal digits of that
/// value in the sum's place, and every other line as it is. Then the list, which sources are accepted, and the refusals are the Rust's.
#[tactic(auto, using(crate::proofs::RustSums::sources_with_sums_are_the_rusts))]
pub fn sources_with_sums_are_the_rusts()
    ensures { SourcesWithSumsAreTheRusts }
{}

/// For every source there are such lines to give to the Rust: every line that asks for a sum has one that stands for it.
#[tactic(auto, using(crate::proofs::RustDecimal::every_source_is_given))]
pub fn every_source_is_given()
    ensures { EverySourceIsGiven }
{}
