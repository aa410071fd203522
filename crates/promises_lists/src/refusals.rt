//! When a call refuses, with which number and place, and what stands in the slices that it was lent afterwards.

ghost use Rattle.promises.specs.Refusals.{PassRefusesExactly, AssembleRefusesExactly, MoveRefusesExactly, RefusalChangesNothing, AcceptedWrites};
ghost use Rattle.promises_lists.specs.Checks.{ChecksRefuseExactly};

/// The checks of a source alone refuse it exactly by the first of refusals 1, 2 and 3 whose condition holds, with its place: a source over
/// the limit, with its length; a byte over 127, with the index of the first one; too many lines, with the line count. What they accept
/// is what comes after them, whatever that is: a value of any type `T`.
pub fn checks_refuse_exactly<T>()
    ensures { ChecksRefuseExactly T }
{}

/// The first pass, at any base and with any sizes of instructions, refuses exactly by the first condition that holds of refusals 1, 2, 3
/// and 4, in this order, and then line by line, on each line 6, a new label too many, before 5, an address too high after the line;
/// with its place, and by no other number. Lines from END on are not looked at.
#[tactic(auto, using(promises::proofs::Refusals::pass_refuses_exactly))]
pub fn pass_refuses_exactly()
    ensures { PassRefusesExactly }
{}

/// A call that assembles, at any base, for any bytes and any three slices, refuses exactly by the first condition that holds of refusals
/// 1, 2, 3 and 4, then line by line 6 before 5, then 7, a slice shorter than the list; with its place, which for 7 is the list's count,
/// and by no other number.
#[tactic(auto, using(promises::proofs::Refusals::assemble_refuses_exactly))]
pub fn assemble_refuses_exactly()
    ensures { AssembleRefusesExactly }
{}

/// A move of any count of places by any distance refuses exactly by the first condition that holds of refusals 8, 9, 10 and 11, and by no
/// other number: 8 with place 0 for a distance out of range, 9 with the count if a slice is shorter than it, 10 with the lowest index of
/// a mark that is over 3 or half of a broken pair, 11 with the lowest of an address that would be below 0 or above the last one.
#[tactic(auto, using(promises::proofs::Refusals::move_refuses_exactly))]
pub fn move_refuses_exactly()
    ensures { MoveRefusesExactly }
{}

/// A refused call, one that assembles or a move, leaves all three slices as they were.
#[tactic(auto, using(promises::proofs::Refusals::refusal_changes_nothing))]
pub fn refusal_changes_nothing()
    ensures { RefusalChangesNothing }
{}

/// An accepted call answers its count n. One that assembles has then written the source's list, of n places, into the first n places; a
/// move has added the distance to each of the first n addresses, to each word with mark 1 modulo 65,536, and to each pair of words with
/// marks 2 and 3, as one number, modulo 2^32, and has left words with mark 0 and all marks alone. Places past n are as they were in
/// both, and no refusal's condition holds.
#[tactic(auto, using(promises::proofs::Refusals::accepted_writes))]
pub fn accepted_writes()
    ensures { AcceptedWrites }
{}
