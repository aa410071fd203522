//! Two sheets joined, whatever totals they hold.
ghost use Rattle.promises_calls.specs.Joined.{JoinRefusesExactly, JoinAddsBoth};
ghost use Rattle.promises_calls.specs.LentTotals.{JoinCallLeaves, SourceCallLeaves};

/// Joining any two sheets is refused by 20, with place 1,000,000, exactly if they are of more than 1,000,000 sources together; and by 21,
/// with place 0, exactly if they are not and one of the twelve totals of either is above 2^33. So 500,000 sources and 500,001 are refused
/// by 20, whatever else their totals are; and no other refusal comes.
#[tactic(auto, using(crate::proofs::Joining::join_refuses_exactly))]
pub fn join_refuses_exactly()
    ensures { JoinRefusesExactly }
{}

/// A joining that is accepted meets neither condition, and gives the two sheets added up, total by total; of the most labels in one source
/// the larger.
#[tactic(auto, using(crate::proofs::Joining::join_adds_both))]
pub fn join_adds_both()
    ensures { JoinAddsBoth }
{}

/// A call that joins another sheet to the twelve totals that it is lent answers 0 and leaves both added up there; or it answers a refusal
/// with its place, by the first condition that holds, and leaves every one of the twelve as it was.
#[tactic(auto, using(crate::proofs::Joining::join_call_leaves))]
pub fn join_call_leaves()
    ensures { JoinCallLeaves }
{}

/// A call that adds a source to the twelve totals that it is lent answers 0 and leaves them with the source's own added; or it answers a
/// refusal with its place, by the first condition that holds, and leaves every one of the twelve as it was.
#[tactic(auto, using(crate::proofs::Joining::source_call_leaves))]
pub fn source_call_leaves()
    ensures { SourceCallLeaves }
{}
