#![tactic(auto)]

//! What is promised of the call that names the label near an address, and of the records that labels have in a source.
ghost use Rattle.promises_calls.specs.LabelOrder.{LabelsInOrder};
ghost use Rattle.promises_calls.specs.BelowBase.{NoneBelowBase, NearestAtEachAddress};
ghost use Rattle.promises.specs.Nearest.{FoundIsLast, RecordsStand, NearestIsNear, NearestRefusesExactly, NearestMoves};

/// An answer is given exactly if none of refusals 1 to 6 comes and it is this: of the labels whose address does not pass the one asked,
/// the one whose address is greatest, and of equal addresses the one whose last record starts first in the source. It says the start of
/// that record, the length of the name, and how far the address asked is above the label's. A label's address is that of its last record.
#[tactic(auto, using(promises::proofs::Nearest::nearest_is_near))]
pub fn nearest_is_near()
    ensures { NearestIsNear }
{}

/// The call refuses exactly by the first condition that holds, with that condition's place: 1 to 6 as in assembling, and after them 12
/// with place 0, which holds if the address of every label is above the one asked, so too if there is no label.
#[tactic(auto, using(promises::proofs::Nearest::nearest_refuses_exactly))]
pub fn nearest_refuses_exactly()
    ensures { NearestRefusesExactly }
{}

/// Of a source that passes refusals 1 to 6 at a base b, the answer at b for the address b + a is the answer at base 0 for the address a:
/// the same start, length and distance, or the same refusal.
#[tactic(auto, using(promises::proofs::Nearest::nearest_moves))]
pub fn nearest_moves()
    ensures { NearestMoves }
{}

/// No record of a name has an address below the base, whatever sizes instructions have.
#[tactic(auto, using(crate::proofs::BelowBase::none_below_base))]
pub fn none_below_base()
    ensures { NoneBelowBase }
{}

/// Of a source that passes refusals 1 to 6 at a base, the answer at that base for each address from the base on is the answer at base 0 for an
/// address so much lower, the same start, length and distance or the same refusal; and for each address below the base it is refusal 12 with
/// place 0.
#[tactic(auto, using(crate::proofs::BelowBase::nearest_at_each_address))]
pub fn nearest_at_each_address()
    ensures { NearestAtEachAddress }
{}

/// The name of a record stands in the source, from the record's start on. Of two records, the one that starts later does not start before
/// the other's name ends; that of a later line starts later; and where a line records two names, the first of them starts first.
#[tactic(auto, using(promises::proofs::Records::records_stand))]
pub fn records_stand()
    ensures { RecordsStand }
{}

/// Whatever sizes instructions have: where the first pass accepts a source, the address that it finds for a name is that of the name's
/// last record, the one that starts last in the source; and it finds none for a name that is not recorded.
#[tactic(auto, using(promises::proofs::Records::found_is_last))]
pub fn found_is_last()
    ensures { FoundIsLast }
{}

/// Whatever sizes instructions have: where the first pass accepts a source, each label that it comes to has a first record, the one of its name
/// that starts first in the source, and the labels stand in the order in which their first records start.
#[tactic(auto, using(crate::proofs::LabelOrder::labels_in_order))]
pub fn labels_in_order()
    ensures { LabelsInOrder }
{}
