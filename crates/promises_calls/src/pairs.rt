#![tactic(auto)]

//! What is promised of moves where a label's address may have 32 bits, in two words with the marks 2 and 3.
ghost use Rattle.promises_calls.specs.PlainMoves.{SlicesMoveAsBefore};
ghost use Rattle.promises_calls.specs.TallyPlaces.{TallyPlaces};
ghost use Rattle.promises.specs.Lawful.{RulesAreShort};
ghost use Rattle.promises.specs.MovedLists.{ShortWordsDiffer};
ghost use Rattle.promises.specs.Pairs.{MovesAsBefore, PairsFollowTally, PairsAddTotal, OneMoveForPairs, LawfulListsArePaired, MarkExamples, PairExamples};

/// The plain call's instructions, whatever mnemonics are in use, have no label's address of 32 bits among their words.
#[tactic(auto, using(promises::proofs::Lawful::rules_are_short))]
pub fn rules_are_short()
    ensures { RulesAreShort }
{}

/// Of a lawful size and encoder without such addresses: where a source is accepted at two bases whose difference is no multiple of
/// 65,536, the marks of its lists are the same, and a word differs exactly when its mark is 1.
#[tactic(auto, using(promises::proofs::MovedLists::short_words_differ))]
pub fn short_words_differ()
    ensures { ShortWordsDiffer }
{}

/// Where the first marks, as many as are moved, are 0 and 1, a move answers as it did when 10 was any mark above 1, and makes the words
/// that it made then: a word of mark 1 plus the distance, modulo 65,536, and every other as it was. So in any slices, and so the tally's
/// lists.
#[tactic(auto, using(promises::proofs::Pairs::moves_as_before))]
pub fn moves_as_before()
    ensures { MovesAsBefore }
{}

/// And such a move leaves the slices as it did then. Refused, it changes nothing. Accepted, it adds the distance to each of the addresses that
/// are moved; of their words one of mark 1 is then its own value plus the distance, modulo 65,536, and every other is as it was; all marks
/// are as they were, and so is all that lies past these places.
#[tactic(auto, using(crate::proofs::PlainMoves::slices_move_as_before))]
pub fn slices_move_as_before()
    ensures { SlicesMoveAsBefore }
{}

/// Of every list in which no mark is above 3, each 2 has a 3 after it and each 3 a 2 before it, and words with a mark have sixteen bits:
/// moves made one after another, in any slices that hold the list in front, each answer and leave what the tally says.
#[tactic(auto, using(promises::proofs::Pairs::pairs_follow_tally))]
pub fn pairs_follow_tally()
    ensures { PairsFollowTally }
{}

/// In a list of such marks, what the tally has at a total for a pair is, as one number with the high word first, the pair's number plus
/// the total, modulo 2^32, and each of its two words has sixteen bits.
#[tactic(auto, using(promises::proofs::Pairs::pairs_add_total))]
pub fn pairs_add_total()
    ensures { PairsAddTotal }
{}

/// In each list that the tally comes to there are as many places as in the first one, whatever its marks and the distances. A place's address
/// is its first address plus the total; its mark is the first one; a word of mark 0 is the first word; and a word of mark 1 is the first word
/// plus the total, modulo 65,536. So at every total, of each place whose address plus the total is not below 0.
#[tactic(auto, using(crate::proofs::TallyPlaces::tally_places))]
pub fn tally_places()
    ensures { TallyPlaces }
{}

/// Of every such list without an address above 2^30 + 1: if the tally's last total is within ±(2^30 − 1), one move by it is accepted and
/// leaves the tally's last list.
#[tactic(auto, using(promises::proofs::Pairs::one_move_for_pairs))]
pub fn one_move_for_pairs()
    ensures { OneMoveForPairs }
{}

/// Every list that a lawful size and encoder give is such a list: its marks are paired, its words with a mark have sixteen bits, and no
/// address is above 2^30 + 1.
#[tactic(auto, using(promises::proofs::Pairs::lawful_lists_are_paired))]
pub fn lawful_lists_are_paired()
    ensures { LawfulListsArePaired }
{}

/// A broken pair's place by example: of the marks 2, 2, 3 it is 0, of 2, 3, 3 it is 2, of 2, 4 it is 0, and 0 too of 2, 3 where the count
/// is 1; 1, 2, 3, 0, 1 have none.
#[tactic(auto, using(promises::proofs::Pairs::mark_examples))]
pub fn mark_examples()
    ensures { MarkExamples }
{}

/// A pair's number by example: 4 and 65,535 are 5 and 0 at 1, 5 and 0 are 4 and 65,535 at −1, and 65,535 twice is 0 twice at 1.
#[tactic(auto, using(promises::proofs::Pairs::pair_examples))]
pub fn pair_examples()
    ensures { PairExamples }
{}
