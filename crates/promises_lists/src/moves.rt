//! Lists that move: what was assembled at one base, moved, is what is assembled at another.

ghost use Rattle.promises.specs.Lawful.{RulesAreLawful};
ghost use Rattle.promises.specs.MovedLists.{LawfulMoves, MovedIsAssembled, WordsDiffer, MarksSayWhatMoves, MovesAreMade, MovesFollowTally, TotalsAddUp, OneMoveForAll};
ghost use Rattle.promises.specs.Longest.{AtMostALine, AtMostTwoALine};

/// The rules' own sizes and words are lawful, whatever mnemonics are in use: under labels and at addresses that are all d higher an
/// instruction has the same words but for label addresses, which are d higher; it has at most two; and they end at most 4 bytes after
/// what it takes.
#[tactic(auto, using(promises::proofs::Lawful::rules_are_lawful))]
pub fn rules_are_lawful()
    ensures { RulesAreLawful }
{}

/// Whatever sizes and words are lawful, the rules' own or others, for a call by them holds what the promises below say of the rules' call:
/// its list for one base, moved, is its list for another; its marks say what moves; moves follow the tally; and one move by the last total
/// is enough. Between two bases a word with mark 0 stays, and every other but a pair's high word differs exactly if the distance is not a
/// multiple of 65,536.
#[tactic(auto, using(promises::proofs::MovedLists::lawful_moves))]
pub fn lawful_moves()
    ensures { LawfulMoves }
{}

/// Where a source is accepted at base b and at base c, its list for b, wherever it stands, moved by c − b, is accepted and becomes exactly
/// its list for c: the same count, addresses, words and marks.
#[tactic(auto, using(promises::proofs::MovedLists::moved_is_assembled))]
pub fn moved_is_assembled()
    ensures { MovedIsAssembled }
{}

/// Where a source is accepted at base b and at base c, and c − b is not a multiple of 65,536, the two lists have the same marks, and a
/// word differs between them exactly when its mark is 1.
#[tactic(auto, using(promises::proofs::MovedLists::words_differ))]
pub fn words_differ()
    ensures { WordsDiffer }
{}

/// A mark says which word moves, at one base too: with every label and line d higher the second pass gives the list with every address
/// d higher, every marked word d higher modulo 65,536, and every other word as it was.
#[tactic(auto, using(promises::proofs::MovedLists::marks_say_what_moves))]
pub fn marks_say_what_moves()
    ensures { MarksSayWhatMoves }
{}

/// Moves made one after another: each is a call with the slices as the one before left them, refused or not, and what is seen of it is
/// its answer and the list that then stands in the first places.
#[tactic(auto, using(promises::proofs::Moves::moves_are_made))]
pub fn moves_are_made()
    ensures { MovesAreMade }
{}

/// Of moves made one after another from a source's list, by any distances, refused ones included, each answer and the list after each
/// move are those of the tally, which keeps the first list and the total of the accepted distances.
#[tactic(auto, using(promises::proofs::MovedLists::moves_follow_tally))]
pub fn moves_follow_tally()
    ensures { MovesFollowTally }
{}

/// The tally's total is 0 at first; a refused distance leaves it alone, and any other is added to it.
#[tactic(auto, using(promises::proofs::Moves::totals_add_up))]
pub fn totals_add_up()
    ensures { TotalsAddUp }
{}

/// Where the tally's last total is within ±(2^30 − 1), one move by it from a source's list is accepted and gives the tally's last list.
#[tactic(auto, using(promises::proofs::MovedLists::one_move_for_all))]
pub fn one_move_for_all()
    ensures { OneMoveForAll }
{}

/// By lawful sizes and words with at most so many places an instruction, an accepted source's list has at most so many places for each of
/// its lines, of which there are no more than the limit.
#[tactic(auto, using(promises::proofs::Longest::at_most_a_line))]
pub fn at_most_a_line()
    ensures { AtMostALine }
{}

/// An accepted source's list has at most two places for each of its lines, and so at most 8,192 in all: slices of 8,192 places are enough
/// for every source.
#[tactic(auto, using(promises::proofs::Longest::at_most_two_a_line))]
pub fn at_most_two_a_line()
    ensures { AtMostTwoALine }
{}
