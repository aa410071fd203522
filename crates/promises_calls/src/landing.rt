//! Where a branch's word stands in the list.

ghost use Rattle.promises_calls.specs.Landing.{BranchesStand, BranchesStandBy, BranchesStandUnder, ManualBranchesStand, LoopsStand};
ghost use Rattle.promises_calls.specs.Landing.{SayingBranchesStand, SayingBranchesStandBy, SayingBranchesStandUnder};

/// The list has first two places for each line with a value, line by line, high word at the line's address and low word two bytes on; then, line by
/// line, the words of each instruction, from its address on: one or two if its verdict is "word emitted", else none. In a branch's own turn, after
/// all data and the words of the lines before it, stands one word with mark 0 at the line's address, whose byte leads to the label's last recorded
/// address, if that lies within -128 to 127; and by whatever moves it stays at that index and leads there.
#[tactic(auto, using(crate::proofs::ListPlaces::branches_stand))]
pub fn branches_stand()
    ensures { BranchesStand }
{}

/// The same for whatever mnemonics are in use, of every line whose mnemonic is found among them as a branch on one of the 16 conditions.
#[tactic(auto, using(crate::proofs::ListPlaces::branches_stand_by))]
pub fn branches_stand_by()
    ensures { BranchesStandBy }
{}

/// The same of each branch by a row of an accepted table of names, in the list of the call that is lent the table.
#[tactic(auto, using(crate::proofs::ListPlaces::branches_stand_under))]
pub fn branches_stand_under()
    ensures { BranchesStandUnder }
{}

/// In the manual's list each instruction has as many places as its size has words; a branch's one word stands in its turn so, for displacements
/// other than 0 and -1.
#[tactic(auto, using(crate::proofs::ListPlaces::manual_branches_stand))]
pub fn manual_branches_stand()
    ensures { ManualBranchesStand }
{}

/// And DBRA's two words stand in its turn there, the second one the displacement, of 16 bits.
#[tactic(auto, using(crate::proofs::ListPlaces::loops_stand))]
pub fn loops_stand()
    ensures { LoopsStand }
{}

/// In the plain call's list, of the same places, stands in the turn of a line whose mnemonic is one of the eleven and whose first operand
/// gives a displacement, by a recorded label or, as in `BRA -2`, by a signed number, one word with mark 0 at the line's address. It says the
/// mnemonic's condition and that displacement; and by whatever moves it stays at that index, unchanged, its address moved as all are.
#[tactic(auto, using(crate::proofs::ListPlaces::saying_branches_stand))]
pub fn saying_branches_stand()
    ensures { SayingBranchesStand }
{}

/// The same for whatever mnemonics are in use, of every line whose mnemonic is found among them as a branch on one of the 16 conditions.
#[tactic(auto, using(crate::proofs::ListPlaces::saying_branches_stand_by))]
pub fn saying_branches_stand_by()
    ensures { SayingBranchesStandBy }
{}

/// And of each branch by a row of an accepted table of names, in the list of the call that is lent the table.
#[tactic(auto, using(crate::proofs::ListPlaces::saying_branches_stand_under))]
pub fn saying_branches_stand_under()
    ensures { SayingBranchesStandUnder }
{}
