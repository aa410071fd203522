#![tactic(auto)]

//! What is promised of where branches lead, in the lists and however these are moved.
ghost use Rattle.promises.specs.Lands.{BranchesLand, BranchesLandBy, ManualBranchesLand, LoopsLand, EveryBranchIsAsked};
ghost use Rattle.promises_calls.specs.BranchWords.{BranchesSay, BranchesSayBy};
ghost use Rattle.promises_calls.specs.BranchLines.{EveryBranchSays};
ghost use Rattle.promises_calls.specs.EveryBase.{AskedAtEveryBase};

/// In the plain call's list of an accepted source: a line whose mnemonic is one of the eleven and whose first operand is a recorded
/// label, −128 to 127 from the line's address plus 2, has in its place one word and no other, at its address and with mark 0. That word's
/// high four bits are 0110, and its low byte, read with its sign and added to the line's address plus 2, is the label's last recorded
/// address. After whatever moves, made one after another, the same word stands there, and leads to that address, both moved by the
/// tally's last total.
#[tactic(auto, using(promises::proofs::Lands::branches_land))]
pub fn branches_land()
    ensures { BranchesLand }
{}

/// The same for whatever mnemonics are in use, of every line whose mnemonic is found among them as a branch on one of the 16 conditions.
#[tactic(auto, using(promises::proofs::Lands::branches_land_by))]
pub fn branches_land_by()
    ensures { BranchesLandBy }
{}

/// The same of the eleven in the manual's call, where a label 0 or −1 from the line's address plus 2 is left out.
#[tactic(auto, using(promises::proofs::Lands::manual_branches_land))]
pub fn manual_branches_land()
    ensures { ManualBranchesLand }
{}

/// In the manual's list of an accepted source: a DBRA whose second operand is a recorded label, −32,768 to 32,767 from the line's address
/// plus 2, has in its place two words and no others, from its address on and with mark 0. The first is DBRA's, the second, sixteen bits
/// read with their sign and added to the line's address plus 2, is the label's last recorded address; after whatever moves both words
/// stand there and lead to that address, all moved by the tally's last total.
#[tactic(auto, using(promises::proofs::Lands::loops_land))]
pub fn loops_land()
    ensures { LoopsLand }
{}

/// None of these is said of nothing: for each of the eleven the source of one line that branches to itself, `X:BNE X` and so on, is
/// accepted in both calls, and its line is one of those that these statements are about, 2 bytes back; and so `X:DBRA D0,X` in the
/// manual's call.
#[tactic(auto, using(promises::proofs::LandsExamples::every_branch_is_asked))]
pub fn every_branch_is_asked()
    ensures { EveryBranchIsAsked }
{}

/// So at every base: such a line of each of the eleven in both calls, and of DBRA in the manual's, is accepted and is asked for at each
/// base at which it ends below 2^30. And of a table: with one row, BHS on any of the 16 conditions, the table is accepted, and the line
/// `X:BHS X` is accepted under it and is asked for.
#[tactic(auto, using(crate::proofs::EveryBase::asked_at_every_base))]
pub fn asked_at_every_base()
    ensures { AskedAtEveryBase }
{}

/// And each word is the right branch: in the plain call's list of an accepted source, a line whose mnemonic is one of the eleven and
/// whose first operand gives a displacement has in its place one word and no other, at its address and with mark 0. Its high four bits
/// are 0110, the next four the mnemonic's condition, and its low byte reads, with its sign, as the displacement: that of a recorded
/// label, if −128 to 127 from the line's address plus 2, and else of an operand that starts with a sign, a decimal number of 8 bits. 0
/// and −1 are such too.
#[tactic(auto, using(crate::proofs::BranchWords::branches_say))]
pub fn branches_say()
    ensures { BranchesSay }
{}

/// The same for whatever mnemonics are in use, of every line whose mnemonic is found among them as a branch on one of the 16 conditions.
#[tactic(auto, using(crate::proofs::BranchWords::branches_say_by))]
pub fn branches_say_by()
    ensures { BranchesSayBy }
{}

/// None of these is said of nothing: for each of the eleven the one line `X:BNE X` and so on gives the displacement −2 by its label, and
/// `BNE +5` and so on gives 5 by its number.
#[tactic(auto, using(crate::proofs::BranchLines::every_branch_says))]
pub fn every_branch_says()
    ensures { EveryBranchSays }
{}
