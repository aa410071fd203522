#![tactic(auto)]

//! What is promised of tables of branch names, and of the calls that may be lent one: assembling, and the verdicts on lines.
ghost use Rattle.promises.specs.Branches.{LoadRefusesExactly, LoadAcceptsExactly, FrontOfATable};
ghost use Rattle.promises.specs.BranchCalls.{AssembleUnderRefusesExactly, ListsUnder, AssembleUnderWrites, TablesMove, BranchesLandUnder, ExplainUnderRefusesExactly, ExplainsUnder, ExplainsAllUnder, ElevenAsWithout};
ghost use Rattle.promises.specs.BranchCases.{BranchCasesHold};
ghost use Rattle.promises_calls.specs.BranchWords.{BranchesSayUnder};
ghost use Rattle.promises_calls.specs.LentTables.{FrontOfALentTable};
ghost use Rattle.promises_calls.specs.TableLines.{OthersAsWithout};

/// A table is refused exactly by what is wrong with its first faulty command, with that command's offset as place. 16 is a row that is
/// cut, a missing or unknown command, a 17th row, or a condition over 15; 17 a name that starts with a blank, byte 9 to 13 or 32, has a
/// letter from `a` to `z`, has the four bytes of an earlier row, or is a mnemonic other than the eleven. Of one command 16 comes before
/// 17.
#[tactic(auto, using(promises::proofs::Branches::load_refuses_exactly))]
pub fn load_refuses_exactly()
    ensures { LoadRefusesExactly }
{}

/// A table is accepted, and with these names and conditions, exactly if it is at most 16 rows one after another, each with a right name
/// and a condition of at most 15, and then a byte 0, whatever comes after. A row is a byte 1, four bytes, which are the name and spaces
/// after it, and a condition; a name does not end in a space.
#[tactic(auto, using(promises::proofs::Branches::load_accepts_exactly))]
pub fn load_accepts_exactly()
    ensures { LoadAcceptsExactly }
{}

/// Of a table only the first 97 bytes count for what is loaded, 16 rows of six bytes and an end byte.
#[tactic(auto, using(promises::proofs::BranchFront::front_of_a_table))]
pub fn front_of_a_table()
    ensures { FrontOfATable }
{}

/// And only they count for all that is answered under it: lists, answers and slices of assembling, the verdicts on all lines and on one.
#[tactic(auto, using(promises::proofs::BranchCalls::front_is_enough), unfolding(crate::specs::LentTables::FrontOfALentTable))]
pub fn front_of_a_lent_table()
    ensures { FrontOfALentTable }
{}

/// Assembling under a table refuses exactly by the first condition that holds, with that condition's place: the table's 16 and 17, then 1
/// to 4, then line by line 6 before 5, then 7, with the count that the list under the table needs.
#[tactic(auto, using(promises::proofs::BranchCalls::assemble_under_refuses_exactly))]
pub fn assemble_under_refuses_exactly()
    ensures { AssembleUnderRefusesExactly }
{}

/// Under an accepted table the list or refusal of a source at a base is that of the same two passes with the table's names in place of
/// the eleven branches; all other mnemonics stay.
#[tactic(auto, using(promises::proofs::BranchCalls::lists_under))]
pub fn lists_under()
    ensures { ListsUnder }
{}

/// And line by line, of a source that passes refusals 1 to 6: an instruction whose mnemonic is no row's name and none of the eleven has
/// in its place the same words, with the same addresses and marks, as in the list without a table; and one of the eleven that is no row's
/// name has none. What a row's name says, `branches_say_under` tells.
#[tactic(auto, using(crate::proofs::TableLines::others_as_without))]
pub fn others_as_without()
    ensures { OthersAsWithout }
{}

/// Assembling under a table: a refused call leaves the three slices as they were. An accepted one, of which no condition holds, answers
/// the length of its list; in that many first places stands the list, and after them all is as it was.
#[tactic(auto, using(promises::proofs::BranchCalls::assemble_under_writes))]
pub fn assemble_under_writes()
    ensures { AssembleUnderWrites }
{}

/// Under every accepted table all of the moving law holds: a list moved from one base that accepts the source to another is the other's;
/// words differ, unless the bases' difference is a multiple of 65,536, exactly when the mark is 1; the marks say what moves at one base
/// too; moves made one after another follow the tally; and one move by its last total, if that is in range, gives its last list.
#[tactic(auto, using(promises::proofs::BranchCalls::tables_move))]
pub fn tables_move()
    ensures { TablesMove }
{}

/// Under an accepted table, a line whose mnemonic is the name of one of its rows, whatever the other rows, and whose first operand is a
/// recorded label −128 to 127 from the line's address plus 2, has in its place one branch word with mark 0, at its address; and the
/// word's low byte, read with its sign, leads from there to the label's last recorded address, before and after whatever moves.
#[tactic(auto, using(promises::proofs::BranchLands::branches_land_under))]
pub fn branches_land_under()
    ensures { BranchesLandUnder }
{}

/// And its word is the right branch: a line whose mnemonic is the name of one of an accepted table's rows and whose first operand gives a
/// displacement, as a recorded label or as a signed number, has in its place one word, at its address and with mark 0, with that row's
/// condition in the four bits after 0110 and a low byte that reads, with its sign, as the displacement.
#[tactic(auto, using(crate::proofs::BranchWords::branches_say_under))]
pub fn branches_say_under()
    ensures { BranchesSayUnder }
{}

/// A verdict on a line under a table is refused exactly by the first condition that holds, with that condition's place: the table's 16
/// and 17, then 1 to 6 as in assembling, then 13 with the line.
#[tactic(auto, using(promises::proofs::BranchCalls::explain_under_refuses_exactly))]
pub fn explain_under_refuses_exactly()
    ensures { ExplainUnderRefusesExactly }
{}

/// Under an accepted table a verdict on a line is given exactly if it is right, as without a table, with the table's names in place of
/// the eleven: one of the eleven that is not in the table is a mnemonic not in use.
#[tactic(auto, using(promises::proofs::BranchCalls::explains_under))]
pub fn explains_under()
    ensures { ExplainsUnder }
{}

/// The verdicts on all lines under a table are refused exactly by 16 and 17, then 1 to 6; under an accepted table they are those by its
/// names in place of the eleven, line by line.
#[tactic(auto, using(promises::proofs::BranchCalls::explains_all_under))]
pub fn explains_all_under()
    ensures { ExplainsAllUnder }
{}

/// With the eleven and their own conditions in a table, in any order and nothing else, every list, answer and slice of assembling, all
/// verdicts and each single one are as without a table.
#[tactic(auto, using(promises::proofs::BranchCalls::eleven_as_without))]
pub fn eleven_as_without()
    ensures { ElevenAsWithout }
{}

/// Odd tables have the refusals or the names that stand beside them, and under BHS and BLO sources have the list and the verdicts that
/// do: a name is found in small letters too, and whole; the eleven are not found; under a table without a row no branch has a word.
#[tactic(auto, using(promises::proofs::BranchCases::branch_cases_hold))]
pub fn branch_cases_hold()
    ensures { BranchCasesHold }
{}
