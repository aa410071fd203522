//! What each form's step does, in the manual's words and in plain integers, and what the conditions say after a compare. A state is any with
//! eight data and eight address registers of 32 bits, 16,384 bytes of memory and a program counter of 32 bits. A program goes on so many bytes
//! further modulo 2^32; "all else stays" is said of registers, memory and flags.
ghost use Rattle.promises_bench.specs.Steps.{NopIsTheManuals, MoveqIsTheManuals, MoveWordIsTheManuals, LoadIsTheManuals, StoreIsTheManuals};
ghost use Rattle.promises_bench.specs.Steps.{AddIsTheManuals, SubIsTheManuals, CmpIsTheManuals, MulsIsTheManuals, MulsImmediateIsTheManuals, TstIsTheManuals};
ghost use Rattle.promises_bench.specs.Steps.{SubqIsTheManuals, AslIsTheManuals, BranchIsTheManuals, StatesStayPlain};
ghost use Rattle.promises_bench.specs.EveryStep.{EveryStepIsTheManuals};
ghost use Rattle.promises_bench.specs.Conditions.{ConditionsCompare, BranchesCompare};

/// NOP: the program goes on 2 bytes further, modulo 2^32; registers, memory and flags stay.
#[tactic(auto, using(crate::proofs::StepsForms::nop_is_the_manuals))]
pub fn nop_is_the_manuals()
    ensures { NopIsTheManuals }
{}

/// MOVEQ of a byte to Dm: as a signed number Dm is the byte as a signed number; N is that it is negative, Z that it is 0, V and C are
/// cleared, X, all other registers and memory stay, and the program goes on 2 bytes further.
#[tactic(auto, using(crate::proofs::StepsForms::moveq_is_the_manuals))]
pub fn moveq_is_the_manuals()
    ensures { MoveqIsTheManuals }
{}

/// MOVE.W Dn,Dm: the low word of Dm becomes that of Dn and its high word stays; N and Z by the word, V and C cleared; X and all else stays,
/// and the program goes on 2 bytes further.
#[tactic(auto, using(crate::proofs::StepsForms::move_word_is_the_manuals))]
pub fn move_word_is_the_manuals()
    ensures { MoveWordIsTheManuals }
{}

/// MOVE.L (An),Dm, where the four bytes from the address in An on are in memory: Dm becomes them, the highest first; An is not moved on; N
/// and Z by the long, V and C cleared; X and all else stays, and the program goes on 2 bytes further.
#[tactic(auto, using(crate::proofs::StepsForms::load_is_the_manuals))]
pub fn load_is_the_manuals()
    ensures { LoadIsTheManuals }
{}

/// MOVE.L Dn,(Am), where the four bytes from the address in Am on are in memory: they become Dn, the highest first; N and Z by Dn, V and C
/// cleared; no other byte, no register and not X changes, and the program goes on 2 bytes further.
#[tactic(auto, using(crate::proofs::StepsForms::store_is_the_manuals))]
pub fn store_is_the_manuals()
    ensures { StoreIsTheManuals }
{}

/// ADD.W Dn,Dm: the low word of Dm becomes the sum of both low words modulo 65,536 and its high word stays; N and Z by that word, V that the
/// sum of the signed words is not in -32,768 to 32,767, C and X that the sum of the unsigned words is 65,536 or more; all else stays,
/// and the program goes on 2 bytes further.
#[tactic(auto, using(crate::proofs::StepsForms::add_is_the_manuals))]
pub fn add_is_the_manuals()
    ensures { AddIsTheManuals }
{}

/// SUB.W Dn,Dm: the low word of Dm becomes it less that of Dn, modulo 65,536, and its high word stays; N and Z by that word, V that the
/// signed difference is not in -32,768 to 32,767, C and X that Dm's word is the smaller one, unsigned; all else stays, and the program
/// goes on 2 bytes further.
#[tactic(auto, using(crate::proofs::StepsForms::sub_is_the_manuals))]
pub fn sub_is_the_manuals()
    ensures { SubIsTheManuals }
{}

/// CMP.W Dn,Dm: N, Z, V and C as SUB.W Dn,Dm sets them; X, all registers and memory stay, and the program goes on 2 bytes further.
#[tactic(auto, using(crate::proofs::StepsForms::cmp_is_the_manuals))]
pub fn cmp_is_the_manuals()
    ensures { CmpIsTheManuals }
{}

/// MULS.W Dn,Dm: as a signed number all of Dm becomes the product of both low words as signed numbers; N and Z by that long, V and C cleared;
/// X and all else stays, and the program goes on 2 bytes further.
#[tactic(auto, using(crate::proofs::StepsForms::muls_is_the_manuals))]
pub fn muls_is_the_manuals()
    ensures { MulsIsTheManuals }
{}

/// MULS.W of the word after the instruction's first and Dm: as MULS.W Dn,Dm, but the program goes on 4 bytes further.
#[tactic(auto, using(crate::proofs::StepsForms::muls_immediate_is_the_manuals))]
pub fn muls_immediate_is_the_manuals()
    ensures { MulsImmediateIsTheManuals }
{}

/// TST.L Dn: N is that Dn as a signed number is negative, Z that it is 0, V and C are cleared; X and all else stays, and the program goes on 2
/// bytes further.
#[tactic(auto, using(crate::proofs::StepsForms::tst_is_the_manuals))]
pub fn tst_is_the_manuals()
    ensures { TstIsTheManuals }
{}

/// SUBQ.L of 1 to 8 and Dn: Dn becomes it less that number, modulo 2^32; N and Z by the result, V that the signed difference is below -2^31,
/// C and X that Dn, unsigned, is below the number; all else stays, and the program goes on 2 bytes further.
#[tactic(auto, using(crate::proofs::StepsForms::subq_is_the_manuals))]
pub fn subq_is_the_manuals()
    ensures { SubqIsTheManuals }
{}

/// ASL.L of 1 to 8 and Dn: Dn becomes Dn times 2 to that count, modulo 2^32; N and Z by the result, C and X the last bit shifted out, V that
/// the sign bit is not the same after each single shift, which is that the exact signed product is not in -2^31 to 2^31 - 1; all else stays,
/// and the program goes on 2 bytes further. So $80000000 by 2 clears C and sets V.
#[tactic(auto, using(crate::proofs::StepsForms::asl_is_the_manuals))]
pub fn asl_is_the_manuals()
    ensures { AslIsTheManuals }
{}

/// A branch by a byte other than 0, with one of the nine conditions: if its condition is met by the flags, as the manual's table of the
/// conditions has it, it goes to its own address plus 2 plus its signed byte, modulo 2^32; if not, it goes on 2 bytes further; flags,
/// registers and memory stay.
#[tactic(auto, using(crate::proofs::StepsForms::branch_is_the_manuals))]
pub fn branch_is_the_manuals()
    ensures { BranchIsTheManuals }
{}

/// Every state of a run has eight data and eight address registers of 32 bits, 16,384 bytes and a program counter of 32 bits: the one that it
/// starts from, where the caller's address registers and start address are 32 bits and the list's words 16, and what each step leaves.
#[tactic(auto, using(crate::proofs::StepsForms::states_stay_plain))]
pub fn states_stay_plain()
    ensures { StatesStayPlain }
{}

/// Every step that may be made in such a state does what is said here of its form, and if it is a branch its condition is one of the nine.
/// So a run from such a state is as many of these steps as it says, each one that may be made in the state that the one before it left, and
/// the state that it ends in is the one that the last of them left.
#[tactic(auto, using(crate::proofs::EveryStep::every_step_is_the_manuals))]
pub fn every_step_is_the_manuals()
    ensures { EveryStepIsTheManuals }
{}

/// After CMP.W Dn,Dm each of the sixteen conditions holds exactly if it is so of Dm's low word and Dn's: T always, F never; unsigned, HI that
/// Dm's is the greater, LS that it is not, CS that it is the smaller, CC that it is not; NE that they differ, EQ that they do not; VC that
/// the exact signed difference, Dm's less Dn's, is in -32,768 to 32,767, VS that it is not; PL and MI that the difference modulo 65,536, read
/// as a signed word, is at least 0 or below 0; and GE, LT, GT and LE that Dm's is at least, below, above or at most Dn's, signed.
#[tactic(auto, using(crate::proofs::Conditions::conditions_compare))]
pub fn conditions_compare()
    ensures { ConditionsCompare }
{}

/// CMP.W Dn,Dm and after it a branch by a byte other than 0, with one of the nine conditions: the branch goes to its target exactly if the
/// comparison that its condition names holds of Dm's low word and Dn's, and else to the instruction after it.
#[tactic(auto, using(crate::proofs::Conditions::branches_compare))]
pub fn branches_compare()
    ensures { BranchesCompare }
{}
