#![tactic(auto)]

//! What is promised of the numbers that C sees: that they are those of one table, specs/Numbers.antt. None does anything: that its clause
//! holds is what the check proves.
ghost use Rattle.promises_numbers.specs.Numbers.{NumbersAreThese};

/// Each number of the table is the number that the calls answer with, read or stay below: the refusals, the places of a sheet's totals, what a
/// line's number said, the verdicts, the ends of a run, the bits of the flags, the marks of words, and the limits. So an end by the halt is
/// told as 0, the flag X is the bit of worth 16, and the high word of a label's address has mark 2. That the C header has these numbers, and
/// no other, tools/numbers sees.
#[tactic(auto, using(crate::proofs::Numbers::numbers_are_these))]
pub fn numbers_are_these()
    ensures { NumbersAreThese }
{}

// The rows of include/lagvettu_text.h: the lengths of the arrays that its calls are lent, as the code has them.
const LAGVETTU_TEXT_PLACES: () = prove!(station::PLACES == 12288);

const LAGVETTU_TEXT_SIZE: () = prove!(station::TEXT == 196608);

const LAGVETTU_PRINTOUT_SIZE: () = prove!(printout::PRINTOUT == 401410);

const LAGVETTU_SHEET_SIZE: () = prove!(sheettext::SHEET == 512);
