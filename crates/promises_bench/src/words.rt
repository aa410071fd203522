#![tactic(auto)]

//! Which words the bench runs, and as what.
ghost use Rattle.machine.specs.Samples.{Words, WordsRun};
ghost use Rattle.promises_bench.specs.BenchWords.{DecodesExactly, HaltsExactly, LinesRun, WordsHaveLines};

/// A word is run as a form exactly if it is that form's word by the manual's bit fields, with registers 0 to 7, counts 1 to 8, and of a
/// branch one of the nine conditions T, CC, CS, NE, EQ, GE, LT, GT and LE and a byte that is neither $00 nor $FF; no other word is run.
#[tactic(auto, using(crate::proofs::BenchWords::decodes_exactly))]
pub fn decodes_exactly()
    ensures { DecodesExactly }
{}

/// $4E72 is the halt, and no other word is.
#[tactic(auto, using(crate::proofs::BenchWords::halts_exactly))]
pub fn halts_exactly()
    ensures { HaltsExactly }
{}

/// What lines of the forms that the rules list as the manual's say is exactly what the bench runs: an instruction is said by such a line,
/// with some labels at some address, if and only if its first word is run as that instruction, with some next word.
#[tactic(auto, using(crate::proofs::BenchWords::lines_run))]
pub fn lines_run()
    ensures { LinesRun }
{}

/// Every word that is run is the first word that the assembler puts for some line of those forms, and that line says the instruction that
/// the word runs as, whatever word is after it.
#[tactic(auto, using(crate::proofs::BenchWords::words_have_lines))]
pub fn words_have_lines()
    ensures { WordsHaveLines }
{}

/// Words taken by hand from the manual are run as what they are: $72FF is MOVEQ of byte $FF to D1, $5182 SUBQ.L #8,D2; a branch by byte 0
/// or $FF, BPL, BMI, BSR, MOVEA, CMPI, JMP and DBRA are not run.
#[tactic(auto, using(machine::proofs::Samples::words))]
pub fn bench_words()
    ensures { Words }
{}

/// Of all 65,536 words 4,927 are run.
#[tactic(auto, using(machine::proofs::Samples::words_run))]
pub fn words_run()
    ensures { WordsRun }
{}
