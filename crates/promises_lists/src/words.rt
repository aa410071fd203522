//! The manual's words: what the manual encodes, and where its words stand in a source's list.

ghost use Rattle.manual.specs.Samples.{Samples};
ghost use Rattle.promises.specs.ListedForms.{LinesAreTheManuals, ListHoldsTheManuals, FieldsHold, BytesReadBack, QuickReadsBack, EveryFormHasALine};

/// The words of 26 instructions, at least one of each kind, are those worked out by hand from the manual's pages, field by field:
/// MOVEQ #3,D1 is $7203, MULS.W #$FFFF,D0 is $C1FC $FFFF, JMP $12340 is $4EF9 $0001 $2340.
#[tactic(auto, using(manual::proofs::Samples::samples))]
pub fn manual_samples()
    ensures { Samples }
{}

/// A line of one of the forms that are listed as the manual's gives exactly the manual's words of its instruction, with mark 0, at the
/// line's address and 2 on: at any address, under any labels. Of branches these are the nine without BPL and BMI, by a label in reach or a
/// signed number, with a byte other than 0 and −1.
#[tactic(auto, using(promises::proofs::ManualLines::lines_are_the_manuals))]
pub fn lines_are_the_manuals()
    ensures { LinesAreTheManuals }
{}

/// In the list of every accepted source, at every base, each such line that is read has the manual's words in its place: at the line's
/// own address, after all data words and the words of the instructions before it, and before those of the instructions after it.
#[tactic(auto, using(promises::proofs::ManualLists::list_holds_the_manuals))]
pub fn list_holds_the_manuals()
    ensures { ListHoldsTheManuals }
{}

/// In the manual's words of such a line each field fits the bits that it has, so none runs over into the next, and every word has 16 bits.
#[tactic(auto, using(promises::proofs::ManualFields::fields_hold))]
pub fn fields_hold()
    ensures { FieldsHold }
{}

/// A signed number of 8 bits, −128 to 127, has a byte below 256 from which it is read back with its sign.
#[tactic(auto, using(promises::proofs::ManualLaws::bytes_read_back))]
pub fn bytes_read_back()
    ensures { BytesReadBack }
{}

/// A number from 1 to 8 has three bits, 8 as 000, from which it is read back.
#[tactic(auto, using(promises::proofs::ManualLaws::quick_reads_back))]
pub fn quick_reads_back()
    ensures { QuickReadsBack }
{}

/// None of the listed forms is empty: each has a line that is read as its instruction, every branch one with a label and one with a
/// signed number, and a line with a label in front and blanks around its parts counts too.
#[tactic(auto, using(promises::proofs::ManualForms::every_form_has_a_line))]
pub fn every_form_has_a_line()
    ensures { EveryFormHasALine }
{}
