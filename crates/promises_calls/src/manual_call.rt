#![tactic(auto)]

//! What is promised of the call that gives the manual's own words, and that the plain call keeps the branch byte −1.
ghost use Rattle.promises_calls.specs.WordCount.{ThreeWordsAtMost};
ghost use Rattle.manual.specs.OperationWords.{OperationWords};
ghost use Rattle.promises.specs.Examples.{MinusOneIsEmitted};
ghost use Rattle.promises.specs.ManualWritten.{NoFormLeftOut, WordsAreTheManuals, FieldsHoldHere};
ghost use Rattle.promises.specs.ManualFaults.{FaultsExactly, WordsOrFault};
ghost use Rattle.promises.specs.ManualCall.{SizeIsLength, ThreeWords, ManualIsLawful, AtMostThree};
ghost use Rattle.promises.specs.ManualMovedLists.{ManualMoves, ManualListsArePaired, FaultsAtEveryBase};
ghost use Rattle.promises.specs.ManualRefusals.{ManualRefusesExactly, ManualRefusalChangesNothing, ManualAcceptedWrites};
ghost use Rattle.promises.specs.ManualLists.{ListsAreManual};
ghost use Rattle.promises.specs.ManualExamples.{ManualExamples};
ghost use Rattle.promises_calls.specs.LabelAddresses.{LabelsAreLow, SourcesHaveForms};
ghost use Rattle.promises_calls.specs.ManualNumbers.{ManualNumbersMean};
ghost use Rattle.promises_calls.specs.WordBits.{FieldsAreBits};

/// Every instruction that is written as one of the manual's forms has exactly the manual's words of that instruction, with mark 2 on the
/// high word of a label's address, 3 on the low one and 0 on every other: at every address, by whatever labels with addresses below 2^32.
#[tactic(auto, using(promises::proofs::ManualWords::no_form_left_out))]
pub fn no_form_left_out()
    ensures { NoFormLeftOut }
{}

/// Nothing else has words: an instruction that has some, by whatever labels with addresses below 2^32, is written as one of these forms,
/// and its words and marks are those of that form.
#[tactic(auto, using(promises::proofs::ManualWords::words_are_the_manuals))]
pub fn words_are_the_manuals()
    ensures { WordsAreTheManuals }
{}

/// In the words of every instruction that is so written no field runs over into the next: the fields of the operation word are sixteen
/// bits together and each holds its value, and every word after it is below 65,536.
#[tactic(auto, using(promises::proofs::ManualWords::fields_hold_here))]
pub fn fields_hold_here()
    ensures { FieldsHoldHere }
{}

/// Every label of a source that passes refusals 1 to 6 lies below 2^30, at every base and with any sizes of instructions.
#[tactic(auto, using(crate::proofs::LabelAddresses::labels_are_low))]
pub fn labels_are_low()
    ensures { LabelsAreLow }
{}

/// So the three hold by the labels of every accepted source, at every base and every address, without a premise on where labels lie: a form
/// as it is written has exactly the manual's words, what has words is written as a form, and no field of them runs over.
#[tactic(auto, using(crate::proofs::LabelAddresses::sources_have_forms))]
pub fn sources_have_forms()
    ensures { SourcesHaveForms }
{}

/// The call's numbers without a `#` are what their bytes mean. JMP takes of an operand exactly the number of 32 bits that it reads as. A
/// displacement that is given as a number is a sign and decimal digits, as many as there are and of any value: `+007` is 7 and
/// `-99999999999` what it says, and `7`, `+` and `+$7` are none.
#[tactic(auto, using(crate::proofs::ManualNumbers::manual_numbers_mean))]
pub fn manual_numbers_mean()
    ensures { ManualNumbersMean }
{}

/// By the manual's fields the operation words of the forms come to sums, whatever the registers: MOVEQ's to $7000 plus 512 times the
/// register plus the byte, DBRA's to $51C8 plus the register, and so on for each of the 21.
#[tactic(auto, using(manual::proofs::OperationWords::operation_words))]
pub fn operation_words()
    ensures { OperationWords }
{}

/// And the manual's fields are bits of those words: of every instruction none of whose fields runs over, the operation word is below
/// 65,536, and each field is what a division by two to the power of the bits after it, and the rest by two to the power of the field's
/// width, leave of the word.
#[tactic(auto, using(crate::proofs::WordBits::fields_are_bits))]
pub fn fields_are_bits()
    ensures { FieldsAreBits }
{}

/// The size of an instruction is the length of its words in bytes wherever it has words, whatever the labels and its address; and it is 0
/// if it has none with any labels at any address.
#[tactic(auto, using(promises::proofs::ManualCall::size_is_length))]
pub fn size_is_length()
    ensures { SizeIsLength }
{}

/// No instruction's size in the manual's call is above six bytes, which are three words.
#[tactic(auto, using(promises::proofs::ManualWords::three_words))]
pub fn three_words()
    ensures { ThreeWords }
{}

/// An instruction that has words in the manual's call has at most three, whatever the labels and its address, a label's address of 32 bits
/// counted as two; and its places in the list are as many.
#[tactic(auto, using(crate::proofs::WordCount::three_words_at_most))]
pub fn three_words_at_most()
    ensures { ThreeWordsAtMost }
{}

/// The manual's list of an accepted source has at most three places for each line of the source, and at most 12,288 in all.
#[tactic(auto, using(promises::proofs::ManualMovedLists::at_most_three))]
pub fn at_most_three()
    ensures { AtMostThree }
{}

/// Fault 15 comes exactly for one of the eleven branches with one operand, or DBRA with a data register and one more, without a suffix,
/// if that operand is other text and gives a displacement, as a recorded label or as a signed number, and none that it gives is in range:
/// −128 to 127 without 0 and −1, of DBRA 16 bits. Fault 14 comes exactly for every other instruction that is written as none of the
/// forms.
#[tactic(auto, using(promises::proofs::ManualFaults::faults_exactly))]
pub fn faults_exactly()
    ensures { FaultsExactly }
{}

/// An instruction has words, or it has one of the faults 14 and 15: never both and never neither.
#[tactic(auto, using(promises::proofs::ManualFaults::words_or_fault))]
pub fn words_or_fault()
    ensures { WordsOrFault }
{}

/// The plain call emits the branch byte −1, of a label as of a number: at base 0 `BRA X`, `ORG 1`, `X:BRA X`, `BRA -1` and `BRA -2` give
/// $60FF at 0, $60FE at 1, $60FF at 3 and $60FE at 5, and no other word.
#[tactic(auto, using(promises::proofs::Examples::minus_one_is_emitted))]
pub fn minus_one_is_emitted()
    ensures { MinusOneIsEmitted }
{}

/// The sizes and words of the manual's call are lawful, with three places a line: at addresses and with labels d higher an instruction
/// has the same words but for label addresses, which are d higher; it has at most three; and they end at most 4 bytes after its size.
#[tactic(auto, using(promises::proofs::ManualCall::manual_is_lawful))]
pub fn manual_is_lawful()
    ensures { ManualIsLawful }
{}

/// All of the moving law holds of the manual's call. A list moved from one base that accepts the source to another is accepted, and is
/// the list of the other. Between the two, marks are the same and words without a mark too, and a pair's low word differs exactly if the
/// bases' difference is no multiple of 65,536. The marks say what moves at one base too: with labels and lines d higher the second pass
/// gives the list that the tally has at d. Moves made one after another follow the tally, and one move by its last total, if that is in
/// range, is accepted and gives its last list.
#[tactic(auto, using(promises::proofs::ManualMovedLists::manual_moves))]
pub fn manual_moves()
    ensures { ManualMoves }
{}

/// In every list of the manual's call no mark is above 3, each 2 has a 3 after it and each 3 a 2 before it; every word with a mark has
/// sixteen bits, and no address is above 2^30 + 1.
#[tactic(auto, using(promises::proofs::ManualMovedLists::manual_lists_are_paired))]
pub fn manual_lists_are_paired()
    ensures { ManualListsArePaired }
{}

/// The faults 14 and 15 do not depend on the base: of a source that passes refusals 1 to 6 at two bases, what is refused at the one is
/// refused at the other, with the same number and line.
#[tactic(auto, using(promises::proofs::ManualMovedLists::faults_at_every_base))]
pub fn faults_at_every_base()
    ensures { FaultsAtEveryBase }
{}

/// The manual's call refuses exactly by the first condition that holds, with that condition's place: 1 to 4, then line by line 6 before
/// 5, then line by line 14 and 15, with the number of the line that has the fault, then 7, with the count that is needed.
#[tactic(auto, using(promises::proofs::ManualRefusals::manual_refuses_exactly))]
pub fn manual_refuses_exactly()
    ensures { ManualRefusesExactly }
{}

/// A refused call leaves the three slices as they were.
#[tactic(auto, using(promises::proofs::ManualRefusals::manual_refusal_changes_nothing))]
pub fn manual_refusal_changes_nothing()
    ensures { ManualRefusalChangesNothing }
{}

/// An accepted call, of which no condition holds, answers the length of the source's list; in that many first places of the three slices
/// stands the list, and after them all is as it was.
#[tactic(auto, using(promises::proofs::ManualRefusals::manual_accepted_writes))]
pub fn manual_accepted_writes()
    ensures { ManualAcceptedWrites }
{}

/// In the manual's list of an accepted source, each line that is read and is an instruction is written as one of the manual's forms, by
/// the labels of the source, and the words of that form with their marks stand there, from the line's address on: after all data words
/// and the words of earlier lines, and before those of later lines.
#[tactic(auto, using(promises::proofs::ManualLists::lists_are_manual))]
pub fn lists_are_manual()
    ensures { ListsAreManual }
{}

/// Sources of the manual's call have the refusals or the lists that stand beside them: of suffixes, of what has no encoding, of
/// displacements, of −1, of lines that are no instructions, and one list with every word that the plain call does not have.
#[tactic(auto, using(promises::proofs::ManualExamples::manual_examples))]
pub fn manual_examples()
    ensures { ManualExamples }
{}
