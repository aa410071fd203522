#![tactic(auto)]

//! What is promised of the tidy copy of a source.
ghost use Rattle.promises_calls.specs.LabelOrder.{CopyKeepsOrder};
ghost use Rattle.requests.specs.TidyExamples.{TidyExamples};
ghost use Rattle.promises.specs.Tidy.{CopyHasLines, LinesAreCopied, CopyKeepsBytes, CopyReadsAlike, CopyGivesList, EncodersFind, CopyKeepsLabels, CopyOfCopy, CopyIsShort, TidyRefusesExactly, TidyWrites};

/// A text is the copy of a line that is not skipped exactly if it is the line without outer blanks and with one space for each run of
/// blanks. But of a line that is neither END nor ORG the blanks around the first colon go, and what stands before it keeps its inner
/// blanks; and so with the second colon where what follows the first is data. A third colon is text.
#[tactic(auto, using(tidylaws::proofs::Says::lines_are_copied))]
pub fn lines_are_copied()
    ensures { LinesAreCopied }
{}

/// Cut at byte 10, the copy of a source is the copies of its lines, in order, up to the first END line and with it, but without skipped
/// lines. Where no line is left it is empty.
#[tactic(auto, using(tidylaws::proofs::Says::copy_has_lines))]
pub fn copy_has_lines()
    ensures { CopyHasLines }
{}

/// In a line that is not skipped only blanks change: without its blanks the copy is the line without its blanks, notes too.
#[tactic(auto, using(tidylaws::proofs::Solid::copy_keeps_bytes))]
pub fn copy_keeps_bytes()
    ensures { CopyKeepsBytes }
{}

/// The copy of any line records the names that the line records, in the same order, and has the same task: the same instruction, number
/// or directive.
#[tactic(auto, using(tidylaws::proofs::Reading::copy_reads_alike))]
pub fn copy_reads_alike()
    ensures { CopyReadsAlike }
{}

/// At every base where a source is accepted its copy is too, with the same list: in the plain call, with whatever mnemonics in use, under
/// every branch table, and in the manual's call; and by whatever sizes and any encoder that reads labels by their addresses alone.
#[tactic(auto, using(tidylaws::proofs::Passes::copy_gives_list))]
pub fn copy_gives_list()
    ensures { CopyGivesList }
{}

/// The encoders of the plain call, with whatever mnemonics in use, and of the manual's call are such: where two tables find the same
/// address for every name, an instruction has the same words.
#[tactic(auto, using(tidylaws::proofs::Tables::encoders_find))]
pub fn encoders_find()
    ensures { EncodersFind }
{}

/// With whatever sizes: where the first pass accepts a source it accepts the copy, and comes to the same labels with the same addresses,
/// in the same order.
#[tactic(auto, using(tidylaws::proofs::Passes::copy_keeps_labels))]
pub fn copy_keeps_labels()
    ensures { CopyKeepsLabels }
{}

/// And that order is the order of the labels' first records, in the source as in the copy.
#[tactic(auto, using(crate::proofs::LabelOrder::copy_keeps_order))]
pub fn copy_keeps_order()
    ensures { CopyKeepsOrder }
{}

/// The copy of a copy is that copy.
#[tactic(auto, using(tidylaws::proofs::Within::copy_of_copy))]
pub fn copy_of_copy()
    ensures { CopyOfCopy }
{}

/// A copy is never longer than its source.
#[tactic(auto, using(tidylaws::proofs::Short::copy_is_short))]
pub fn copy_is_short()
    ensures { CopyIsShort }
{}

/// The call refuses exactly by the first condition that holds, with that condition's place: 1 to 3 as in assembling, then 18 with the
/// copy's length, which holds if the lent slice is shorter than that; by no other.
#[tactic(auto, using(tidylaws::proofs::Call::tidy_refuses_exactly))]
pub fn tidy_refuses_exactly()
    ensures { TidyRefusesExactly }
{}

/// A refused call leaves the lent slice as it was. An accepted one answers the copy's length; the copy stands in that many first bytes of
/// the slice, and the bytes after it are as they were.
#[tactic(auto, using(tidylaws::proofs::Call::tidy_writes))]
pub fn tidy_writes()
    ensures { TidyWrites }
{}

/// Sources have the copies that stand beside them, byte for byte: the line `ENDX  :  NOP` has `ENDX : NOP`, the line
/// `x : y  z : DC.L   5` has `x:y  z:DC.L 5`, and where all lines are skipped the copy is empty.
#[tactic(auto, using(requests::proofs::TidyExamples::tidy_examples))]
pub fn tidy_examples()
    ensures { TidyExamples }
{}
