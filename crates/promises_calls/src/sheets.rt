#![tactic(auto)]

//! What is promised of the totals of a plant's sources.
ghost use Rattle.promises.specs.Sheet.{EachInOneClass, SourcesAreAdded, SheetRefusesExactly, ClassesAddUp, SheetsAddUp};
ghost use Rattle.promises.specs.SheetExamples.{SheetExamples};
ghost use Rattle.promises_calls.specs.WordLines.{WordLinesEmitThere};
ghost use Rattle.promises_calls.specs.SheetMeans.{MeansAreGiven};

/// Each line of a source that passes refusals 1 to 6 at base 0 is in one class and in no other. The END line is of one class with all
/// that follows it. Any other is skipped, or ORG, by how it starts; or it is judged by what follows its first colon, or by all of it if
/// it has none: label only if that is empty, data if it has `DC.` or `DS.` in it, else an instruction, with a word if the list has words
/// for the line that it has not without it, and without a word if it is the same list without the line.
#[tactic(auto, using(promises::proofs::Sheet::each_in_one_class))]
pub fn each_in_one_class()
    ensures { EachInOneClass }
{}

/// An instruction line that is counted as one with a word has its first word at its own address, the one at which the line is read.
#[tactic(auto, using(crate::proofs::WordLines::word_lines_emit_there))]
pub fn word_lines_emit_there()
    ensures { WordLinesEmitThere }
{}

/// An accepted call adds the source's own totals to those handed in, each to its own, but keeps the larger of the two for the most
/// labels. Those of a source that passes refusals 1 to 6 are how many lines are of each class, how many places its list has and how many
/// of them have mark 1, how many labels are listed, and one accepted source; those of any other are one refused source and nothing else.
#[tactic(auto, using(promises::proofs::Sheet::sources_are_added))]
pub fn sources_are_added()
    ensures { SourcesAreAdded }
{}

/// A call refuses exactly by the first condition that holds: 20 with place 1,000,000 if the accepted and the refused sources handed in
/// are that many together, or more; then 21 with place 0 if any of the twelve totals handed in is above 2^33.
#[tactic(auto, using(promises::proofs::Sheet::sheet_refuses_exactly))]
pub fn sheet_refuses_exactly()
    ensures { SheetRefusesExactly }
{}

/// The seven line counts of a series add up to the number of all lines of those of its sources that pass refusals 1 to 6.
#[tactic(auto, using(promises::proofs::Sheet::classes_add_up))]
pub fn classes_add_up()
    ensures { ClassesAddUp }
{}

/// A series of at most 1,000,000 sources is accepted, its totals are those of its sources added up, and none of them is above 2^33; a
/// longer one is refused by 20. The sheets of two parts, added, are the sheet of the whole, or are refused as it is; and a series in
/// another order has the same sheet or refusal.
#[tactic(auto, using(promises::proofs::Sheet::sheets_add_up))]
pub fn sheets_add_up()
    ensures { SheetsAddUp }
{}

/// The mean of every series that is accepted is two whole numbers: the words of the lists of those of its sources that pass refusals 1 to
/// 6, added up, and how many sources these are.
#[tactic(auto, using(crate::proofs::SheetMeans::means_are_given))]
pub fn means_are_given()
    ensures { MeansAreGiven }
{}

/// Odd lines, totals at the limits, and a series of four have the totals or refusals that stand beside them: `X: END` is an instruction
/// without a word, `X: ; DC.L 4` is data, `ORG: X` is ORG; the series' mean is given as its 18 words and 3 accepted sources.
#[tactic(auto, using(promises::proofs::SheetExamples::sheet_examples))]
pub fn sheet_examples()
    ensures { SheetExamples }
{}
