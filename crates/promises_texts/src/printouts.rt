//! What `lagvettu list` prints for an accepted source, read back from the text alone, for whatever mnemonics are in use.
ghost use Rattle.printout.specs.Shown.{ShowsLines, ShowsPlaces, ShowsEnd, ShowsList, ShowsReasons, RefusesAlike};
ghost use Rattle.promises_texts.specs.Examples.{PrintoutExamples};

/// Each line of the source has one row, in order, with its number, from 1, and its own bytes; after the rows there is nothing but, where there
/// are labels, an empty line and what `symlist` prints.
#[tactic(auto, using(printout::proofs::Showing::shows_lines))]
pub fn shows_lines()
    ensures { ShowsLines }
{}

/// A row shows the address of its line and exactly the places that the line asks, with a star for a mark; END's row and those after it show
/// none.
#[tactic(auto, using(printout::proofs::Showing::shows_places))]
pub fn shows_places()
    ensures { ShowsPlaces }
{}

/// The row of END has the address after the line before it, or the base where it is the first line.
#[tactic(auto, using(printout::proofs::Showing::shows_end))]
pub fn shows_end()
    ensures { ShowsEnd }
{}

/// The words of the lines with a value, then those of the others, read back from all rows in order, are the list, each modulo 65,536.
#[tactic(auto, using(printout::proofs::Listed::shows_list))]
pub fn shows_list()
    ensures { ShowsList }
{}

/// After a line's bytes stands why it has no word, for a directive whose number failed what failed in it; nothing where a word is emitted;
/// and a line after END is `not read`.
#[tactic(auto, using(printout::proofs::Showing::shows_reasons))]
pub fn shows_reasons()
    ensures { ShowsReasons }
{}

/// A source has no printout exactly if it has no list, and then by the same refusal, with the same place.
#[tactic(auto, using(printout::proofs::Showing::refuses_alike))]
pub fn refuses_alike()
    ensures { RefusesAlike }
{}

/// Printouts byte for byte: a script, lines without words, lines after END, an empty source, one under a branch table, and refusals.
#[tactic(auto, using(printout::proofs::Examples::examples))]
pub fn printout_examples()
    ensures { PrintoutExamples }
{}
