#![tactic(auto)]

//! What is promised of the call that lists labels with their lines.
ghost use Rattle.promises.specs.Symbols.{SymbolsAreListed, SymbolsRefuseExactly, SymbolsAreWritten, EachListFits};

/// A list is given exactly if none of refusals 1 to 6 comes and it is this: each name that is recorded, once, and no other, with the
/// start, the line and the address of its last record; in the order of these lines, and of two names on one line first the one that the
/// line records first.
#[tactic(auto, using(promises::proofs::Symbols::symbols_are_listed))]
pub fn symbols_are_listed()
    ensures { SymbolsAreListed }
{}

/// The list is refused exactly by the first of conditions 1 to 6 that holds, as in assembling, with its place. The call that writes it
/// into four lent slices is refused exactly so too, and after them by 7 if any of the four is shorter than the list, with the list's
/// length as place.
#[tactic(auto, using(promises::proofs::SymbolsRows::symbols_refuse_exactly))]
pub fn symbols_refuse_exactly()
    ensures { SymbolsRefuseExactly }
{}

/// A refused call leaves the four slices as they were. An accepted one, of which none of conditions 1 to 7 holds, answers the length of
/// the list; in that many first rows stand the starts, the lengths of the names, the addresses and the lines, and after them all is as
/// it was.
#[tactic(auto, using(promises::proofs::SymbolsRows::symbols_are_written))]
pub fn symbols_are_written()
    ensures { SymbolsAreWritten }
{}

/// Each name of an accepted source's list stands in the source at its start; each address is below 2^30, each line at most 4,096. A list
/// has at most 256 entries, and its names together are not longer than the source.
#[tactic(auto, using(promises::proofs::SymbolsFit::each_list_fits))]
pub fn each_list_fits()
    ensures { EachListFits }
{}
