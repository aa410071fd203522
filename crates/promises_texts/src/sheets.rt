//! Sheets of a plant's totals as text, and the names of the files that are added.
ghost use Rattle.sheettext.specs.Trips.{SheetsReadBack};
ghost use Rattle.sheettext.specs.Arguments.{ArgumentsTaken};
ghost use Rattle.sheettext.specs.Names.{NamesReadOn};
ghost use Rattle.promises_texts.specs.Sheets.{NamesAreAdded};

/// The text of a sheet, of totals of at most 19 digits, is read as those totals; and a text that is read as a sheet is, byte for byte, what is
/// written of its totals.
#[tactic(auto, using(sheettext::proofs::RoundTrip::sheets_read_back))]
pub fn sheets_read_back()
    ensures { SheetsReadBack }
{}

/// The arguments, taken one after another, are right exactly if they are `-t` and a sheet's name, as often as there are any.
#[tactic(auto, using(sheettext::proofs::Options::arguments_taken))]
pub fn arguments_taken()
    ensures { ArgumentsTaken }
{}

/// Whatever the chunks, the names that are given on are the lines of what was read, in order, each once, and the front of the line that is not
/// ended yet is held; at the end that line is a name too, unless it is empty. Of a name 4,097 bytes are kept, more than a path can have.
#[tactic(auto, using(sheettext::proofs::Lines::names_read_on))]
pub fn names_read_on()
    ensures { NamesReadOn }
{}

/// A script is added for each of these names, in that order, and for nothing else: before the first read none is; with each part of a chunk that
/// is taken one is if byte 10 ended a name there; and at the end one is for the last name, if any byte of it is held.
#[tactic(auto, using(crate::proofs::Added::names_are_added))]
pub fn names_are_added()
    ensures { NamesAreAdded }
{}
