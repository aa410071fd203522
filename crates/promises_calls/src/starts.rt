//! Which names a line records, and where each starts.

ghost use Rattle.promises_calls.specs.NamesApart.{NamesApart};
ghost use Rattle.promises_calls.specs.Starts.{NamesStart, RecordsStart};

/// A line records exactly these names, each after all bytes that stand in front of it. First, where the line has a colon, the trimmed
/// text before its first one, which starts after the blanks that lead the line; where it is empty it starts at that colon. Then, if the
/// trimmed rest, which is the whole line where it has no colon, is data, the trimmed text before the rest's first colon, unless it is
/// empty, or without one the rest's first piece, where another piece follows and it does not start with DC or DS. So in `A: A DC.L 5`
/// the name A starts at 0 and again at 3. Lines that are skipped, END and ORG record none.
#[tactic(auto, using(crate::proofs::LineStarts::names_start))]
pub fn names_start()
    ensures { NamesStart }
{}

/// The records of a source are exactly these: of each line that is read, each name that it records; it starts, in the source, after all
/// the lines in front of its own, each with the byte 10 at its end, and after all that stands in front of the name in its own line, an
/// empty name and one that stands twice in its line too. A record has its line's number, from 1, and the address at which that is read.
#[tactic(auto, using(crate::proofs::LineStarts::records_start))]
pub fn records_start()
    ensures { RecordsStart }
{}

/// A line names at most two, and the first of two ends before the second one starts. So, whatever sizes instructions have, of any two records
/// of a source that are not one and the same, the name of one ends before the other starts, with a byte between them, and not on a later
/// line; and of any three records of one line two are the same.
#[tactic(auto, using(crate::proofs::NamesApart::names_apart))]
pub fn names_apart()
    ensures { NamesApart }
{}
