//! The refusals in words, and what the place of each counts.
ghost use Rattle.std.specs.Prelude.{◌≡◌};
ghost use Rattle.answer.specs.Refusal.{number_of};
ghost use Rattle.cli_error.specs.Refusals.{counted, words, counted_text, refusals_text};

use answer::Refusal;

/// What the place of a refusal counts. Lines are from 1, offsets of bytes and indexes in a list from 0.
#[derive(Clone, Copy, Debug, PartialEq, Eq, Hash)]
pub enum Counts {
    /// The bytes of a text.
    Length,
    /// A byte's place in a text.
    Offset,
    /// Things that are too many, or more than there is room for.
    Count,
    /// A line of a source.
    Line,
    /// A place of a list.
    Index,
}

/// What a refusal's place counts, none where it is always 0.
#[tactic(auto, unfolding(crate::specs::Refusals::counted, crate::specs::Refusals::row_of))]
pub fn counted(refusal: Refusal) -> Option<Counts>
    ensures { result ≡ counted (number_of refusal) }
{
    match refusal {
        Refusal::LongSource(_) => Some(Counts::Length),
        Refusal::HighByte(_) => Some(Counts::Offset),
        Refusal::ManyLines(_) => Some(Counts::Count),
        Refusal::HighBase => None,
        Refusal::HighAddress(_) => Some(Counts::Line),
        Refusal::ManyLabels(_) => Some(Counts::Line),
        Refusal::ShortSlice(_) => Some(Counts::Count),
        Refusal::FarDistance => None,
        Refusal::ShortList(_) => Some(Counts::Count),
        Refusal::BadMark(_) => Some(Counts::Index),
        Refusal::OutsideAddress(_) => Some(Counts::Index),
        Refusal::NoLabelNear => None,
        Refusal::NoSuchLine(_) => Some(Counts::Line),
        Refusal::NoEncoding(_) => Some(Counts::Line),
        Refusal::OutOfReach(_) => Some(Counts::Line),
        Refusal::BadCommand(_) => Some(Counts::Offset),
        Refusal::BadBranchName(_) => Some(Counts::Offset),
        Refusal::LongCopy(_) => Some(Counts::Length),
        Refusal::Misplaced(_) => Some(Counts::Index),
        Refusal::ManySources => Some(Counts::Count),
        Refusal::HighTotal => None,
    }
}

/// A refusal in words: the condition under which it comes.
#[tactic(auto, unfolding(crate::specs::Refusals::words, crate::specs::Refusals::row_of, rules::specs::Text::bytes))]
pub fn words(refusal: Refusal) -> &'static [u8]
    ensures { result.now ≡ words (number_of refusal) }
{
    match refusal {
        Refusal::LongSource(_) => b"a source over 32,768 bytes",
        Refusal::HighByte(_) => b"a byte over 127",
        Refusal::ManyLines(_) => b"over 4,096 lines",
        Refusal::HighBase => b"base 2^30 or more",
        Refusal::HighAddress(_) => b"address 2^30 or more after this line",
        Refusal::ManyLabels(_) => b"a new label when 256 are recorded",
        Refusal::ShortSlice(_) => b"more places than there is room for",
        Refusal::FarDistance => b"a distance outside +-(2^30 - 1)",
        Refusal::ShortList(_) => b"more places than the list has",
        Refusal::BadMark(_) => b"a mark over 3, or a 2 and a 3 that are not together",
        Refusal::OutsideAddress(_) => b"a moved address below 0 or above 2^30 + 1",
        Refusal::NoLabelNear => b"no label at or below the address",
        Refusal::NoSuchLine(_) => b"no such line, or one that is never read",
        Refusal::NoEncoding(_) => b"an instruction with no encoding in the manual's words",
        Refusal::OutOfReach(_) => b"a displacement out of range",
        Refusal::BadCommand(_) =>
            b"a cut, missing or unknown command, a 17th row or a condition over 15",
        Refusal::BadBranchName(_) =>
            b"a branch name that starts with a blank, has a lower-case letter, comes twice or is another mnemonic",
        Refusal::LongCopy(_) => b"a copy longer than there is room for",
        Refusal::Misplaced(_) => b"a list address that is odd or above 16,382",
        Refusal::ManySources => b"more than 1,000,000 sources",
        Refusal::HighTotal => b"a total above 2^33",
    }
}

/// What stands between a refusal's number and its place.
#[tactic(auto, unfolding(rules::specs::Text::bytes))]
pub(crate) fn counted_text(counted: Counts) -> &'static [u8]
    ensures { result.now ≡ counted_text counted }
{
    match counted {
        Counts::Length => b" at length ",
        Counts::Offset => b" at offset ",
        Counts::Count => b" at count ",
        Counts::Line => b" at line ",
        Counts::Index => b" at index ",
    }
}

/// The list of all refusals, for `--help`: a line for each, with its number and its words.
// The words once more, as they are printed: that they are the table's is what the clause says.
pub fn refusals() -> &'static [u8]
    ensures { result.now ≡ refusals_text }
{
    b"   \
    1  a source over 32,768 bytes\n   \
    2  a byte over 127\n   \
    3  over 4,096 lines\n   \
    4  base 2^30 or more\n   \
    5  address 2^30 or more after this line\n   \
    6  a new label when 256 are recorded\n   \
    7  more places than there is room for\n   \
    8  a distance outside +-(2^30 - 1)\n   \
    9  more places than the list has\n  \
    10  a mark over 3, or a 2 and a 3 that are not together\n  \
    11  a moved address below 0 or above 2^30 + 1\n  \
    12  no label at or below the address\n  \
    13  no such line, or one that is never read\n  \
    14  an instruction with no encoding in the manual's words\n  \
    15  a displacement out of range\n  \
    16  a cut, missing or unknown command, a 17th row or a condition over 15\n  \
    17  a branch name that starts with a blank, has a lower-case letter, comes twice or is another mnemonic\n  \
    18  a copy longer than there is room for\n  \
    19  a list address that is odd or above 16,382\n  \
    20  more than 1,000,000 sources\n  \
    21  a total above 2^33\n"
}
