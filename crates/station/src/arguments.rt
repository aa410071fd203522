//! What a program is told by its arguments; how many there are counts its own name.
ghost use Rattle.std.specs.Prelude.{◌≡◌, ◌≤◌, leb};
ghost use Rattle.std.specs.Bool.{OnTrue};
ghost use Rattle.rules.specs.Text.{same, bytes};
ghost use Rattle.station.specs.Station.{given_distance, hexadecimal_in, lends_table, given_table};
ghost use Rattle.numeral.specs.Number.{number_of};

use listing::distance::parse_distance;
use numeral::Failure;
use numeral::unsigned::{hex_tail, read_number};
use text::starts_with;

/// What is told before a program's own arguments: whether a branch table is lent, by `-b FILE`.
#[derive(Clone, Copy, Debug, PartialEq, Eq, Hash)]
pub struct Given {
    /// A flag: the file's name stays with the caller, and each of the others is a place in either case.
    pub lent: bool,
    /// How many arguments there are without these two.
    pub count: usize,
    /// Which is the first of the others.
    pub first: usize,
    /// Which is the second of the others.
    pub second: usize,
}

/// Whether a program that takes no argument has none.
pub fn are_none(count: usize) -> bool
    ensures { result ≡ leb count 1 }
{
    count <= 1
}

/// The distance in a program's one argument, `text`; None where that is no distance, or not the only argument.
#[tactic(auto, unfolding(crate::specs::Station::given_distance))]
pub fn given_distance(count: usize, text: &[u8]) -> Option<i32>
    ensures { result ≡ given_distance count text.now }
{
    if count != 2 {
        return None;
    }
    parse_distance(text)
}

/// The number of 32 bits in an argument, in hexadecimal as lists print addresses, with or without a prefix.
#[tactic(auto, unfolding(crate::specs::Station::hexadecimal_in))]
pub fn hexadecimal(text: &[u8]) -> Result<u32, Failure>
    ensures { result ≡ number_of (hexadecimal_in text.now) }
{
    read_number(hex_tail(text).unwrap_or(text), 16, 1 << 32)
}

// Whether an argument is `-b`. No `==`: the specs' `same` goes byte by byte, so it would want a law more.
fn is_table_option(option: &[u8]) -> bool
    ensures { result ≡ same option.now (bytes "-b") }
{
    option.len() == 2 && starts_with(option, b"-b")
}

// Whether the first two arguments are `-b` and a file's name.
#[tactic(auto, unfolding(crate::specs::Station::lends_table))]
fn lends_table(count: usize, option: &[u8], file: &[u8]) -> bool
    ensures value { result ≡ lends_table count option.now file.now }
    ensures two { OnTrue result (2 ≤ count) }
{
    2 < count && 0 < file.len() && is_table_option(option)
}

/// What the first two arguments tell of a branch table.
#[tactic(auto, unfolding(crate::specs::Station::given_table))]
pub fn given_table(count: usize, option: &[u8], file: &[u8]) -> Given
    ensures { result ≡ given_table count option.now file.now }
{
    let lent = lends_table(count, option, file);
    if lent {
        Given {
            lent,
            count: count - 2,
            first: 3,
            second: 4,
        }
    } else {
        Given {
            lent,
            count,
            first: 1,
            second: 2,
        }
    }
}
