//! A sheet read back from its text: the numbers of its rows are read, and the text is a sheet if these are written as that text.
ghost use Rattle.std.specs.Prelude.{◌≡◌, ◌≤◌, length};
ghost use Rattle.sheet.specs.Totals.{said};
ghost use Rattle.sheettext.specs.Back.{with_byte, next_row, read_from, totals_in, same_front, sheet_in, read_of};

use crate::SHEET;
use crate::rows::write_sheet;
use listing::reading::BadLine;
use sheet::Totals;

// The rows that are told apart: twelve totals, and what follows them.
const ROWS: usize = 13;

// A number of 19 digits.
const FULL: u64 = 1_000_000_000_000_000_000;

// A number of at most 19 digits with one byte more: a digit goes to its end, any other byte changes nothing.
#[tactic(auto, unfolding(crate::specs::Back::with_byte))]
fn with_byte(value: u64, byte: u8) -> u64
    ensures { result ≡ with_byte value byte }
{
    match byte {
        b'0'..=b'9' if value < FULL => 10 * value + u64::from(byte - b'0'),
        _ => value,
    }
}

// The row after a byte.
fn next_row(row: usize, byte: u8) -> usize
    ensures { result ≡ next_row row byte }
{
    if byte == b'\n' { row.min(11) + 1 } else { row }
}

// Reads the numbers of the rows, each from 0.
fn read_rows(t: &[u8], numbers: &mut [u64; ROWS])
    ensures { numbers.new ≡ read_from 0 numbers.old t.now }
{
    let mut row = 0;
    for &byte in t {
        numbers[row] = with_byte(numbers[row], byte);
        row = next_row(row, byte);
    }
}

// The totals that a text shows, whatever it is.
fn read_totals(t: &[u8]) -> Totals
    ensures { said result ≡ totals_in t.now }
{
    let mut numbers = [0u64; ROWS];
    read_rows(t, &mut numbers);
    // Twelve of thirteen: `From<[u64; 12]>` would want a copy of the twelve first.
    Totals {
        skipped: numbers[0],
        org: numbers[1],
        label: numbers[2],
        defined: numbers[3],
        worded: numbers[4],
        wordless: numbers[5],
        ended: numbers[6],
        words: numbers[7],
        marked: numbers[8],
        labels: numbers[9],
        accepted: numbers[10],
        refused: numbers[11],
    }
}

// How many bytes two texts have in common at their front.
fn same_front(s: &[u8], t: &[u8]) -> usize
    ensures { result ≡ same_front s.now t.now }
{
    // By index: of `zip`, `take_while` and `count` in a chain the proof did not close.
    for i in 0..s.len() {
        if t.len() <= i {
            return i;
        }
        if s[i] != t[i] {
            return i;
        }
    }
    s.len()
}

/// The totals of a text that is a sheet's, or its first wrong line: the line of the first byte that would be written otherwise.
pub fn read_sheet(t: &[u8]) -> Result<Totals, BadLine>
    requires { length t.now ≤ 32768 }
    ensures { read_of result ≡ sheet_in t.now }
{
    let totals = read_totals(t);
    let mut out = [0u8; SHEET];
    let size = write_sheet(totals, &mut out);
    let common = same_front(&out[..size], t);
    if common != size || common != t.len() {
        return Err(BadLine {
            number: source::count_lines(&t[..common]),
        });
    }
    Ok(totals)
}
