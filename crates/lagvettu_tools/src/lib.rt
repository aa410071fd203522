#![tactic(auto)]

//! The C interface of calls beside the assembler's two, an archive of its own: so no second caller takes from those what the
//! compiler inlines there. A call that can refuse answers as in `lagvettu`'s interface; include/lagvettu.h declares both. C lends
//! a number for each part of an answer and a slice for each column of rows: hence so many parameters.
pub mod bench; // bench.rt: the bench from C

ghost use Rattle.std.specs.Prelude.{◌≡◌, length};
ghost use Rattle.rules.specs.Directive.{line_reading};
ghost use Rattle.requests.specs.Nearest.{nearest};
ghost use Rattle.requests.specs.Symbols.{rows, symbols_answer, symbols_rows};
ghost use Rattle.requests.specs.Explain.{explain};
ghost use Rattle.requests.specs.Tidy.{tidy_answer, tidy_slice};
ghost use Rattle.answer.specs.Told.{told_number, told_place};
ghost use Rattle.directive.specs.Directive.{line_number_of};
ghost use Rattle.explain.specs.Called.{Explains};
ghost use Rattle.numbers.specs.Said.{failure_number, said_number, said_value};
ghost use Rattle.lagvettu_tools.specs.Called.{Nears};

use numeral::Failure;

/// Names the label that an address is near, in a source at a base: its start and length in the source, where it was recorded
/// last, and the distance from it; or refuses. The numbers that an answer does not have are 0.
#[unsafe(no_mangle)]
pub extern "C" fn lagvettu_nearest(
    source: &[u8],
    base: u32,
    address: u32,
    start: &mut usize,
    length: &mut usize,
    distance: &mut u32,
    place: &mut usize,
) -> u8
    ensures { Nears (nearest base source.now address) result start.new length.new distance.new place.new }
{
    match nearest::nearest_label(source, base, address) {
        Ok(label) => {
            *start = label.start;
            *length = label.length;
            *distance = label.distance;
            *place = 0;
            0
        }
        Err(refusal) => {
            *start = 0;
            *length = 0;
            *distance = 0;
            *place = refusal.place();
            refusal.number()
        }
    }
}

/// Lists the labels of a source at a base in the first places of the four slices, in the order of their lines: each one's start
/// and length in the source, its address and its line; or refuses, with nothing written.
#[unsafe(no_mangle)]
pub extern "C" fn lagvettu_symbols(
    source: &[u8],
    base: u32,
    starts: &mut [u32],
    lengths: &mut [u32],
    addresses: &mut [u32],
    lines: &mut [u32],
    place: &mut usize,
) -> u8
    ensures number { result ≡ told_number (symbols_answer base source.now (rows starts.old lengths.old addresses.old lines.old)) }
    ensures place { place.new ≡ told_place (symbols_answer base source.now (rows starts.old lengths.old addresses.old lines.old)) }
    ensures rows { rows starts.new lengths.new addresses.new lines.new ≡ symbols_rows base source.now (rows starts.old lengths.old addresses.old lines.old) }
{
    let answer = symbols::list_symbols(source, base, starts, lengths, addresses, lines);
    answer::tell(answer, place)
}

// The number for what failed.
fn failure_number(failure: Failure) -> u8
    ensures { result ≡ failure_number failure }
{
    match failure {
        Failure::NoDigits => 1,
        Failure::BadDigit => 2,
        Failure::OutOfRange => 3,
    }
}

/// What the number of a line said: it was read, and its value; or what failed; or that the line reads none. Where it was not read,
/// the value is 0.
#[unsafe(no_mangle)]
pub extern "C" fn lagvettu_line_number(line: &[u8], value: &mut u32) -> u8
    ensures number { result ≡ said_number (line_number_of (line_reading line.now)) }
    ensures value { value.new ≡ said_value (line_number_of (line_reading line.now)) }
{
    match directive::line_number(line) {
        Some(Ok(number)) => {
            *value = number;
            0
        }
        Some(Err(failure)) => {
            *value = 0;
            failure_number(failure)
        }
        None => {
            *value = 0;
            4
        }
    }
}

/// Why a line, from 1, of a source at a base has no word: its verdict's number in `verdict`. Where it is refused `verdict` is 255 and
/// `place` has the refusal's, else 0.
#[tactic(auto, using(explain::proofs::Called::explains_told))]
#[unsafe(no_mangle)]
pub extern "C" fn lagvettu_explain(
    source: &[u8],
    base: u32,
    line: usize,
    verdict: &mut u8,
    place: &mut usize,
) -> u8
    ensures { Explains (explain base source.now line) result verdict.new place.new }
{
    let answer = explain::explain_line(source, base, line);
    explain::tell(answer, verdict, place)
}

/// Puts the tidy copy of a source at the front of `out`, its length in the number lent; or refuses, with nothing written.
#[unsafe(no_mangle)]
pub extern "C" fn lagvettu_tidy(source: &[u8], out: &mut [u8], place: &mut usize) -> u8
    ensures number { result ≡ told_number (tidy_answer (length out.old) source.now) }
    ensures place { place.new ≡ told_place (tidy_answer (length out.old) source.now) }
    ensures slice { out.new ≡ tidy_slice source.now out.old }
{
    let answer = tidied::tidy_copy(source, out);
    answer::tell(answer, place)
}
