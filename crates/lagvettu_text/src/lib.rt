#![tactic(auto)]

//! The C interface of the texts that the programs print, an archive of its own: so no second caller of the encoder takes from the others.
//! A text is put at the front of `out`, which has room for the longest, and its length into `size`: C lends both, and a list's three slices.
//! include/lagvettu_text.h declares it.
ghost use Rattle.std.specs.Prelude.{◌≡◌, take};
ghost use Rattle.rules.specs.Assemble.{slices};
ghost use Rattle.rules.specs.Tally.{held};
ghost use Rattle.machine.specs.Bench.{bench_of};
ghost use Rattle.listing.specs.Listing.{list_text};
ghost use Rattle.station.specs.Printed.{Printed};
ghost use Rattle.neartext.specs.NearLabel.{near_text};
ghost use Rattle.symtext.specs.Symlist.{symbols_text};
ghost use Rattle.benchtext.specs.BenchText.{answer_text, tried_text, with_value, words_tried};
ghost use Rattle.sheet.specs.Totals.{lent_totals};
ghost use Rattle.sheettext.specs.Rows.{sheet_text};
ghost use Rattle.sheettext.specs.Back.{sheet_in};
ghost use Rattle.lagvettu_text.specs.Called.{line_for, lines_for, printout_for, ReadsList, ReadsSheet};

use answer::Refusal;
use printout::PRINTOUT;
use sheet::Totals;
use sheettext::SHEET;
use sheettext::back::read_sheet;
use sheettext::rows::write_sheet;
use station::{PLACES, SCRIPT, TEXT};

// ---- Lists.

/// Prints the list in the first `count` places.
#[tactic(auto, unfolding(station::specs::Station::answer_text))]
#[unsafe(no_mangle)]
pub extern "C" fn lagvettu_text_list(
    addresses: &[u32; PLACES],
    words: &[u16; PLACES],
    marks: &[u8; PLACES],
    count: usize,
    out: &mut [u8; TEXT],
    size: &mut usize,
)
    ensures { Printed (list_text (held count (slices addresses.now words.now marks.now))) size.new out.old out.new }
{
    *size = station::write_answer(Ok::<usize, Refusal>(count), addresses, words, marks, out);
}

/// Reads a list's text into the first places: 0, and how many there are; or 1, the number of the first line that is none, and nothing
/// written.
#[tactic(auto, using(crate::proofs::Called::reads_list))]
#[unsafe(no_mangle)]
pub extern "C" fn lagvettu_read_list(
    text: &[u8],
    addresses: &mut [u32; PLACES],
    words: &mut [u16; PLACES],
    marks: &mut [u8; PLACES],
    count: &mut usize,
) -> u8
    ensures { ReadsList text.now (slices addresses.old words.old marks.old) (slices addresses.new words.new marks.new) result count.new }
{
    match listing::reading::read_list(text, addresses, words, marks) {
        Ok(n) => {
            *count = n;
            0
        }
        Err(line) => {
            *count = line.number;
            1
        }
    }
}

// ---- Labels.

/// Prints the labels of a source at a base with their addresses and lines, or the line of a refusal.
#[unsafe(no_mangle)]
pub extern "C" fn lagvettu_text_symbols(
    source: &[u8],
    base: u32,
    out: &mut [u8; TEXT],
    size: &mut usize,
)
    ensures { Printed (symbols_text base source.now) size.new out.old out.new }
{
    *size = symtext::write_symbols(source, base, out);
}

/// Prints the label that an address is near, in a source at a base, and the distance from it, or the line of a refusal.
#[unsafe(no_mangle)]
pub extern "C" fn lagvettu_text_nearest(
    source: &[u8],
    base: u32,
    address: u32,
    out: &mut [u8; TEXT],
    size: &mut usize,
)
    ensures { Printed (near_text base address source.now) size.new out.old out.new }
{
    *size = neartext::write_near(source, base, address, out);
}

// ---- Lines, under the branch table `names` where `lent` says so, which is refused before all else; else `names` is not read. C has no
// Option, so a flag stands beside the table.

/// Prints the verdict on a line, from 1, of a source at a base, or the line of a refusal.
#[unsafe(no_mangle)]
pub extern "C" fn lagvettu_text_why(
    lent: bool,
    names: &[u8],
    source: &[u8],
    base: u32,
    line: usize,
    out: &mut [u8; TEXT],
    size: &mut usize,
)
    ensures { Printed (line_for lent names.now base line source.now) size.new out.old out.new }
{
    *size = if lent {
        branchtext::write_line_under(names, source, base, line, out)
    } else {
        whytext::write_line_verdict(source, base, line, out)
    };
}

/// Prints the verdict on every line that is read, or the line of a refusal.
#[unsafe(no_mangle)]
pub extern "C" fn lagvettu_text_why_all(
    lent: bool,
    names: &[u8],
    source: &[u8],
    base: u32,
    out: &mut [u8; TEXT],
    size: &mut usize,
)
    ensures { Printed (lines_for lent names.now base source.now) size.new out.old out.new }
{
    *size = if lent {
        branchtext::write_lines_under(names, source, base, out)
    } else {
        whytext::write_line_verdicts(source, base, out)
    };
}

/// Prints the printout of a source at a base, a row for each line and the labels under them, or the line of a refusal.
#[unsafe(no_mangle)]
pub extern "C" fn lagvettu_text_printout(
    lent: bool,
    names: &[u8],
    source: &[u8],
    base: u32,
    out: &mut [u8; PRINTOUT],
    size: &mut usize,
)
    ensures { Printed (printout_for lent names.now base source.now) size.new out.old out.new }
{
    *size = if lent {
        printout::write_printout_branches(names, source, base, out)
    } else {
        printout::write_printout(source, base, out)
    };
}

// ---- The bench.

/// Prints the line of a run of the first `count` words of a list, or of a refusal.
#[unsafe(no_mangle)]
pub extern "C" fn lagvettu_text_run(
    addresses: &[u32; PLACES],
    words: &[u16; PLACES],
    count: usize,
    a: &[u32; 8],
    start: u32,
    limit: u64,
    out: &mut [u8; TEXT],
    size: &mut usize,
)
    ensures { Printed (answer_text (bench_of count addresses.now words.now a.now start limit)) size.new out.old out.new }
{
    *size = benchtext::write_list_run(None, addresses, words, count, a, start, limit, out);
}

/// The same with a value put into each of these words that stands at the threshold's address, and the value in front. The words keep it,
/// unless the list is refused.
#[unsafe(no_mangle)]
pub extern "C" fn lagvettu_text_try(
    addresses: &[u32; PLACES],
    words: &mut [u16; PLACES],
    count: usize,
    threshold: u32,
    value: u16,
    a: &[u32; 8],
    start: u32,
    limit: u64,
    out: &mut [u8; TEXT],
    size: &mut usize,
)
    ensures words_after { words.new ≡ words_tried count threshold value addresses.now words.old }
    ensures printed { Printed (tried_text value (bench_of count addresses.now (with_value count threshold value addresses.now words.old) a.now start limit)) size.new out.old out.new }
{
    *size = benchtext::try_value(
        addresses, words, count, threshold, value, a, start, limit, out,
    );
}

// ---- Sheets.

/// Prints the sheet of the twelve totals.
#[unsafe(no_mangle)]
pub extern "C" fn lagvettu_text_sheet(totals: &[u64; 12], out: &mut [u8; SHEET], size: &mut usize)
    ensures { Printed (sheet_text (lent_totals totals.now)) size.new out.old out.new }
{
    *size = write_sheet(Totals::from(*totals), out);
}

/// Reads a sheet's text, by its first 32,768 bytes: 0, with the totals and line 0; or 1, with the number of the first wrong line, and
/// the totals as they were.
#[tactic(auto, using(crate::proofs::Called::front_long, crate::proofs::Called::front_short))]
#[unsafe(no_mangle)]
pub extern "C" fn lagvettu_read_sheet(text: &[u8], totals: &mut [u64; 12], line: &mut usize) -> u8
    ensures { ReadsSheet (sheet_in (take 32768 text.now)) totals.old result line.new totals.new }
{
    let length = text.len().min(SCRIPT);
    match read_sheet(&text[..length]) {
        Ok(t) => {
            *totals = t.into();
            *line = 0;
            0
        }
        Err(bad) => {
            *line = bad.number;
            1
        }
    }
}
