//! `sheet`.
ghost use Rattle.std.specs.Prelude.{◌≡◌, map};
ghost use Rattle.make_sheet.specs.Reading.{Telling};
ghost use Rattle.make_sheet.specs.Served.{Ends};
ghost use Rattle.work.specs.Calls.{file_of};

use crate::calls::file_of;
use commandline::Asked;
use make_sheet::serve_sheet;
use outcome::Outcome;
use outcome::opening::Opening;
use outcome::output::Output;
use std::alloc::Global;
use std::io::Write;

/// The totals of scripts.
#[inline(never)]
pub(crate) fn sheet<F: Opening, O: Output, E: Write>(
    alloc: Global,
    files: &F,
    asked: &Asked<'_>,
    output: &str,
    out: &mut O,
    errors: &mut E,
) -> Outcome
    ensures { Ends (F.holds files.now) (λ n o. Telling (E.contents errors.old) (E.contents errors.new) n o) (map (λ s. s.now) asked.now.sheets.items) (file_of asked.now) asked.now.json output.now (λ s r. O.puts out.old out.new s r) (out.new ≡ out.old) result }
{
    let file = file_of(asked);
    serve_sheet(
        alloc,
        files,
        asked.sheets.as_slice(),
        file,
        asked.json,
        output,
        out,
        errors,
    )
}
