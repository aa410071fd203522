//! The text for totals.
ghost use Rattle.std.specs.Prelude.{◌≡◌, IfOk};
ghost use Rattle.sheet.specs.Totals.{said};
ghost use Rattle.cli_error.specs.Answered.{output_of};
ghost use Rattle.cli_error.specs.Gives.{Gives};
ghost use Rattle.cli_totals.specs.Series.{text_of};

use cli_error::{Answer, Status};
use jsontext::totals::totals_text;
use sheet::Totals;
use sheettext::SHEET;
use sheettext::rows::write_sheet;
use std::alloc::{AllocError, Global};

// The text for totals.
fn text_of(alloc: Global, totals: Totals, json: bool) -> Result<Vec<u8>, AllocError>
    ensures { IfOk result (λ text. text.items ≡ text_of json (said totals)) }
{
    if json {
        return totals_text(alloc, totals);
    }
    let mut text = [0u8; SHEET];
    let size = write_sheet(totals, &mut text);
    let mut whole = Vec::new(alloc);
    whole.extend_from_slice(&text[..size])?;
    Ok(whole)
}

/// The answer that is the text for totals.
pub(crate) fn answer_totals(alloc: Global, totals: Totals, json: bool) -> Answer
    ensures { Gives (output_of (text_of json (said totals)) 0) result }
{
    match text_of(alloc, totals, json) {
        Ok(text) => Answer::Output(text, Status::Accepted),
        Err(_) => Answer::NoMemory,
    }
}
