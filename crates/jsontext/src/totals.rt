//! A sheet's twelve totals, by the names of the sheet's text.
ghost use Rattle.std.specs.Prelude.{◌≡◌, IfOk};
ghost use Rattle.sheet.specs.Totals.{said};
ghost use Rattle.serde_json.specs.View.{view};
ghost use Rattle.jsontext.specs.Line.{IsLine};
ghost use Rattle.jsontext.specs.Totals.{totals_data};

use crate::line;
use serde_json::{Value, json};
use sheet::Totals;
use std::alloc::{AllocError, Global};

// The totals as a value.
#[tactic(auto, unfolding(crate::specs::Totals::totals_data))]
fn totals_value(alloc: Global, totals: Totals) -> Result<Value, AllocError>
    ensures { IfOk result (λ v. view v ≡ totals_data (said totals)) }
{
    json!(in alloc; {
        "accepted": totals.accepted,
        "data": totals.defined,
        "end": totals.ended,
        "label": totals.label,
        "labels": totals.labels,
        "marked": totals.marked,
        "org": totals.org,
        "refused": totals.refused,
        "skipped": totals.skipped,
        "word": totals.worded,
        "wordless": totals.wordless,
        "words": totals.words
    })
}

/// The line for a sheet's totals.
pub fn totals_text(alloc: Global, totals: Totals) -> Result<Vec<u8>, AllocError>
    ensures { IfOk result (λ t. IsLine (totals_data (said totals)) t.items) }
{
    let value = totals_value(alloc, totals)?;
    line(alloc, &value)
}
