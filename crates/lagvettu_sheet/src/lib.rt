#![tactic(auto)]

//! The C interface of the sheet for a plant, in an archive of its own: so no second caller of the encoder takes from the
//! other calls what the compiler inlines there. An answer is as in the interface of the stations' call; include/lagvettu.h declares it.
ghost use Rattle.requests.specs.Sheet.{add_source, add_sheet};
ghost use Rattle.sheet.specs.Totals.{lent_totals, answered};
ghost use Rattle.sheet.specs.Called.{AddsTotals};

use answer::Refusal;
use sheet::Totals;

// Puts the totals of an answer in the place of those that were lent; or refuses, and no total changes.
fn tell(answer: Result<Totals, Refusal>, totals: &mut [u64; 12], place: &mut usize) -> u8
    ensures { AddsTotals (answered answer) totals.old result place.new totals.new }
{
    match answer {
        Ok(t) => {
            *totals = <[u64; 12]>::from(t);
            *place = 0;
            0
        }
        Err(refusal) => {
            *place = refusal.place();
            refusal.number()
        }
    }
}

/// Adds a source to the twelve totals, which are lent in the order of the struct; or refuses, and no total changes.
#[unsafe(no_mangle)]
pub extern "C" fn lagvettu_sheet_add(source: &[u8], totals: &mut [u64; 12], place: &mut usize) -> u8
    ensures { AddsTotals (add_source (lent_totals totals.old) source.now) totals.old result place.new totals.new }
{
    tell(
        sheet::add_source(Totals::from(*totals), source),
        totals,
        place,
    )
}

/// Adds another sheet's totals to them; or refuses, and no total changes.
#[unsafe(no_mangle)]
pub extern "C" fn lagvettu_sheet_join(
    other: &[u64; 12],
    totals: &mut [u64; 12],
    place: &mut usize,
) -> u8
    ensures { AddsTotals (add_sheet (lent_totals totals.old) (lent_totals other.now)) totals.old result place.new totals.new }
{
    tell(
        sheet::add_sheet(Totals::from(*totals), Totals::from(*other)),
        totals,
        place,
    )
}
