//! Texts appended to a text that is made.
ghost use Rattle.std.specs.Prelude.{◌≡◌, ◌≤◌, ◌++◌, OnOk};
ghost use Rattle.listing.specs.Listing.{decimal};
ghost use Rattle.cli_error.specs.Refusals.{padded};

use listing::writing::write_decimal;
use std::alloc::AllocError;

/// Appends a text.
pub(crate) fn add(out: &mut Vec<u8>, more: &[u8]) -> Result<(), AllocError>
    ensures { OnOk result (out.new.items ≡ out.old.items ++ more.now) }
{
    out.extend_from_slice(more)
}

/// Appends a number in decimal.
#[tactic(auto, using(crate::proofs::Columns::front_put))]
pub(crate) fn add_decimal(out: &mut Vec<u8>, n: u64) -> Result<(), AllocError>
    ensures { OnOk result (out.new.items ≡ out.old.items ++ decimal n) }
{
    let mut digits = [0u8; 20];
    let count = write_decimal(&mut digits, 0, n);
    add(out, &digits[..count])
}

/// Appends a number in decimal, with spaces in front, in four columns or as many as it needs.
#[tactic(auto, using(crate::proofs::Columns::front_put, crate::proofs::Columns::spaces, crate::proofs::Columns::appended), unfolding(crate::specs::Refusals::padded))]
pub(crate) fn add_padded(out: &mut Vec<u8>, n: u64) -> Result<(), AllocError>
    ensures { OnOk result (out.new.items ≡ out.old.items ++ padded 4 n) }
{
    let mut digits = [0u8; 20];
    let count = write_decimal(&mut digits, 0, n);
    add(out, &[b' '; 4][..4 - count.min(4)])?;
    add(out, &digits[..count])?;
    Ok(())
}
