#![tactic(auto)]

//! Which label an address is near: the first pass, then one walk over the labels recorded.
ghost use Rattle.std.specs.Prelude.{◌≡◌, ◌≤◌, Option, IfSome};
ghost use Rattle.std.specs.Option.{option_map};
ghost use Rattle.rules.specs.Label.{Label};
ghost use Rattle.requests.specs.Nearest.{nearer, nearest_in, nearest};
ghost use Rattle.label.specs.Numbers.{numbers_of};
ghost use Rattle.nearest.specs.Nearest.{with_label, nearest_of};

use answer::Refusal;
use label::{Labels, Row};

/// The nearest label: where its name starts in the source, in its last record, how many bytes it has, and how far past the
/// label the address is.
#[derive(Clone, Copy, Debug, PartialEq, Eq, Hash)]
pub struct Nearest {
    pub start: usize,
    pub length: usize,
    pub distance: u32,
}

// Whether l is named before m: its address is greater, or the same and its last record stands first.
#[tactic(auto, unfolding(requests::specs::Nearest::nearer))]
fn is_nearer(l: Row, m: Row) -> bool
    ensures { (x y : Label) → l ≡ numbers_of x → m ≡ numbers_of y → result ≡ nearer x y }
{
    m.address < l.address || l.address == m.address && l.start < m.start
}

// The nearest of one label more, which stands before the others in the table.
fn with_row(row: Row, best: Option<Row>, address: u32) -> Option<Row>
    ensures { (l : Label) (o : Option Label) → row ≡ numbers_of l → best ≡ option_map numbers_of o → result ≡ option_map numbers_of (with_label address l o) }
{
    if address < row.address {
        return best;
    }
    // Without a best row this one is it: no None to hand on.
    let Some(other) = best else {
        return Some(row);
    };
    if is_nearer(row, other) {
        return Some(row);
    }
    best
}

// The nearest of the labels, whose address does not pass the one asked: one walk, from the last row to the first, as a row is read
// by its number. `symbols` walks so too: one walk for both would want a trait and a type for each, which is more than the loop.
fn nearest_row(labels: &Labels<'_>, address: u32) -> Option<Row>
    ensures nearest { result ≡ option_map numbers_of (nearest_in address labels.now.table) }
    ensures not_past { IfSome result (λ row. row.address ≤ address) }
{
    let mut best = None;
    for k in (0..labels.len()).rev() {
        best = with_row(labels.row(k), best, address);
    }
    best
}

/// The label whose address is greatest without passing `address`, of a source assembled at `base`; of equal addresses,
/// the one whose last record stands first in the source. Refuses by 1 to 6 as assembling does, then by 12 if no label is at
/// or below the address.
pub fn nearest_label(source: &[u8], base: u32, address: u32) -> Result<Nearest, Refusal>
    ensures { nearest_of result ≡ nearest base source.now address }
{
    // Without a heap: as large as the largest source needs.
    let mut table = [0; label::TABLE];
    let mut cells = [0; 2 * rules::MAX_LINES];
    let mut labels = Labels::new(source, &mut table);
    first::enter(&mut labels, base, &mut cells)?;
    let row = nearest_row(&labels, address).ok_or(Refusal::NoLabelNear)?;
    Ok(Nearest {
        start: row.start,
        length: row.length,
        distance: address - row.address,
    })
}
