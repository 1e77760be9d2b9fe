// Cells with their bounds.
ghost use Rattle.std.specs.Prelude.{◌≡◌, ◌≤◌, [], length, IfOk, IfSome, OnOk, OnErr};
ghost use Rattle.va_bound.specs.Tables.{AreBounds};
ghost use Rattle.va_core.specs.Causes.{HasCause};
ghost use Rattle.va_core.specs.Distance as distances;
ghost use Rattle.va_ports.specs.Shelves.{Gave};
ghost use Rattle.va_bounded.specs.BoundedCells.{HasBoundsBy, cell_in};

use va_bound::Bounds;
use va_ports::{Shelf, ShelfFault};

/// A cell, and the least and the greatest distance that its vector may have.
#[derive(Clone, Copy)]
pub struct BoundedCell {
    pub place: u32,
    pub id: u32,
    pub low: u64,
    pub high: u64,
}

/// The next cell of the scan. Its bounds are computed once, here.
pub fn next_bounded<S: Shelf>(
    shelf: &mut S,
    bounds: &Bounds,
    code: &mut [u8],
) -> Result<Option<BoundedCell>, ShelfFault>
    requires bounds { (query : distances.Query) × AreBounds (S.contents shelf.old).marks query bounds.now }
    requires code { length code.old ≡ (S.contents shelf.old).shape.dims }
    ensures gave { IfOk result (λ next. Gave (cell_in next) (S.left shelf.old) (S.left shelf.new)) }
    ensures bounds { IfOk result (λ next. IfSome next (λ cell. S.told →
        HasBoundsBy (S.contents shelf.old) bounds.now cell)) }
    ensures order { IfOk result (λ next. IfSome next (λ cell. cell.low ≤ cell.high)) }
    ensures left { OnErr result (S.left shelf.new ≡ S.left shelf.old) }
    ensures length { length code.new ≡ length code.old }
    ensures contents { S.contents shelf.new ≡ S.contents shelf.old }
    ensures passes { S.passes shelf.old [] shelf.new }
    ensures cause { HasCause (S.faults shelf.old) (S.faults shelf.new) result }
    ensures stayed { OnOk result (S.faults shelf.new ≡ S.faults shelf.old) }
{
    match shelf.next_cell(code) {
        Ok(Some((place, id))) => {
            let (low, high) = bounds.both(code);
            Ok(Some(BoundedCell {
                place,
                id,
                low,
                high,
            }))
        }
        Ok(None) => Ok(None),
        Err(fault) => Err(fault),
    }
}
