// The scan over the cells, which fills the queue.
ghost use Rattle.std.specs.Prelude.{◌≡◌, ◌≤◌, [], length, vec_capacity, OnOk};
ghost use Rattle.va_bound.specs.Tables.{AreBounds};
ghost use Rattle.va_core.specs.Causes.{HasCause};
ghost use Rattle.va_cursor.specs.Filling.{Fills};

use va_bound::Bounds;
use va_bounded::next_bounded;
use va_dist::Query;
use va_keep::{Entry, Queue};
use va_ports::{Shelf, ShelfFault};

/// Takes all cells, and fetches nothing.
pub fn fill<S: Shelf>(
    shelf: &mut S,
    query: &Query,
    bounds: &Bounds,
    queue: &mut Queue,
    places: &mut Vec<u32>,
) -> Result<(), ShelfFault>
    requires weights { length query.now.weights ≡ (S.contents shelf.old).shape.dims }
    requires bounds { AreBounds (S.contents shelf.old).marks query.now bounds.now }
    requires none_queued { queue.old.entries ≡ [] }
    requires no_places { places.old.items ≡ [] }
    requires room { length (S.contents shelf.old).cells ≤ queue.old.room }
    requires capacity { length (S.contents shelf.old).cells ≤ vec_capacity places.old }
    ensures fills { OnOk result (Fills S.told (S.contents shelf.old) query.now []
        queue.new.entries places.new.items) }
    ensures room { OnOk result (length queue.new.entries ≤ queue.new.room) }
    ensures passes { S.passes shelf.old [] shelf.new }
    ensures contents { S.contents shelf.new ≡ S.contents shelf.old }
    ensures cause { HasCause (S.faults shelf.old) (S.faults shelf.new) result }
    ensures stayed { OnOk result (S.faults shelf.new ≡ S.faults shelf.old) }
{
    let dims = usize::from(query.dims());
    let mut code = [0; 256];
    shelf.rewind();
    while let Some(cell) = next_bounded(shelf, bounds, &mut code[..dims])? {
        places.push_reserved(cell.place);
        queue.push(Entry {
            low: cell.low,
            id: cell.id,
            high: cell.high,
            place: cell.place,
        });
    }
    Ok(())
}
