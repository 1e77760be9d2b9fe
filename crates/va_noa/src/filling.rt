// The scan over the cells, which fills the queue.
ghost use Rattle.std.specs.Prelude.{◌≡◌, ◌+◌, ◌<◌, ◌≤◌, ◌∷◌, [], true, false, length, take, OnOk};
ghost use Rattle.std.specs.List.Sorted.{IsPermutation};
ghost use Rattle.va_bound.specs.Tables.{AreBounds};
ghost use Rattle.va_core.specs.Approximations.{paired};
ghost use Rattle.va_core.specs.Causes.{HasCause};
ghost use Rattle.va_core.specs.Ranking.{placed};
ghost use Rattle.va_keep.specs.Queued.{is_near_to};
ghost use Rattle.va_noa.specs.Entries.{AreEntries, entry_at};
ghost use Rattle.va_noa.specs.Filling.{Fills};

use va_bound::Bounds;
use va_bounded::{BoundedCell, next_bounded};
use va_core::Pair;
use va_dist::Query;
use va_keep::{Entry, Keep, Queue};
use va_ports::{Shelf, ShelfFault};

// Takes one cell. It is queued where fewer than k of the upper bounds so far are below its lower one, since else it can
// be no candidate any more.
fn take_in(cell: BoundedCell, highs: &mut Keep, queue: &mut Queue)
    requires { length queue.old.entries < queue.old.room }
    ensures highs { highs.new ≡
        record highs.old { pairs = take highs.old.most (placed (paired cell.high cell.id) highs.old.pairs) } }
    ensures near { is_near_to highs.new (entry_at cell) ≡ true →
        IsPermutation (entry_at cell ∷ queue.old.entries) queue.new.entries }
    ensures far { is_near_to highs.new (entry_at cell) ≡ false → queue.new.entries ≡ queue.old.entries }
    ensures few { length queue.new.entries ≤ length queue.old.entries + 1 }
    ensures room { queue.new.room ≡ queue.old.room }
{
    highs.offer(Pair {
        dist: cell.high,
        id: cell.id,
    });
    let entry = Entry {
        low: cell.low,
        id: cell.id,
        high: cell.high,
        place: cell.place,
    };
    if !highs.is_near(entry.low_pair()) {
        return;
    }
    queue.push(entry);
}

/// Takes all cells, and fetches nothing.
pub fn fill<S: Shelf>(
    shelf: &mut S,
    query: &Query,
    bounds: &Bounds,
    highs: &mut Keep,
    queue: &mut Queue,
) -> Result<(), ShelfFault>
    requires weights { length query.now.weights ≡ (S.contents shelf.old).shape.dims }
    requires bounds { AreBounds (S.contents shelf.old).marks query.now bounds.now }
    requires none_kept { highs.old.pairs ≡ [] }
    requires none_queued { queue.old.entries ≡ [] }
    requires room { length (S.contents shelf.old).cells ≤ queue.old.room }
    ensures fills { OnOk result (Fills S.told (S.contents shelf.old) query.now highs.old.most
        (S.contents shelf.old).cells highs.new queue.new.entries) }
    ensures entries { OnOk result (AreEntries (S.contents shelf.old).shape.capacity queue.new.entries) }
    ensures passes { S.passes shelf.old [] shelf.new }
    ensures contents { S.contents shelf.new ≡ S.contents shelf.old }
    ensures cause { HasCause (S.faults shelf.old) (S.faults shelf.new) result }
    ensures stayed { OnOk result (S.faults shelf.new ≡ S.faults shelf.old) }
{
    let dims = usize::from(query.dims());
    let mut code = [0; 256];
    shelf.rewind();
    while let Some(cell) = next_bounded(shelf, bounds, &mut code[..dims])? {
        take_in(cell, highs, queue);
    }
    Ok(())
}
