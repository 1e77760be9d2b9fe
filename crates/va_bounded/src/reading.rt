// The distance of one cell.
ghost use Rattle.std.specs.Prelude.{◌≡◌, ◌+◌, ◌<◌, ◌≤◌, ◌∷◌, [], length, vec_capacity, IfOk, IfErr, OnErr, OnOk};
ghost use Rattle.va_ports.specs.Faults.{CountsShelfFaults, IfMemory};
ghost use Rattle.va_ports.specs.Searches.{clamped_distance, distance_of};
ghost use Rattle.va_bounded.specs.BoundedCells.{HasBounds, cell_of};
ghost use Rattle.va_bounded.specs.CellReads.{StoppedAtCell, StoppedReading, TookCell};

use crate::cell::BoundedCell;
use va_dist::Query;
use va_ports::{SearchFault, Shelf};

// Fetches the vector of a cell, and answers its distance where that lies between the bounds.
fn read_distance<S: Shelf>(
    shelf: &mut S,
    query: &Query,
    cell: BoundedCell,
    vector: &mut [u8],
) -> Result<u64, SearchFault>
    requires place { cell.place < (S.contents shelf.old).shape.capacity }
    requires dims { length vector.old ≡ (S.contents shelf.old).shape.dims }
    requires weights { length query.now.weights ≡ (S.contents shelf.old).shape.dims }
    requires bounds { S.told → HasBounds (S.contents shelf.old) query.now cell }
    ensures between { IfOk result (λ dist. (cell.low ≤ dist) × (dist ≤ cell.high)) }
    ensures distance { IfOk result (λ dist. S.told →
        dist ≡ distance_of (S.contents shelf.old) query.now (cell_of cell)) }
    ensures passes { OnOk result (S.passes shelf.old (cell.place ∷ []) shelf.new) }
    ensures stopped { IfErr result (StoppedReading S.Shelf query.now cell shelf.old shelf.new) }
    ensures never_memory { IfErr result (λ why. IfMemory why ⊥) }
    ensures left { S.left shelf.new ≡ S.left shelf.old }
    ensures contents { S.contents shelf.new ≡ S.contents shelf.old }
    ensures length { length vector.new ≡ length vector.old }
    ensures cause { CountsShelfFaults (S.faults shelf.old) (S.faults shelf.new) result }
{
    match shelf.fetch(cell.place, vector) {
        Ok(()) => {}
        Err(fault) => return Err(SearchFault::Shelf(fault)),
    }
    let dist = query.distance(vector);
    if dist < cell.low || cell.high < dist {
        return Err(SearchFault::Mismatch {
            place: cell.place,
            dist,
            low: cell.low,
            high: cell.high,
        });
    }
    Ok(dist)
}

/// The distance of a cell: where its bounds are the same, that is known, and else its vector is read and its id listed.
pub fn known_distance<S: Shelf>(
    shelf: &mut S,
    query: &Query,
    cell: BoundedCell,
    vector: &mut [u8],
    fetched: &mut Vec<u32>,
) -> Result<u64, SearchFault>
    requires place { cell.place < (S.contents shelf.old).shape.capacity }
    requires dims { length vector.old ≡ (S.contents shelf.old).shape.dims }
    requires weights { length query.now.weights ≡ (S.contents shelf.old).shape.dims }
    requires bounds { S.told → HasBounds (S.contents shelf.old) query.now cell }
    requires order { cell.low ≤ cell.high }
    requires room { length fetched.old.items < vec_capacity fetched.old }
    ensures distance { IfOk result (λ dist. S.told →
        dist ≡ clamped_distance (S.contents shelf.old) query.now (cell_of cell)) }
    ensures took { OnOk result (TookCell S.Shelf query.now cell shelf.old shelf.new
        fetched.old.items fetched.new.items) }
    ensures stopped { IfErr result (StoppedAtCell S.Shelf query.now cell shelf.old shelf.new) }
    ensures never_memory { IfErr result (λ why. IfMemory why ⊥) }
    ensures left { S.left shelf.new ≡ S.left shelf.old }
    ensures contents { S.contents shelf.new ≡ S.contents shelf.old }
    ensures length { length vector.new ≡ length vector.old }
    ensures few { length fetched.new.items ≤ length fetched.old.items + 1 }
    ensures unlisted { OnErr result (fetched.new.items ≡ fetched.old.items) }
    ensures room { vec_capacity fetched.new ≡ vec_capacity fetched.old }
    ensures cause { CountsShelfFaults (S.faults shelf.old) (S.faults shelf.new) result }
{
    if cell.low < cell.high {
        let dist = read_distance(shelf, query, cell, vector)?;
        fetched.push_reserved(cell.id);
        return Ok(dist);
    }
    Ok(cell.low)
}
