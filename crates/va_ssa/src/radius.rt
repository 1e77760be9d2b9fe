// The pairs within a radius, in one scan.
ghost use Rattle.std.specs.Prelude.{◌≡◌, ◌+◌, ◌<◌, ◌≤◌, ◌∷◌, ◌++◌, [], length, map, vec_capacity, IfOk, IfErr, OnOk};
ghost use Rattle.va_bound.specs.Tables.{AreBounds};
ghost use Rattle.va_ports.specs.Faults.{CountsShelfFaults, IfMemory};
ghost use Rattle.va_ports.specs.Searches.{GoesOn, pairs_of};
ghost use Rattle.va_core.specs.Ranking.{within};
ghost use Rattle.va_ports.specs.Shelves.{id_of};
ghost use Rattle.va_bounded.specs.BoundedCells.{HasBounds, cell_of};
ghost use Rattle.va_bounded.specs.CellReads.{IfOwn, IfTold};
ghost use Rattle.va_bounded.specs.Keeps.{clamped_pairs};
ghost use Rattle.va_ssa.specs.Within.{LeastWithin, cells_within, found_within};
ghost use Rattle.va_ssa.specs.Within.{StoppedNear, StoppedWithin, TookNear, TookWithin};

use std::alloc::Global;
use va_bound::Bounds;
use va_bounded::{BoundedCell, known_distance, next_bounded};
use va_core::{Ids, Memory, Pair, Pairs};
use va_dist::Query;
use va_ports::{Found, SearchFault, Shelf};

// Takes one cell. A vector is read where the cell's bounds don't say whether its pair is within the radius, nor at what
// distance.
fn visit<S: Shelf>(
    shelf: &mut S,
    query: &Query,
    radius: u64,
    cell: BoundedCell,
    vector: &mut [u8],
    pairs: &mut Vec<Pair>,
    fetched: &mut Vec<u32>,
) -> Result<(), SearchFault>
    requires place { cell.place < (S.contents shelf.old).shape.capacity }
    requires dims { length vector.old ≡ (S.contents shelf.old).shape.dims }
    requires weights { length query.now.weights ≡ (S.contents shelf.old).shape.dims }
    requires bounds { S.told → HasBounds (S.contents shelf.old) query.now cell }
    requires order { cell.low ≤ cell.high }
    requires pairs_room { length pairs.old.items < vec_capacity pairs.old }
    requires room { length fetched.old.items < vec_capacity fetched.old }
    ensures pairs { OnOk result (S.told →
        pairs.new.items ≡ pairs.old.items ++ found_within (S.contents shelf.old) query.now radius (cell_of cell ∷ [])) }
    ensures took { OnOk result (TookNear S.Shelf query.now radius cell shelf.old shelf.new
        fetched.old.items fetched.new.items) }
    ensures stopped { IfErr result (StoppedNear S.Shelf query.now radius cell shelf.old shelf.new) }
    ensures never_memory { IfErr result (λ why. IfMemory why ⊥) }
    ensures left { S.left shelf.new ≡ S.left shelf.old }
    ensures contents { S.contents shelf.new ≡ S.contents shelf.old }
    ensures length { length vector.new ≡ length vector.old }
    ensures pairs_few { length pairs.new.items ≤ length pairs.old.items + 1 }
    ensures pairs_room { vec_capacity pairs.new ≡ vec_capacity pairs.old }
    ensures few { length fetched.new.items ≤ length fetched.old.items + 1 }
    ensures room { vec_capacity fetched.new ≡ vec_capacity fetched.old }
    ensures cause { CountsShelfFaults (S.faults shelf.old) (S.faults shelf.new) result }
{
    if radius < cell.low {
        return Ok(());
    }
    let dist = known_distance(shelf, query, cell, vector, fetched)?;
    if dist <= radius {
        pairs.push_reserved(Pair { dist, id: cell.id });
    }
    Ok(())
}

// Takes all cells.
fn scan<S: Shelf>(
    shelf: &mut S,
    query: &Query,
    bounds: &Bounds,
    radius: u64,
    pairs: &mut Vec<Pair>,
    fetched: &mut Vec<u32>,
) -> Result<(), SearchFault>
    requires weights { length query.now.weights ≡ (S.contents shelf.old).shape.dims }
    requires bounds { AreBounds (S.contents shelf.old).marks query.now bounds.now }
    requires no_pairs { pairs.old.items ≡ [] }
    requires none_fetched { fetched.old.items ≡ [] }
    requires pairs_room { length (S.contents shelf.old).cells ≤ vec_capacity pairs.old }
    requires room { length (S.contents shelf.old).cells ≤ vec_capacity fetched.old }
    ensures pairs { OnOk result (IfTold S.Shelf shelf.old (λ held.
        pairs.new.items ≡ found_within held query.now radius held.cells)) }
    ensures took { OnOk result (TookWithin S.Shelf query.now radius shelf.old shelf.new fetched.new.items) }
    ensures stopped { IfErr result (StoppedWithin S.Shelf query.now radius shelf.old shelf.new) }
    ensures never_memory { IfErr result (λ why. IfMemory why ⊥) }
    ensures contents { S.contents shelf.new ≡ S.contents shelf.old }
    ensures few { OnOk result (length fetched.new.items ≤ length (S.contents shelf.old).cells) }
    ensures cause { CountsShelfFaults (S.faults shelf.old) (S.faults shelf.new) result }
{
    let dims = usize::from(query.dims());
    let mut code = [0; 256];
    let mut vector = [0; 256];
    shelf.rewind();
    while let Some(cell) = next_bounded(shelf, bounds, &mut code[..dims])? {
        visit(
            shelf,
            query,
            radius,
            cell,
            &mut vector[..dims],
            pairs,
            fetched,
        )?;
    }
    Ok(())
}

/// The pairs of the cells whose distance is at most the radius, in ascending order. It fetches the vectors of the wide
/// cells whose lower bound is at most the radius, in ascending place, and no others. As many are the candidates.
///
/// `Memory` comes only before the first fetch, `Shelf` where a call of the shelf failed, and `Mismatch` at the first
/// vector that was fetched whose distance lies outside the bounds of its cell.
pub fn within<S: Shelf>(
    alloc: Global,
    shelf: &mut S,
    query: &Query,
    radius: u64,
) -> Result<Found, SearchFault>
    requires { length query.now.weights ≡ (S.contents shelf.old).shape.dims }
    // Where each vector lies in its cell.
    ensures pairs { IfOk result (λ found. IfOwn S.Shelf shelf.old (λ held.
        found.pairs ≡ within (pairs_of held query.now) radius)) }
    ensures least { IfOk result (λ found. IfOwn S.Shelf shelf.old (λ held.
        LeastWithin held query.now radius found.fetched)) }
    // Wherever they lie.
    ensures known { IfOk result (λ found. IfTold S.Shelf shelf.old (λ held.
        found.pairs ≡ within (clamped_pairs held query.now held.cells) radius)) }
    ensures fetched { IfOk result (λ found. IfTold S.Shelf shelf.old (λ held.
        found.fetched ≡ map id_of (cells_within held query.now radius))) }
    ensures took { IfOk result (λ found. TookWithin S.Shelf query.now radius shelf.old shelf.new found.fetched) }
    ensures stopped { IfErr result (StoppedWithin S.Shelf query.now radius shelf.old shelf.new) }
    ensures candidates { IfOk result (λ found. found.candidates ≡ length found.fetched) }
    ensures contents { S.contents shelf.new ≡ S.contents shelf.old }
    ensures goes_on { GoesOn S.Shelf shelf.old shelf.new }
    ensures cause { CountsShelfFaults (S.faults shelf.old) (S.faults shelf.new) result }
{
    let live = shelf.live() as usize;
    let bounds = Bounds::of(alloc, shelf.marks(), query)?;
    let Ok(mut pairs) = Vec::with_capacity(alloc, live) else {
        return Err(SearchFault::Memory);
    };
    let Ok(mut fetched) = Vec::with_capacity(alloc, live) else {
        return Err(SearchFault::Memory);
    };
    scan(shelf, query, &bounds, radius, &mut pairs, &mut fetched)?;
    pairs.sort_unstable();
    let candidates = fetched.len() as u32;
    Ok(Found {
        pairs: Pairs(pairs),
        fetched: Ids(fetched),
        candidates,
    })
}
