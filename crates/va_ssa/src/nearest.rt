// The k nearest, in one scan.
ghost use Rattle.std.specs.Prelude.{◌≡◌, ◌+◌, ◌<◌, ◌≤◌, [], length, map, vec_capacity, IfOk, IfErr, OnOk};
ghost use Rattle.va_bound.specs.Tables.{AreBounds};
ghost use Rattle.va_core.specs.Ranking.{answer};
ghost use Rattle.va_ports.specs.Faults.{CountsShelfFaults, IfMemory};
ghost use Rattle.va_ports.specs.Searches.{GoesOn, pairs_of};
ghost use Rattle.va_ports.specs.Shelves.{id_of};
ghost use Rattle.va_bounded.specs.BoundedCells.{HasBounds};
ghost use Rattle.va_bounded.specs.CellReads.{IfOwn, IfTold};
ghost use Rattle.va_bounded.specs.Keeps.{KeepsLeastOfAll, clamped_pairs};
ghost use Rattle.va_ssa.specs.ScanReads.{KeepsNext, StoppedNext, StoppedScan, TookNext, TookScanned, cells_scanned};

use std::alloc::Global;
use va_bound::Bounds;
use va_bounded::{BoundedCell, known_distance, next_bounded};
use va_core::{Ids, Pair};
use va_dist::Query;
use va_keep::Keep;
use va_ports::{Found, SearchFault, Shelf};

// Takes one cell. Its vector is read where fewer than k of the pairs before are less than the least that it may have,
// and its bounds don't say what it has.
fn visit<S: Shelf>(
    shelf: &mut S,
    query: &Query,
    cell: BoundedCell,
    vector: &mut [u8],
    keep: &mut Keep,
    fetched: &mut Vec<u32>,
) -> Result<(), SearchFault>
    requires place { cell.place < (S.contents shelf.old).shape.capacity }
    requires dims { length vector.old ≡ (S.contents shelf.old).shape.dims }
    requires weights { length query.now.weights ≡ (S.contents shelf.old).shape.dims }
    requires bounds { S.told → HasBounds (S.contents shelf.old) query.now cell }
    requires order { cell.low ≤ cell.high }
    requires room { length fetched.old.items < vec_capacity fetched.old }
    // Whatever cells came before.
    ensures kept { OnOk result (KeepsNext S.Shelf query.now cell shelf.old keep.old keep.new) }
    ensures took { OnOk result (TookNext S.Shelf query.now cell keep.old shelf.old shelf.new
        fetched.old.items fetched.new.items) }
    ensures stopped { IfErr result (StoppedNext S.Shelf query.now cell keep.old shelf.old shelf.new) }
    ensures never_memory { IfErr result (λ why. IfMemory why ⊥) }
    ensures left { S.left shelf.new ≡ S.left shelf.old }
    ensures contents { S.contents shelf.new ≡ S.contents shelf.old }
    ensures length { length vector.new ≡ length vector.old }
    ensures few { length fetched.new.items ≤ length fetched.old.items + 1 }
    ensures room { vec_capacity fetched.new ≡ vec_capacity fetched.old }
    ensures cause { CountsShelfFaults (S.faults shelf.old) (S.faults shelf.new) result }
{
    let least = Pair {
        dist: cell.low,
        id: cell.id,
    };
    if !keep.is_near(least) {
        return Ok(());
    }
    let dist = known_distance(shelf, query, cell, vector, fetched)?;
    keep.offer(Pair { dist, id: cell.id });
    Ok(())
}

// Takes all cells.
fn scan<S: Shelf>(
    shelf: &mut S,
    query: &Query,
    bounds: &Bounds,
    keep: &mut Keep,
    fetched: &mut Vec<u32>,
) -> Result<(), SearchFault>
    requires weights { length query.now.weights ≡ (S.contents shelf.old).shape.dims }
    requires bounds { AreBounds (S.contents shelf.old).marks query.now bounds.now }
    requires none_kept { keep.old.pairs ≡ [] }
    requires none_fetched { fetched.old.items ≡ [] }
    requires room { length (S.contents shelf.old).cells ≤ vec_capacity fetched.old }
    ensures kept { OnOk result (KeepsLeastOfAll S.told (S.contents shelf.old) query.now keep.old.most keep.new) }
    ensures took { OnOk result (TookScanned S.Shelf query.now keep.old.most shelf.old shelf.new fetched.new.items) }
    ensures stopped { IfErr result (StoppedScan S.Shelf query.now keep.old.most shelf.old shelf.new) }
    ensures never_memory { IfErr result (λ why. IfMemory why ⊥) }
    ensures contents { S.contents shelf.new ≡ S.contents shelf.old }
    ensures few { OnOk result (length fetched.new.items ≤ length (S.contents shelf.old).cells) }
    ensures cause { CountsShelfFaults (S.faults shelf.old) (S.faults shelf.new) result }
{
    let dims = usize::from(query.dims());
    let mut code = [0; 256];
    let mut vector = [0; 256];
    shelf.rewind();
    while let Some(cell) = next_bounded(shelf, bounds, &mut code[..dims])? {
        visit(shelf, query, cell, &mut vector[..dims], keep, fetched)?;
    }
    Ok(())
}

/// The answer to k: the pairs of the cells that have fewer than k lesser ones, in ascending order. It goes over the
/// cells in ascending place, and fetches the vector of a wide cell where fewer than k cells before have a pair less
/// than the cell's lower bound with its id. As many as were fetched are the candidates.
///
/// `Memory` comes only before the first fetch, `Shelf` where a call of the shelf failed, and `Mismatch` at the first
/// vector that was fetched whose distance lies outside the bounds of its cell.
pub fn scan_nearest<S: Shelf>(
    alloc: Global,
    shelf: &mut S,
    query: &Query,
    k: u16,
) -> Result<Found, SearchFault>
    requires some { 1 ≤ k }
    requires dims { length query.now.weights ≡ (S.contents shelf.old).shape.dims }
    // Where each vector lies in its cell.
    ensures pairs { IfOk result (λ found. IfOwn S.Shelf shelf.old (λ held.
        found.pairs ≡ answer (pairs_of held query.now) k)) }
    ensures fetched { IfOk result (λ found. IfOwn S.Shelf shelf.old (λ held.
        found.fetched ≡ map id_of (cells_scanned held query.now k))) }
    // Wherever they lie, by the distance or the bound that it lies beyond.
    ensures known { IfOk result (λ found. IfTold S.Shelf shelf.old (λ held.
        found.pairs ≡ answer (clamped_pairs held query.now held.cells) k)) }
    ensures took { IfOk result (λ found. TookScanned S.Shelf query.now k shelf.old shelf.new found.fetched) }
    ensures stopped { IfErr result (StoppedScan S.Shelf query.now k shelf.old shelf.new) }
    ensures candidates { IfOk result (λ found. found.candidates ≡ length found.fetched) }
    ensures contents { S.contents shelf.new ≡ S.contents shelf.old }
    ensures goes_on { GoesOn S.Shelf shelf.old shelf.new }
    ensures cause { CountsShelfFaults (S.faults shelf.old) (S.faults shelf.new) result }
{
    let live = shelf.live() as usize;
    let bounds = Bounds::of(alloc, shelf.marks(), query)?;
    let mut keep = Keep::new(alloc, k)?;
    let Ok(mut fetched) = Vec::with_capacity(alloc, live) else {
        return Err(SearchFault::Memory);
    };
    scan(shelf, query, &bounds, &mut keep, &mut fetched)?;
    let candidates = fetched.len() as u32;
    Ok(Found {
        pairs: keep.into_sorted(),
        fetched: Ids(fetched),
        candidates,
    })
}
