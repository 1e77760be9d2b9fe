// The k nearest, with the least reads.
ghost use Rattle.std.specs.Prelude.{◌≡◌, ◌≤◌, length, map, IfOk, IfErr};
ghost use Rattle.va_bounded.specs.CellReads.{IfOwn, IfTold};
ghost use Rattle.va_bounded.specs.Keeps.{clamped_pairs};
ghost use Rattle.va_core.specs.Ranking.{answer};
ghost use Rattle.va_ports.specs.Faults.{CountsShelfFaults};
ghost use Rattle.va_ports.specs.Searches.{GoesOn, pairs_of};
ghost use Rattle.va_ports.specs.Shelves.{id_of};
ghost use Rattle.va_noa.specs.NearestReads.{LeastNearest, StoppedNeeded, TookNeeded, cell_candidates, cells_needed};

use crate::filling::fill;
use crate::visiting::visit;
use std::alloc::Global;
use va_bound::Bounds;
use va_core::Ids;
use va_dist::Query;
use va_keep::{Keep, Queue};
use va_ports::{Found, SearchFault, Shelf};

/// The answer to k: the pairs of the cells that have fewer than k lesser ones, in ascending order. It fetches the least
/// set of vectors that determines them, where the marks and the cells are known: those of the wide cells for which
/// fewer than k pairs are less than the cell's lower bound with its id, ascending by these. The candidates are the
/// cells for which fewer than k upper bounds with their ids are less than the lower bound with its id.
///
/// `Memory` comes only before the first fetch, `Shelf` where a call of the shelf failed, and `Mismatch` at the first
/// vector that was fetched whose distance lies outside the bounds of its cell.
pub fn nearest<S: Shelf>(
    alloc: Global,
    shelf: &mut S,
    query: &Query,
    k: u16,
) -> Result<Found, SearchFault>
    requires some { 1 ≤ k }
    requires dims { length query.now.weights ≡ (S.contents shelf.old).shape.dims }
    // Where each vector lies in its cell.
    ensures pairs { IfOk result (λ found. IfOwn S.Shelf shelf.old (λ held.
        found.pairs ≡ answer (pairs_of held query.now) k)) }
    ensures fetched { IfOk result (λ found. IfOwn S.Shelf shelf.old (λ held.
        found.fetched ≡ map id_of (cells_needed held query.now k))) }
    ensures least { IfOk result (λ found. IfOwn S.Shelf shelf.old (λ held.
        LeastNearest held query.now k found.fetched)) }
    // Wherever they lie, by the distance or the bound that it lies beyond.
    ensures known { IfOk result (λ found. IfTold S.Shelf shelf.old (λ held.
        found.pairs ≡ answer (clamped_pairs held query.now held.cells) k)) }
    ensures took { IfOk result (λ found. TookNeeded S.Shelf query.now k shelf.old shelf.new found.fetched) }
    ensures stopped { IfErr result (StoppedNeeded S.Shelf query.now k shelf.old shelf.new) }
    ensures candidates { IfOk result (λ found. IfTold S.Shelf shelf.old (λ held.
        found.candidates ≡ length (cell_candidates held query.now k))) }
    ensures few { IfOk result (λ found. S.told → length found.fetched ≤ found.candidates) }
    ensures contents { S.contents shelf.new ≡ S.contents shelf.old }
    ensures goes_on { GoesOn S.Shelf shelf.old shelf.new }
    ensures cause { CountsShelfFaults (S.faults shelf.old) (S.faults shelf.new) result }
{
    let bounds = Bounds::of(alloc, shelf.marks(), query)?;
    let mut highs = Keep::new(alloc, k)?;
    let mut keep = Keep::new(alloc, k)?;
    let mut queue = Queue::new(alloc, shelf.live())?;
    fill(shelf, query, &bounds, &mut highs, &mut queue)?;
    let candidates = queue.count_near(&highs);
    let Ok(mut fetched) = Vec::with_capacity(alloc, queue.len() as usize) else {
        return Err(SearchFault::Memory);
    };
    visit(shelf, query, &mut queue, &mut keep, &mut fetched)?;
    Ok(Found {
        pairs: keep.into_sorted(),
        fetched: Ids(fetched),
        candidates,
    })
}
