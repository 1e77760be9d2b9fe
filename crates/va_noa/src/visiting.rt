// The visit of the queue, which fetches.
ghost use Rattle.std.specs.Prelude.{◌≡◌, ◌≤◌, [], length, vec_capacity, IfErr, OnOk};
ghost use Rattle.va_bounded.specs.CellReads.{IfTold};
ghost use Rattle.va_bounded.specs.Keeps.{clamped_pairs};
ghost use Rattle.va_core.specs.Ranking.{answer};
ghost use Rattle.va_ports.specs.Faults.{CountsShelfFaults, IfMemory};
ghost use Rattle.va_noa.specs.Entries.{AreEntries};
ghost use Rattle.va_noa.specs.Filling.{AreOrdered, HoldsQueued};
ghost use Rattle.va_noa.specs.NearestReads.{StoppedNeeded, TookNeeded};

use va_bounded::{BoundedCell, known_distance};
use va_core::Pair;
use va_dist::Query;
use va_keep::{Keep, Queue};
use va_ports::{SearchFault, Shelf};

/// Visits the entries of the queue, the least first, until k of the pairs that are known are less than the least pair
/// of the next: then no later one can matter.
pub fn visit<S: Shelf>(
    shelf: &mut S,
    query: &Query,
    queue: &mut Queue,
    keep: &mut Keep,
    fetched: &mut Vec<u32>,
) -> Result<(), SearchFault>
    requires weights { length query.now.weights ≡ (S.contents shelf.old).shape.dims }
    requires entries { AreEntries (S.contents shelf.old).shape.capacity queue.old.entries }
    requires held { S.told → HoldsQueued (S.contents shelf.old) query.now keep.old.most queue.old.entries }
    requires ordered { S.told → AreOrdered (S.contents shelf.old) query.now (S.contents shelf.old).cells }
    requires none_kept { keep.old.pairs ≡ [] }
    requires none_fetched { fetched.old.items ≡ [] }
    requires room { length queue.old.entries ≤ vec_capacity fetched.old }
    ensures kept { OnOk result (IfTold S.Shelf shelf.old (λ held.
        keep.new.pairs ≡ answer (clamped_pairs held query.now held.cells) keep.old.most)) }
    ensures took { OnOk result (TookNeeded S.Shelf query.now keep.old.most shelf.old shelf.new fetched.new.items) }
    ensures stopped { IfErr result (StoppedNeeded S.Shelf query.now keep.old.most shelf.old shelf.new) }
    ensures never_memory { IfErr result (λ why. IfMemory why ⊥) }
    ensures contents { S.contents shelf.new ≡ S.contents shelf.old }
    ensures cause { CountsShelfFaults (S.faults shelf.old) (S.faults shelf.new) result }
{
    let dims = usize::from(query.dims());
    let mut vector = [0; 256];
    while let Some(entry) = queue.pop() {
        if !keep.is_near(entry.low_pair()) {
            return Ok(());
        }
        let cell = BoundedCell {
            place: entry.place,
            id: entry.id,
            low: entry.low,
            high: entry.high,
        };
        let dist = known_distance(shelf, query, cell, &mut vector[..dims], fetched)?;
        keep.offer(Pair { dist, id: entry.id });
    }
    Ok(())
}
