// The reads before a pair.
ghost use Rattle.std.specs.Prelude.{◌≡◌, ◌+◌, ◌<◌, ◌≤◌, ◌^◌, ◌∷◌, List, length, true, false, Ok, IfErr, OnOk};
ghost use Rattle.va_core.specs.Approximations.{NamesDiffer};
ghost use Rattle.va_core.specs.Sorting.{placed_by};
ghost use Rattle.va_cursor.specs.Cursors.{IsWaiting, in_order};
ghost use Rattle.va_cursor.specs.Fetches.{Halts, IsKnown, Visits, wide_count};
ghost use Rattle.va_cursor.specs.Rankings.{id_at, settled};
ghost use Rattle.va_keep.specs.Queued.{low_pair};
ghost use Rattle.va_keep.specs.declared.entry.Entry.{Entry};
ghost use Rattle.va_ports.specs.Faults.{CountsShelfFaults};

use va_dist::Query;
use va_keep::{Entry, Queue};
use va_ports::{SearchFault, Shelf};

// Puts the first entry back with its distance.
fn settle_first(queue: &mut Queue, dist: u64)
    requires differ { NamesDiffer id_at (in_order queue.old.entries) }
    requires room { length queue.old.entries ≤ queue.old.room }
    ensures settled { (entry : Entry) (rest : List Entry) → in_order queue.old.entries ≡ entry ∷ rest →
        in_order queue.new.entries ≡ placed_by low_pair (settled dist entry) rest }
    ensures count { length queue.new.entries ≡ length queue.old.entries }
    ensures room { queue.new.room ≡ queue.old.room }
{
    if let Some(entry) = queue.pop() {
        queue.push(Entry {
            low: dist,
            id: entry.id,
            high: dist,
            place: entry.place,
        });
    }
}

// Reads the first entry if it is wide, and answers whether it was. Where that fails the queue is as before.
fn read_first<S: Shelf>(
    shelf: &mut S,
    query: &Query,
    queue: &mut Queue,
    count: &mut u32,
    vector: &mut [u8],
) -> Result<bool, SearchFault>
    requires weights { length query.now.weights ≡ (S.contents shelf.old).shape.dims }
    requires vector { length vector.old ≡ (S.contents shelf.old).shape.dims }
    requires waiting { IsWaiting (S.contents shelf.old).shape.capacity queue.old }
    requires small { count.old + wide_count (in_order queue.old.entries) < 2 ^ 32 }
    ensures visits { OnOk result (Visits S.Shelf query.now (in_order queue.old.entries)
        (in_order queue.new.entries) shelf.old shelf.new count.old count.new) }
    ensures halts { IfErr result (Halts S.Shelf query.now (in_order queue.old.entries)
        (in_order queue.new.entries) shelf.old shelf.new count.old count.new) }
    ensures known { result ≡ Ok false → IsKnown (in_order queue.new.entries) }
    ensures fewer { result ≡ Ok true →
        wide_count (in_order queue.new.entries) + 1 ≡ wide_count (in_order queue.old.entries) }
    ensures waiting { IsWaiting (S.contents shelf.old).shape.capacity queue.new }
    ensures small { OnOk result (count.new + wide_count (in_order queue.new.entries) < 2 ^ 32) }
    ensures as_many { length (in_order queue.new.entries) ≡ length (in_order queue.old.entries) }
    ensures length { length vector.new ≡ length vector.old }
    ensures left { S.left shelf.new ≡ S.left shelf.old }
    ensures contents { S.contents shelf.new ≡ S.contents shelf.old }
    ensures cause { CountsShelfFaults (S.faults shelf.old) (S.faults shelf.new) result }
{
    let Some(entry) = queue.first() else {
        return Ok(false);
    };
    if entry.high <= entry.low {
        return Ok(false);
    }
    match shelf.fetch(entry.place, vector) {
        Ok(()) => {}
        Err(fault) => return Err(SearchFault::Shelf(fault)),
    }
    *count += 1;
    let dist = query.distance(vector);
    if dist < entry.low || entry.high < dist {
        return Err(SearchFault::Mismatch {
            place: entry.place,
            dist,
            low: entry.low,
            high: entry.high,
        });
    }
    settle_first(queue, dist);
    Ok(true)
}

/// Reads the first entry until its distance is known.
pub fn read_until_known<S: Shelf>(
    shelf: &mut S,
    query: &Query,
    queue: &mut Queue,
    count: &mut u32,
    vector: &mut [u8],
) -> Result<(), SearchFault>
    requires weights { length query.now.weights ≡ (S.contents shelf.old).shape.dims }
    requires vector { length vector.old ≡ (S.contents shelf.old).shape.dims }
    requires waiting { IsWaiting (S.contents shelf.old).shape.capacity queue.old }
    requires small { count.old + wide_count (in_order queue.old.entries) < 2 ^ 32 }
    ensures visits { OnOk result (Visits S.Shelf query.now (in_order queue.old.entries)
        (in_order queue.new.entries) shelf.old shelf.new count.old count.new) }
    ensures halts { IfErr result (Halts S.Shelf query.now (in_order queue.old.entries)
        (in_order queue.new.entries) shelf.old shelf.new count.old count.new) }
    ensures known { OnOk result (IsKnown (in_order queue.new.entries)) }
    ensures waiting { IsWaiting (S.contents shelf.old).shape.capacity queue.new }
    ensures as_many { length (in_order queue.new.entries) ≡ length (in_order queue.old.entries) }
    ensures left { S.left shelf.new ≡ S.left shelf.old }
    ensures contents { S.contents shelf.new ≡ S.contents shelf.old }
    ensures cause { CountsShelfFaults (S.faults shelf.old) (S.faults shelf.new) result }
{
    while read_first(shelf, query, queue, count, vector)? {}
    Ok(())
}
