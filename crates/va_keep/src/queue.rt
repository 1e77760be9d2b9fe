// A heap with the least entry on top.
ghost use Rattle.std.specs.Prelude.{◌≡◌, ◌+◌, ◌<◌, ◌≤◌, ◌↔◌, [], ◌∷◌, length, None, IfOk, IfSome, Contains};
ghost use Rattle.std.specs.List.{filter};
ghost use Rattle.std.specs.List.Sorted.{IsPermutation};
ghost use Rattle.va_core.specs.Sorting.{IsFloor};
ghost use Rattle.va_keep.specs.Queued.{is_near_to, low_pair};

use crate::{Entry, Keep};
use std::alloc::Global;
use std::cmp::Reverse;
use std::collections::BinaryHeap;
use std::marker::Model;
use va_core::Memory;

/// Entries, of which the least by (low, id) comes first. Contracts see the entries in some order, and for how many there
/// is room.
#[derive(Drop)]
pub struct Queue {
    room: u32,
    heap: BinaryHeap<Reverse<Entry>>,
}

impl Model for Queue {
    ghost use Rattle.std.specs.BinaryHeap.{heap_items, heap_capacity};
    ghost use Rattle.va_keep.specs.Queued.{Queued, IsQueued, entries_of};

    ghost Value = { Queued };

    ghost view = { λ queue. record { room = queue.room; entries = entries_of (heap_items queue.heap) } };

    ghost invariant = { λ queue. IsQueued queue.room (heap_items queue.heap) (heap_capacity queue.heap) };
}

impl Queue {
    /// Takes the room for so many entries, and holds none.
    pub fn new(alloc: Global, room: u32) -> Result<Queue, Memory>
        ensures { IfOk result (λ queue. queue ≡ record { room = room; entries = [] }) }
    {
        match BinaryHeap::with_capacity(alloc, room as usize) {
            Ok(heap) => Ok(Queue { room, heap }),
            Err(_) => Err(Memory),
        }
    }

    /// Takes an entry in. Takes no memory.
    pub fn push(&mut self, entry: Entry)
        requires { length self.old.entries < self.old.room }
        ensures more { IsPermutation (entry ∷ self.old.entries) self.new.entries }
        ensures count { length self.new.entries ≡ length self.old.entries + 1 }
        ensures room { self.new.room ≡ self.old.room }
    {
        let _ = self.heap.push(Reverse(entry));
    }

    /// The least entry, or `None` where there is none.
    pub fn first(&self) -> Option<Entry>
        ensures held { IfSome result (λ entry. Contains self.now.entries entry) }
        ensures least { IfSome result (λ entry. IsFloor low_pair entry self.now.entries) }
        ensures none { (result ≡ None) ↔ (self.now.entries ≡ []) }
    {
        match self.heap.peek() {
            Some(top) => Some(top.0),
            None => None,
        }
    }

    /// Takes the least entry out, or answers `None` where there is none.
    pub fn pop(&mut self) -> Option<Entry>
        ensures rest { IfSome result (λ entry. IsPermutation self.old.entries (entry ∷ self.new.entries)) }
        ensures least { IfSome result (λ entry. IsFloor low_pair entry self.new.entries) }
        ensures none { (result ≡ None) ↔ (self.old.entries ≡ []) }
        ensures empty { result ≡ None → self.new.entries ≡ [] }
        ensures room { self.new.room ≡ self.old.room }
    {
        match self.heap.pop() {
            Some(Reverse(entry)) => Some(entry),
            None => None,
        }
    }

    /// How many entries there are.
    pub fn len(&self) -> u32
        ensures len { result ≡ length self.now.entries }
        ensures most { result ≤ self.now.room }
    {
        self.heap.len() as u32
    }

    /// How many entries have a least pair that would be one of the k least of a `Keep`.
    pub fn count_near(&self, keep: &Keep) -> u32
        ensures { result ≡ length (filter (is_near_to keep.now) self.now.entries) }
    {
        // The number fits, since there are no more than there is room for.
        let _ = self.room;
        let mut count = 0;
        for entry in self.heap.as_slice() {
            if keep.is_near(entry.0.low_pair()) {
                count += 1;
            }
        }
        count
    }
}

#[cfg(test)]
mod tests {
    use super::*;
    use va_core::Pair;

    fn entry(low: u64, id: u32) -> Entry {
        Entry {
            low,
            id,
            high: 9,
            place: id,
        }
    }

    #[test]
    fn of_equal_bounds_the_least_id_comes_first(rt: HostRuntime) -> Result<(), Memory> {
        let mut queue = Queue::new(rt.alloc(), 4)?;
        queue.push(entry(5, 2));
        queue.push(entry(3, 9));
        queue.push(entry(5, 1));
        queue.push(entry(7, 0));
        let mut keep = Keep::new(rt.alloc(), 1)?;
        keep.offer(Pair { dist: 5, id: 1 });
        assert_eq!(rt; queue.count_near(&keep), 2);
        for (left, low, id) in [(4, 3, 9), (3, 5, 1), (2, 5, 2), (1, 7, 0)] {
            assert_eq!(rt; queue.len(), left);
            assert_eq!(rt; queue.first(), Some(entry(low, id)));
            assert_eq!(rt; queue.pop(), Some(entry(low, id)));
        }
        assert_eq!(rt; queue.pop(), None);
        Ok(())
    }
}
