// A cursor gives the pairs of its snapshot one by one.
ghost use Rattle.std.specs.Prelude.{◌≡◌, ◌↔◌, ◌≤◌, List, [], None, true, length, map, Contains, IfOk, IfErr, OnErr};
ghost use Rattle.va_cursor.specs.Cursors.{Ascends, KeepsVectors, Stands};
ghost use Rattle.va_cursor.specs.Fetches.{Failed, Gave, Stopped, Took, given_then};
ghost use Rattle.va_keep.specs.declared.entry.Entry.{Entry};
ghost use Rattle.va_ports.specs.Faults.{CountsShelfFaults, IfMemory, IfMismatch};
ghost use Rattle.va_ports.specs.Searches.{GoesOn};
ghost use Rattle.va_ports.specs.Shelves.{Contents, place_of};

use crate::filling::fill;
use crate::reading::read_until_known;
use std::alloc::Global;
use std::marker::Model;
use va_bound::Bounds;
use va_core::{Pair, Shape};
use va_dist::Query;
use va_keep::Queue;
use va_ports::{SearchFault, Shelf};

/// How far a caller has come in the ranking of a snapshot. A cursor keeps the places and the ids that were live when it
/// was opened, the bounds of their distances and the query, so later marks and later vectors in other places change
/// nothing.
///
/// An entry that was read goes back into the queue with its distance as both bounds. So once the bounds of the first
/// entry are the same, that is the next pair: no other entry can have a lesser one.
#[derive(Drop)]
pub struct Cursor {
    shape: Shape,
    query: Query,
    places: Vec<u32>,
    queue: Queue,
    given: u32,
    read_last: u32,
}

impl Model for Cursor {
    ghost use Rattle.va_cursor.specs.Cursors as cursors;

    ghost Value = { cursors.Cursor };

    ghost view = { λ cursor. record {
      shape = cursor.shape;
      query = cursor.query;
      places = cursor.places.items;
      held = cursors.in_order cursor.queue.entries;
      given = cursor.given;
      read_last = cursor.read_last;
    } };

    ghost invariant = { λ cursor.
        cursors.IsCursor cursor.shape cursor.query cursor.places.items cursor.queue cursor.given };
}

impl Cursor {
    /// A cursor over the cells of the shelf as they are now. All memory is taken here, and nothing is fetched.
    pub fn open<S: Shelf>(alloc: Global, shelf: &mut S, query: Query) -> Result<Cursor, SearchFault>
        requires { length query.weights ≡ (S.contents shelf.old).shape.dims }
        ensures stands { IfOk result (λ cursor. S.told → Stands (S.contents shelf.old) [] cursor) }
        ensures places { IfOk result (λ cursor.
            cursor.places ≡ map place_of (S.contents shelf.old).cells) }
        ensures shape { IfOk result (λ cursor. cursor.shape ≡ (S.contents shelf.old).shape) }
        ensures query { IfOk result (λ cursor. cursor.query ≡ query) }
        ensures given { IfOk result (λ cursor. cursor.given ≡ 0) }
        ensures read_last { IfOk result (λ cursor. cursor.read_last ≡ 0) }
        ensures fetches_nothing { S.passes shelf.old [] shelf.new }
        ensures contents { S.contents shelf.new ≡ S.contents shelf.old }
        ensures no_mismatch { IfErr result (λ why. IfMismatch why (λ _ _ _ _. ⊥)) }
        ensures cause { CountsShelfFaults (S.faults shelf.old) (S.faults shelf.new) result }
    {
        let bounds = Bounds::of(alloc, shelf.marks(), &query)?;
        let live = shelf.live();
        let mut queue = Queue::new(alloc, live)?;
        let Ok(mut places) = Vec::with_capacity(alloc, live as usize) else {
            return Err(SearchFault::Memory);
        };
        fill(shelf, &query, &bounds, &mut queue, &mut places)?;
        Ok(Cursor {
            shape: shelf.shape(),
            query,
            places,
            queue,
            given: 0,
            read_last: 0,
        })
    }

    /// The next pair of the snapshot, or `None` where all were given. It fetches what this pair needs beside what was
    /// fetched before.
    ///
    /// After a fault the cursor stands before the fetch that failed, or before that of the place that `Mismatch` names,
    /// and a further call goes on there. `Shelf` comes where a call of the shelf failed, and `Mismatch` at a vector
    /// whose distance lies outside the bounds that its cell had.
    pub fn next<S: Shelf>(&mut self, shelf: &mut S) -> Result<Option<Pair>, SearchFault>
        requires { (S.contents shelf.old).shape ≡ self.old.shape }
        // Where the shelf tells, and what isn't given yet has the vectors that it had.
        ensures gave { IfOk result (λ next. S.told → (snapshot : Contents) (since : List Entry) →
            Stands snapshot since self.old → KeepsVectors snapshot (S.contents shelf.old) self.old →
            Gave S.Shelf snapshot since self.old self.new shelf.old shelf.new next) }
        ensures failed { IfErr result (λ why. S.told → (snapshot : Contents) (since : List Entry) →
            Stands snapshot since self.old → KeepsVectors snapshot (S.contents shelf.old) self.old →
            Failed S.Shelf snapshot since self.old self.new shelf.old shelf.new why) }
        // Whatever the vectors are.
        ensures took { IfOk result (Took S.Shelf self.old self.new shelf.old shelf.new) }
        ensures stopped { IfErr result (Stopped S.Shelf self.old self.new shelf.old shelf.new) }
        ensures end { IfOk result (λ next. (next ≡ None) ↔ (self.old.given ≡ length self.old.places)) }
        ensures given { IfOk result (λ next. self.new.given ≡ given_then next self.old.given) }
        ensures given_err { OnErr result (self.new.given ≡ self.old.given) }
        ensures never_memory { IfErr result (λ why. IfMemory why ⊥) }
        ensures shape { self.new.shape ≡ self.old.shape }
        ensures query { self.new.query ≡ self.old.query }
        ensures places { self.new.places ≡ self.old.places }
        ensures left { S.left shelf.new ≡ S.left shelf.old }
        ensures contents { S.contents shelf.new ≡ S.contents shelf.old }
        ensures goes_on { GoesOn S.Shelf shelf.old shelf.new }
        ensures cause { CountsShelfFaults (S.faults shelf.old) (S.faults shelf.new) result }
    {
        let dims = usize::from(self.query.dims());
        let mut vector = [0; 256];
        self.read_last = 0;
        read_until_known(
            shelf,
            &self.query,
            &mut self.queue,
            &mut self.read_last,
            &mut vector[..dims],
        )?;
        let Some(entry) = self.queue.pop() else {
            return Ok(None);
        };
        self.given += 1;
        Ok(Some(entry.low_pair()))
    }

    /// Whether a place belongs to the snapshot.
    pub fn holds(&self, place: u32) -> bool
        ensures { (result ≡ true) ↔ Contains self.now.places place }
    {
        self.places.binary_search(&place).is_ok()
    }

    /// The places of the snapshot, in ascending order.
    pub fn places(&self) -> &[u32]
        ensures places { result.now ≡ self.now.places }
        ensures ascends { Ascends result.now }
    {
        &self.places
    }

    /// How many pairs were given.
    pub fn given(&self) -> u32
        ensures given { result ≡ self.now.given }
        ensures most { result ≤ length self.now.places }
    {
        self.given
    }

    /// How many fetches the last call of `next` made, or 0 before the first one.
    pub fn read_last(&self) -> u32
        ensures { result ≡ self.now.read_last }
    {
        self.read_last
    }
}
