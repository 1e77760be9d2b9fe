// Which id lives in which place, by place and by id.
ghost use Rattle.std.specs.Prelude.{◌≡◌, ◌↔◌, ◌⊎◌, ◌+◌, ◌<◌, ◌≤◌, ◌^◌, ◌++◌, List, ℕ, Option, None, Some, length, get_or, nat_lt, replicate, slice_set, IfOk, IfErr, IsErrOf, OnOk};
ghost use Rattle.std.specs.Vec.{vec_capacity};
ghost use Rattle.va_core.specs.Above.{live_above};
ghost use Rattle.va_store.specs.Ids.{IsAbove, LivesNowhere, IsFirstFree, IsNextLive, LivesAt, live_count};
ghost use Rattle.va_store.specs.Image.{repeat_fault};
ghost use Rattle.va_store.specs.Index.{IsAscending, IsFilledTo, IsOrdered, IsSooner, IsSoonest, entry_at, listed};
ghost use Rattle.va_store.specs.Openings.{IsTooShort};
ghost use Rattle.va_store.specs.declared.index.LiveId.{LiveId};

use crate::OpenFault;
use std::alloc::Global;
use std::marker::Model;
use va_core::Memory;

/// An id and its place.
#[derive(Clone, Copy)]
pub(crate) struct LiveId {
    pub(crate) id: u32,
    pub(crate) place: u32,
}

/// Two places with one id.
#[derive(Clone, Copy)]
pub(crate) struct Repeat {
    pub(crate) earlier: u32,
    pub(crate) place: u32,
}

/// The ids by place, and beside them the entries in ascending id. Both have room for every place from the
/// start, so no later call grows them.
#[derive(Drop)]
pub(crate) struct Index {
    ids: Vec<Option<u32>>,
    entries: Vec<LiveId>,
    // No place below is empty, so a search for a free one may begin here.
    filled: usize,
}

impl Model for Index {
    ghost use Rattle.std.specs.Prelude.{◌≤◌, ◌<◌, ◌^◌, List, ℕ, Option, length};
    ghost use Rattle.std.specs.Vec.{vec_capacity};
    ghost use Rattle.va_store.specs.Index.{IsFilledTo, IsIndex};

    ghost Value = { List (Option ℕ) };

    ghost view = { λ index. index.ids.items };

    ghost invariant = { λ index. IsIndex index.ids.items index.entries.items × (length index.ids.items ≤ vec_capacity index.entries) × (length index.ids.items < 2 ^ 32) × IsFilledTo index.filled index.ids.items };
}

impl Index {
    /// All places are empty.
    pub(crate) fn new(alloc: Global, capacity: u32) -> Result<Index, Memory>
        ensures { IfOk result (λ index. index ≡ replicate capacity None) }
    {
        let Ok(ids) = vec![in alloc; None; capacity as usize] else {
            return Err(Memory);
        };
        let Ok(entries) = Vec::with_capacity(alloc, capacity as usize) else {
            return Err(Memory);
        };
        Ok(Index {
            ids,
            entries,
            filled: 0,
        })
    }

    /// The ids by place, or the least place whose id lives in an earlier one.
    pub(crate) fn of(alloc: Global, ids: Vec<Option<u32>>) -> Result<Index, OpenFault>
        requires { length ids.items < 2 ^ 32 }
        ensures ids { IfOk result (λ index. (repeat_fault ids.items ≡ None) × (index ≡ ids.items)) }
        ensures refused { IfErr result (λ why. (why ≡ OpenFault.Memory) ⊎ (repeat_fault ids.items ≡ Some why)) }
        ensures too_short { (size : ℕ) → IfErr result (IsTooShort size) }
        ensures calls { IsErrOf result OpenFault.Disk → ⊥ }
    {
        let entries = ordered(alloc, &ids)?;
        if let Some(repeat) = soonest(&entries) {
            return Err(OpenFault::SameId(repeat.earlier, repeat.place));
        }
        Ok(Index {
            ids,
            entries,
            filled: 0,
        })
    }

    // No id lives in two places.
    pub(crate) fn lists_once(&self)
        ensures { (id p q : ℕ) → LivesAt id p self.now → LivesAt id q self.now → p ≡ q }
    {
        let _entries = &self.entries;
    }

    /// How many ids are live.
    pub(crate) fn live(&self) -> u32
        ensures { result ≡ live_count self.now }
    {
        self.entries.len() as u32
    }

    /// The id that lives in a place.
    pub(crate) fn id_at(&self, place: u32) -> Option<u32>
        requires { place < length self.now }
        ensures { result ≡ get_or self.now place None }
    {
        self.ids[place as usize]
    }

    /// The place in which an id lives.
    pub(crate) fn place_of(&self, id: u32) -> Option<u32>
        ensures { (place : ℕ) → (result ≡ Some place) ↔ LivesAt id place self.now }
    {
        let at = position(&self.entries, u64::from(id));
        if at == self.entries.len() {
            return None;
        }
        let entry = self.entries[at];
        if entry.id == id {
            Some(entry.place)
        } else {
            None
        }
    }

    /// The least live id above `after`.
    pub(crate) fn next_live(&self, after: Option<u32>) -> Option<u32>
        ensures { IsNextLive after self.now result }
    {
        let least = least_above(after);
        let at = position(&self.entries, least);
        if at == self.entries.len() {
            None
        } else {
            Some(self.entries[at].id)
        }
    }

    /// How many ids above `after` are live.
    pub(crate) fn live_above(&self, after: Option<u32>) -> u32
        ensures { result ≡ length (live_above after self.now) }
    {
        let at = position(&self.entries, least_above(after));
        (self.entries.len() - at) as u32
    }

    /// The least place that is neither live nor held.
    pub(crate) fn first_free(&mut self, held: &[u8]) -> Option<u32>
        requires { length held.now ≡ length self.old }
        ensures first { IsFirstFree self.old held.now result }
        ensures index { self.new ≡ self.old }
    {
        self.filled = first_empty(&self.ids, self.filled);
        first_free_from(&self.ids, held, self.filled)
    }

    /// An id comes to live in an empty place.
    pub(crate) fn fill(&mut self, place: u32, id: u32)
        requires place { place < length self.old }
        requires empty { get_or self.old place None ≡ None }
        requires absent { LivesNowhere id self.old }
        ensures { self.new ≡ slice_set self.old place (Some id) }
    {
        let at = position(&self.entries, u64::from(id));
        let _ = self.entries.insert(at, LiveId { id, place });
        self.ids[place as usize] = Some(id);
    }

    /// A place in which an id lived is empty.
    pub(crate) fn clear(&mut self, place: u32, id: u32)
        requires { LivesAt id place self.old }
        ensures { self.new ≡ slice_set self.old place None }
    {
        let at = position(&self.entries, u64::from(id));
        self.entries.remove(at);
        self.ids[place as usize] = None;
        self.filled = self.filled.min(place as usize);
    }
}

// The live ids in ascending order, with room for one in every place.
fn ordered(alloc: Global, ids: &[Option<u32>]) -> Result<Vec<LiveId>, Memory>
    requires { length ids.now < 2 ^ 32 }
    ensures ordered { IfOk result (λ entries. IsOrdered ids.now entries.items) }
    ensures room { IfOk result (λ entries. length ids.now ≤ vec_capacity entries) }
{
    let mut entries = live_ids(alloc, ids)?;
    let Ok(()) = entries.sort_by_key(
        |entry: &LiveId| -> u32
            ensures { result ≡ entry.now.id }
        { entry.id },
    ) else {
        return Err(Memory);
    };
    Ok(entries)
}

// The live ids in the order of their places, with room for one in every place.
fn live_ids(alloc: Global, ids: &[Option<u32>]) -> Result<Vec<LiveId>, Memory>
    requires { length ids.now < 2 ^ 32 }
    ensures items { IfOk result (λ entries. entries.items ≡ listed 0 ids.now) }
    ensures room { IfOk result (λ entries. length ids.now ≤ vec_capacity entries) }
{
    let Ok(mut entries) = Vec::with_capacity(alloc, ids.len()) else {
        return Err(Memory);
    };
    for place in 0..ids.len() as u32 {
        add_live(&mut entries, place, ids[place as usize])?;
    }
    Ok(entries)
}

fn add_live(entries: &mut Vec<LiveId>, place: u32, id: Option<u32>) -> Result<(), Memory>
    ensures items { OnOk result (entries.new.items ≡ entries.old.items ++ entry_at place id) }
    ensures room { vec_capacity entries.old ≤ vec_capacity entries.new }
{
    let Some(id) = id else {
        return Ok(());
    };
    entries.push(LiveId { id, place }).map_err(|_| Memory)
}

// Of the neighbours with one id those whose second place is least.
fn soonest(entries: &[LiveId]) -> Option<Repeat>
    ensures { IsSoonest (length entries.now) entries.now result }
{
    let mut found = None;
    for at in 1..entries.len() {
        found = sooner(found, entries[at - 1], entries[at]);
    }
    found
}

// The repeat that was found, or that of two neighbours where it has the same id and its place is less.
fn sooner(found: Option<Repeat>, earlier: LiveId, later: LiveId) -> Option<Repeat>
    ensures { IsSooner found earlier later result }
{
    if earlier.id != later.id {
        return found;
    }
    let here = Repeat {
        earlier: earlier.place,
        place: later.place,
    };
    match found {
        Some(repeat) if repeat.place <= here.place => found,
        _ => Some(here),
    }
}

// The first empty place from one on, or the number of places.
fn first_empty(ids: &[Option<u32>], from: usize) -> usize
    requires { IsFilledTo from ids.now }
    ensures filled { IsFilledTo result ids.now }
    ensures empty { result < length ids.now → get_or ids.now result None ≡ None }
{
    for place in from..ids.len() {
        if ids[place].is_none() {
            return place;
        }
    }
    ids.len()
}

// The least place that is neither live nor held, where none below `from` is empty.
fn first_free_from(ids: &[Option<u32>], held: &[u8], from: usize) -> Option<u32>
    requires small { length ids.now < 2 ^ 32 }
    requires held { length held.now ≡ length ids.now }
    requires filled { IsFilledTo from ids.now }
    ensures { IsFirstFree ids.now held.now result }
{
    for place in from..ids.len() {
        if ids[place].is_none() && held[place] == 0 {
            return Some(place as u32);
        }
    }
    None
}

// The least number above an id, or 0.
fn least_above(after: Option<u32>) -> u64
    ensures { (id : ℕ) → IsAbove after id ↔ (result ≤ id) }
{
    match after {
        None => 0,
        Some(id) => u64::from(id) + 1,
    }
}

// How many entries have an id below `least`, which is where its entry stands or would stand.
fn position(entries: &[LiveId], least: u64) -> usize
    requires { IsAscending entries.now }
    ensures bound { result ≤ length entries.now }
    ensures below { (i : ℕ) (other : LiveId) → i < result → (get_or entries.now i other).id < least }
    ensures above { (i : ℕ) (other : LiveId) → result ≤ i → i < length entries.now → least ≤ (get_or entries.now i other).id }
{
    entries.partition_point(
        |entry: &LiveId| -> bool
            ensures { result ≡ nat_lt entry.now.id least }
        { u64::from(entry.id) < least },
    )
}
