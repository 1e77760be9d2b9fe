// The commands that search: the nearest with the least reads or by a scan, and what lies within a radius.
ghost use Rattle.std.specs.Prelude.{◌≡◌, List, Option, OnOk};
ghost use Rattle.va_cursor.specs.Cursors.{Cursor};
ghost use Rattle.va_disk.specs.Frames.{DiskFailsAs, OnlyReads};
ghost use Rattle.va_lang.specs.Command as asked;
ghost use Rattle.va_lang.specs.SaidCommand.{query_in};
ghost use Rattle.va_serve.specs.Answers.{fault_answer};
ghost use Rattle.va_model.specs.Rows.{first_reason};
ghost use Rattle.va_model.specs.Searching.{number_reason};
ghost use Rattle.va_model.specs.Step.{query_asked};
ghost use Rattle.va_serve.specs.Bounds.{KeepsBounds, UnlessBroken};
ghost use Rattle.va_serve.specs.Owing.{Owes};
ghost use Rattle.va_serve.specs.Promises.{Obeys, asked_by};
ghost use Rattle.va_serve.specs.Session.{FitsSession, Lent, lent_by, over_store, sitting_of, with_store};

use crate::answer::{Answer, CommandFault};
use crate::query::{count_of, query_unless};
use crate::workspace::Workspace;
use std::alloc::Global;
use va_disk::Disk;
use va_lang::{Room, Why};
use va_search::{StoreSearchFault, find_nearest, find_within, scan_nearest};
use va_store::Store;

/// The most pairs that a search gives.
const MOST_PAIRS: u16 = 4096;

impl Workspace {
    /// Finds the nearest, with the least reads.
    pub fn knn<D: Disk>(
        &mut self,
        alloc: Global,
        disk: &mut D,
        k: u16,
        room: &Room,
    ) -> Result<Answer, CommandFault>
        requires fits { FitsSession D.Storage (sitting_of self.old) disk.old }
        ensures owes { Owes D.Storage (asked_by (asked.knn k (query_in room.now))) (lent_by self.new)
            (sitting_of self.old) (sitting_of self.new) disk.old disk.new result }
        ensures fits { OnOk result (FitsSession D.Storage (sitting_of self.new) disk.new) }
        ensures frame { OnlyReads D.Storage disk.old disk.new }
        ensures cause { DiskFailsAs D.Storage CommandFault.Disk disk.old disk.new result }
    {
        knn(alloc, &mut self.store, disk, k, room)
    }

    /// Finds the nearest by a scan.
    pub fn ssa<D: Disk>(
        &mut self,
        alloc: Global,
        disk: &mut D,
        k: u16,
        room: &Room,
    ) -> Result<Answer, CommandFault>
        requires fits { FitsSession D.Storage (sitting_of self.old) disk.old }
        ensures owes { Owes D.Storage (asked_by (asked.ssa k (query_in room.now))) (lent_by self.new)
            (sitting_of self.old) (sitting_of self.new) disk.old disk.new result }
        ensures fits { OnOk result (FitsSession D.Storage (sitting_of self.new) disk.new) }
        ensures frame { OnlyReads D.Storage disk.old disk.new }
        ensures cause { DiskFailsAs D.Storage CommandFault.Disk disk.old disk.new result }
    {
        ssa(alloc, &mut self.store, disk, k, room)
    }

    /// Finds what lies within a radius, with the least reads.
    pub fn range<D: Disk>(
        &mut self,
        alloc: Global,
        disk: &mut D,
        radius: u64,
        room: &Room,
    ) -> Result<Answer, CommandFault>
        requires fits { FitsSession D.Storage (sitting_of self.old) disk.old }
        ensures owes { Owes D.Storage (asked_by (asked.range radius (query_in room.now))) (lent_by self.new)
            (sitting_of self.old) (sitting_of self.new) disk.old disk.new result }
        ensures fits { OnOk result (FitsSession D.Storage (sitting_of self.new) disk.new) }
        ensures frame { OnlyReads D.Storage disk.old disk.new }
        ensures cause { DiskFailsAs D.Storage CommandFault.Disk disk.old disk.new result }
    {
        range(alloc, &mut self.store, disk, radius, room)
    }
}

// The nearest, with the least reads.
fn knn<D: Disk>(
    alloc: Global,
    store: &mut Store,
    disk: &mut D,
    k: u16,
    room: &Room,
) -> Result<Answer, CommandFault>
    requires fits { FitsSession D.Storage (over_store store.old) disk.old }
    ensures obeys { (lent : Lent) (cursors : List (Option Cursor)) →
        Obeys D.Storage (asked_by (asked.knn k (query_in room.now))) lent (with_store cursors store.old)
        (with_store cursors store.new) disk.old disk.new result }
    ensures bounds { UnlessBroken result (KeepsBounds D.Storage (query_asked (asked.knn k (query_in room.now)))
        (over_store store.old) disk.old disk.new) }
    ensures fits { OnOk result (FitsSession D.Storage (over_store store.new) disk.new) }
    ensures shape { store.new.shape ≡ store.old.shape }
    ensures frame { OnlyReads D.Storage disk.old disk.new }
    ensures cause { DiskFailsAs D.Storage CommandFault.Disk disk.old disk.new result }
{
    let query = match query_unless(alloc, store, number_refusal(k), room) {
        Ok(query) => query,
        Err(why) => return Ok(Answer::Refused(why)),
    };
    match find_nearest(alloc, store, disk, &query, k) {
        Ok(found) => {
            let fetched = count_of(&found.fetched);
            Ok(Answer::Near(found.pairs, fetched, found.candidates, store.live()))
        }
        Err(fault) => unanswered(fault),
    }
}

// The nearest, by a scan. As many were fetched as came into question.
fn ssa<D: Disk>(
    alloc: Global,
    store: &mut Store,
    disk: &mut D,
    k: u16,
    room: &Room,
) -> Result<Answer, CommandFault>
    requires fits { FitsSession D.Storage (over_store store.old) disk.old }
    ensures obeys { (lent : Lent) (cursors : List (Option Cursor)) →
        Obeys D.Storage (asked_by (asked.ssa k (query_in room.now))) lent (with_store cursors store.old)
        (with_store cursors store.new) disk.old disk.new result }
    ensures bounds { UnlessBroken result (KeepsBounds D.Storage (query_asked (asked.ssa k (query_in room.now)))
        (over_store store.old) disk.old disk.new) }
    ensures fits { OnOk result (FitsSession D.Storage (over_store store.new) disk.new) }
    ensures shape { store.new.shape ≡ store.old.shape }
    ensures frame { OnlyReads D.Storage disk.old disk.new }
    ensures cause { DiskFailsAs D.Storage CommandFault.Disk disk.old disk.new result }
{
    let query = match query_unless(alloc, store, number_refusal(k), room) {
        Ok(query) => query,
        Err(why) => return Ok(Answer::Refused(why)),
    };
    match scan_nearest(alloc, store, disk, &query, k) {
        Ok(found) => Ok(Answer::Scanned(found.pairs, found.candidates, store.live())),
        Err(fault) => unanswered(fault),
    }
}

// What lies within a radius. As many were fetched as came into question.
fn range<D: Disk>(
    alloc: Global,
    store: &mut Store,
    disk: &mut D,
    radius: u64,
    room: &Room,
) -> Result<Answer, CommandFault>
    requires fits { FitsSession D.Storage (over_store store.old) disk.old }
    ensures obeys { (lent : Lent) (cursors : List (Option Cursor)) →
        Obeys D.Storage (asked_by (asked.range radius (query_in room.now))) lent (with_store cursors store.old)
        (with_store cursors store.new) disk.old disk.new result }
    ensures bounds { UnlessBroken result (KeepsBounds D.Storage (query_asked (asked.range radius (query_in room.now)))
        (over_store store.old) disk.old disk.new) }
    ensures fits { OnOk result (FitsSession D.Storage (over_store store.new) disk.new) }
    ensures shape { store.new.shape ≡ store.old.shape }
    ensures frame { OnlyReads D.Storage disk.old disk.new }
    ensures cause { DiskFailsAs D.Storage CommandFault.Disk disk.old disk.new result }
{
    let query = match query_unless(alloc, store, None, room) {
        Ok(query) => query,
        Err(why) => return Ok(Answer::Refused(why)),
    };
    match find_within(alloc, store, disk, &query, radius) {
        Ok(found) => Ok(Answer::Within(found.pairs, found.candidates, store.live())),
        Err(fault) => unanswered(fault),
    }
}

/// Why a search for so many pairs is refused.
pub fn number_refusal(k: u16) -> Option<Why>
    ensures { result ≡ first_reason (number_reason k) }
{
    if k < 1 || k > MOST_PAIRS {
        return Some(Why::K);
    }
    None
}

// What comes of a search that failed: want of memory is refused, and each other fault ends the run.
pub fn unanswered(fault: StoreSearchFault) -> Result<Answer, CommandFault>
    ensures { result ≡ fault_answer fault }
{
    match fault {
        StoreSearchFault::Memory => Ok(Answer::Refused(Why::Memory)),
        StoreSearchFault::Disk => Err(CommandFault::Disk),
        StoreSearchFault::Mismatch {
            place,
            dist,
            low,
            high,
        } => Err(CommandFault::Mismatch {
            place,
            dist,
            low,
            high,
        }),
        StoreSearchFault::Changed { place } => Err(CommandFault::Changed { place }),
    }
}
