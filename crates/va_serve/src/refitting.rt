// The commands that refit the cells: marks are built of the live vectors, and ids are converted to them.
ghost use Rattle.std.specs.Prelude.{◌≡◌, ◌≤◌, List, Option, OnOk};
ghost use Rattle.va_cursor.specs.Cursors.{Cursor};
ghost use Rattle.va_disk.specs.Frames.{DiskFailsAs};
ghost use Rattle.va_lang.specs.Command as asked;
ghost use Rattle.va_serve.specs.Bounds.{ReadsNoMore};
ghost use Rattle.va_serve.specs.Held.{HaveShape};
ghost use Rattle.va_serve.specs.Owing.{Owes};
ghost use Rattle.va_serve.specs.Promises.{IsSilent, Obeys, asked_by};
ghost use Rattle.va_serve.specs.Session.{FitsSession, Lent, lent_by, over_store, sitting_of, with_store};

use crate::answer::{Answer, CommandFault};
use crate::workspace::Workspace;
use std::alloc::Global;
use va_disk::Disk;
use va_lang::Why;
use va_requant as refitting;
use va_requant::{BeginFault, Progress};
use va_store::Store;

impl Workspace {
    /// Begins to build the marks of the vectors that are live.
    pub fn requant<D: Disk>(&mut self, alloc: Global, disk: &mut D) -> Result<Answer, CommandFault>
        requires fits { FitsSession D.Storage (sitting_of self.old) disk.old }
        ensures owes { Owes D.Storage (asked_by asked.requant) (lent_by self.new) (sitting_of self.old)
            (sitting_of self.new) disk.old disk.new result }
        ensures fits { OnOk result (FitsSession D.Storage (sitting_of self.new) disk.new) }
        ensures frame { IsSilent D.Storage disk.old disk.new }
        ensures cause { DiskFailsAs D.Storage CommandFault.Disk disk.old disk.new result }
    {
        requant(alloc, &mut self.store, disk)
    }

    /// Converts the next `n` ids to the marks that are being built, or as many as are left, which ends the building.
    /// `n` is at least 1.
    pub fn convert<D: Disk>(&mut self, disk: &mut D, n: u32) -> Result<Answer, CommandFault>
        requires fits { FitsSession D.Storage (sitting_of self.old) disk.old }
        requires some { 1 ≤ n }
        ensures owes { Owes D.Storage (asked_by (asked.convert n)) (lent_by self.new) (sitting_of self.old)
            (sitting_of self.new) disk.old disk.new result }
        ensures fits { OnOk result (FitsSession D.Storage (sitting_of self.new) disk.new) }
        ensures frame { IsSilent D.Storage disk.old disk.new }
        ensures cause { DiskFailsAs D.Storage CommandFault.Disk disk.old disk.new result }
    {
        convert(&mut self.store, disk, n)
    }
}

// Begins to build the marks of the vectors that are live.
fn requant<D: Disk>(alloc: Global, store: &mut Store, disk: &mut D) -> Result<Answer, CommandFault>
    requires fits { FitsSession D.Storage (over_store store.old) disk.old }
    ensures obeys { (lent : Lent) (cursors : List (Option Cursor)) → HaveShape store.old.shape cursors →
        Obeys D.Storage (asked_by asked.requant) lent (with_store cursors store.old) (with_store cursors store.new)
        disk.old disk.new result }
    ensures others { ReadsNoMore D.Storage (asked_by asked.requant) (over_store store.old) disk.old disk.new }
    ensures fits { OnOk result (FitsSession D.Storage (over_store store.new) disk.new) }
    ensures shape { store.new.shape ≡ store.old.shape }
    ensures frame { IsSilent D.Storage disk.old disk.new }
    ensures cause { DiskFailsAs D.Storage CommandFault.Disk disk.old disk.new result }
{
    if store.building().is_some() {
        return Ok(Answer::Refused(Why::Busy));
    }
    match refitting::begin(alloc, disk, store) {
        Ok(live) => Ok(Answer::Begun(live)),
        Err(BeginFault::Memory) => Ok(Answer::Refused(Why::Memory)),
        Err(BeginFault::Disk) => Err(CommandFault::Disk),
    }
}

// Converts the next ids, or as many as are left.
fn convert<D: Disk>(store: &mut Store, disk: &mut D, n: u32) -> Result<Answer, CommandFault>
    requires fits { FitsSession D.Storage (over_store store.old) disk.old }
    requires some { 1 ≤ n }
    ensures obeys { (lent : Lent) (cursors : List (Option Cursor)) → HaveShape store.old.shape cursors →
        Obeys D.Storage (asked_by (asked.convert n)) lent (with_store cursors store.old) (with_store cursors store.new)
        disk.old disk.new result }
    ensures others { ReadsNoMore D.Storage (asked_by (asked.convert n)) (over_store store.old) disk.old disk.new }
    ensures fits { OnOk result (FitsSession D.Storage (over_store store.new) disk.new) }
    ensures shape { store.new.shape ≡ store.old.shape }
    ensures frame { IsSilent D.Storage disk.old disk.new }
    ensures cause { DiskFailsAs D.Storage CommandFault.Disk disk.old disk.new result }
{
    if store.building().is_none() {
        return Ok(Answer::Refused(Why::Idle));
    }
    match refitting::convert(disk, store, n) {
        Ok(Progress::More { done, left }) => Ok(Answer::More(done, left)),
        Ok(Progress::Switched { done }) => Ok(Answer::Switched(done)),
        Err(_) => Err(CommandFault::Disk),
    }
}
