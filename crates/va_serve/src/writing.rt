// The commands that write: a vector is stored, and an id goes.
ghost use Rattle.std.specs.Prelude.{◌≡◌, List, Option, OnOk, length};
ghost use Rattle.va_cursor.specs.Cursors.{Cursor};
ghost use Rattle.va_disk.specs.Frames.{DiskFailsAs};
ghost use Rattle.va_lang.specs.Command as asked;
ghost use Rattle.va_serve.specs.Held.{AreCounts, HaveShape};
ghost use Rattle.va_serve.specs.Owing.{Owes};
ghost use Rattle.va_serve.specs.Promises.{IsSilent, Obeys, asked_by};
ghost use Rattle.va_serve.specs.Session.{FitsSession, Lent, lent_by, over_store, sitting_of, with_store};

use crate::answer::{Answer, CommandFault};
use crate::workspace::Workspace;
use va_disk::Disk;
use va_lang::Why;
use va_store::{DeleteFault, InsertFault, Store};

impl Workspace {
    /// Stores a vector.
    pub fn insert<D: Disk>(
        &mut self,
        disk: &mut D,
        id: u32,
        vector: &[u8],
    ) -> Result<Answer, CommandFault>
        requires fits { FitsSession D.Storage (sitting_of self.old) disk.old }
        ensures owes { Owes D.Storage (asked_by (asked.insert id vector.now)) (lent_by self.new) (sitting_of self.old)
            (sitting_of self.new) disk.old disk.new result }
        ensures fits { OnOk result (FitsSession D.Storage (sitting_of self.new) disk.new) }
        ensures frame { IsSilent D.Storage disk.old disk.new }
        ensures cause { DiskFailsAs D.Storage CommandFault.Disk disk.old disk.new result }
    {
        insert(&mut self.store, disk, id, vector, &self.held)
    }

    /// Empties the place of an id.
    pub fn delete<D: Disk>(&mut self, disk: &mut D, id: u32) -> Result<Answer, CommandFault>
        requires fits { FitsSession D.Storage (sitting_of self.old) disk.old }
        ensures owes { Owes D.Storage (asked_by (asked.delete id)) (lent_by self.new) (sitting_of self.old)
            (sitting_of self.new) disk.old disk.new result }
        ensures fits { OnOk result (FitsSession D.Storage (sitting_of self.new) disk.new) }
        ensures frame { IsSilent D.Storage disk.old disk.new }
        ensures cause { DiskFailsAs D.Storage CommandFault.Disk disk.old disk.new result }
    {
        delete(&mut self.store, disk, id)
    }
}

// Stores a vector. A place is held back where its number is above 0.
fn insert<D: Disk>(
    store: &mut Store,
    disk: &mut D,
    id: u32,
    vector: &[u8],
    held: &[u8],
) -> Result<Answer, CommandFault>
    requires fits { FitsSession D.Storage (over_store store.old) disk.old }
    requires held { length held.now ≡ store.old.shape.capacity }
    ensures obeys { (lent : Lent) (cursors : List (Option Cursor)) → HaveShape store.old.shape cursors →
        AreCounts cursors held.now → Obeys D.Storage (asked_by (asked.insert id vector.now)) lent
        (with_store cursors store.old) (with_store cursors store.new) disk.old disk.new result }
    ensures fits { OnOk result (FitsSession D.Storage (over_store store.new) disk.new) }
    ensures shape { store.new.shape ≡ store.old.shape }
    ensures frame { IsSilent D.Storage disk.old disk.new }
    ensures reads { D.reads disk.new ≡ D.reads disk.old }
    ensures cause { DiskFailsAs D.Storage CommandFault.Disk disk.old disk.new result }
{
    match store.insert(disk, id, vector, held) {
        Ok(place) => Ok(Answer::Placed(place)),
        Err(InsertFault::Length) => Ok(Answer::Refused(Why::Length)),
        Err(InsertFault::Duplicate(_)) => Ok(Answer::Refused(Why::Duplicate)),
        Err(InsertFault::Full) => Ok(Answer::Refused(Why::Full)),
        // A store that fits its disk isn't broken.
        Err(InsertFault::Broken) => unreachable!(),
        Err(InsertFault::Disk) => Err(CommandFault::Disk),
    }
}

// Empties the place of an id.
fn delete<D: Disk>(store: &mut Store, disk: &mut D, id: u32) -> Result<Answer, CommandFault>
    requires fits { FitsSession D.Storage (over_store store.old) disk.old }
    ensures obeys { (lent : Lent) (cursors : List (Option Cursor)) → HaveShape store.old.shape cursors →
        Obeys D.Storage (asked_by (asked.delete id)) lent (with_store cursors store.old) (with_store cursors store.new)
        disk.old disk.new result }
    ensures fits { OnOk result (FitsSession D.Storage (over_store store.new) disk.new) }
    ensures shape { store.new.shape ≡ store.old.shape }
    ensures frame { IsSilent D.Storage disk.old disk.new }
    ensures reads { D.reads disk.new ≡ D.reads disk.old }
    ensures cause { DiskFailsAs D.Storage CommandFault.Disk disk.old disk.new result }
{
    match store.delete(disk, id) {
        Ok(place) => Ok(Answer::Deleted(place)),
        Err(DeleteFault::Unknown) => Ok(Answer::Refused(Why::Unknown)),
        // A store that fits its disk isn't broken.
        Err(DeleteFault::Broken) => unreachable!(),
        Err(DeleteFault::Disk) => Err(CommandFault::Disk),
    }
}
