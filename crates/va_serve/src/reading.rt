// The commands that read: the vector of an id, and what is there.
ghost use Rattle.std.specs.Prelude.{◌≡◌, ◌≤◌, List, ℕ, Option, length, take};
ghost use Rattle.va_cursor.specs.Cursors as held;
ghost use Rattle.va_disk.specs.Frames.{DiskFailsAs, OnlyReads};
ghost use Rattle.va_lang.specs.Command as asked;
ghost use Rattle.va_serve.specs.Answers.{said_answer, stat_reply};
ghost use Rattle.va_serve.specs.Bounds.{ReadsNoMore};
ghost use Rattle.va_serve.specs.Held.{count_open};
ghost use Rattle.va_serve.specs.Owing.{Owes};
ghost use Rattle.va_serve.specs.Promises.{Obeys, asked_by};
ghost use Rattle.va_serve.specs.Session.{FitsSession, Lent, lent_by, over_store, sitting_of, with_store};

use crate::answer::{Answer, CommandFault};
use crate::workspace::Workspace;
use va_cursor::Cursor;
use va_disk::Disk;
use va_lang::Why;
use va_store::{GetFault, Store};

impl Workspace {
    /// Reads the vector of an id into the room for one.
    pub fn get<D: Disk>(&mut self, disk: &mut D, id: u32) -> Result<Answer, CommandFault>
        requires fits { FitsSession D.Storage (sitting_of self.old) disk.old }
        ensures owes { Owes D.Storage (asked_by (asked.get id)) (lent_by self.new) (sitting_of self.old)
            (sitting_of self.new) disk.old disk.new result }
        ensures fits { FitsSession D.Storage (sitting_of self.new) disk.new }
        ensures frame { OnlyReads D.Storage disk.old disk.new }
        ensures cause { DiskFailsAs D.Storage CommandFault.Disk disk.old disk.new result }
    {
        get(&mut self.store, disk, id, &mut self.vector)
    }

    /// Tells the shape, how many vectors are live, how many cursors are open, and how far a building has come.
    pub fn stat(&self) -> Answer
        ensures { (lent : Lent) → said_answer result lent ≡ stat_reply self.now.store self.now.cursors }
    {
        Answer::Stat(
            self.store.shape(),
            self.store.live(),
            open_count(&self.cursors),
            self.store.building(),
        )
    }
}

// How many cursors are open.
fn open_count(cursors: &[Option<Cursor>]) -> u32
    requires { length cursors.now ≤ 64 }
    ensures { result ≡ count_open cursors.now }
{
    let mut count = 0;
    for cursor in cursors {
        if cursor.is_some() {
            count += 1;
        }
    }
    count
}

// Reads the vector of an id into the front of the room.
fn get<D: Disk>(
    store: &mut Store,
    disk: &mut D,
    id: u32,
    room: &mut [u8],
) -> Result<Answer, CommandFault>
    requires fits { FitsSession D.Storage (over_store store.old) disk.old }
    requires room { length room.old ≡ 256 }
    ensures obeys { (marks : Option (List (List ℕ))) (cursors : List (Option held.Cursor)) →
        Obeys D.Storage (asked_by (asked.get id))
        (record { vector = take store.new.shape.dims room.new; marks = marks }) (with_store cursors store.old)
        (with_store cursors store.new) disk.old disk.new result }
    ensures others { ReadsNoMore D.Storage (asked_by (asked.get id)) (over_store store.old) disk.old disk.new }
    ensures store { store.new ≡ store.old }
    ensures frame { OnlyReads D.Storage disk.old disk.new }
    ensures fits { FitsSession D.Storage (over_store store.new) disk.new }
    ensures cause { DiskFailsAs D.Storage CommandFault.Disk disk.old disk.new result }
{
    let dims = usize::from(store.shape().dims());
    match store.get(disk, id, &mut room[..dims]) {
        Ok(()) => Ok(Answer::Vector),
        Err(GetFault::Unknown) => Ok(Answer::Refused(Why::Unknown)),
        Err(GetFault::Disk) => Err(CommandFault::Disk),
    }
}
