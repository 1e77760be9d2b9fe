// Cursors over a store and its disk.
ghost use Rattle.std.specs.Prelude.{◌≡◌, length};
ghost use Rattle.va_search.specs.Cursors.{Advanced, Opened};
ghost use Rattle.va_search.specs.Ready.{IsReady};

use crate::StoreSearchFault;
use crate::fault::told_of;
use std::alloc::Global;
use va_core::Pair;
use va_cursor::Cursor;
use va_disk::Disk;
use va_dist::Query;
use va_store::Store;

/// A cursor over the live places as they are now. No vector is read, and all memory is taken here.
pub fn open_cursor<D: Disk>(
    alloc: Global,
    store: &mut Store,
    disk: &mut D,
    query: Query,
) -> Result<Cursor, StoreSearchFault>
    requires ready { IsReady D.Storage store.old disk.old }
    requires dims { length query.weights ≡ store.old.shape.dims }
    ensures { Opened D.Storage query store.old store.new disk.old disk.new result }
{
    let opened = Cursor::open(alloc, &mut store.shelf(disk), query);
    told_of(store, opened)
}

/// The next pair of a cursor, or `None` where all were given, with the least reads that determine it. Takes no memory.
///
/// The pairs are those of the places as they were when the cursor was opened, while their vectors stand on the disk as
/// they did.
pub fn next_pair<D: Disk>(
    cursor: &mut Cursor,
    store: &mut Store,
    disk: &mut D,
) -> Result<Option<Pair>, StoreSearchFault>
    requires ready { IsReady D.Storage store.old disk.old }
    requires shape { cursor.old.shape ≡ store.old.shape }
    ensures { Advanced D.Storage cursor.old cursor.new store.old store.new disk.old disk.new result }
{
    let next = cursor.next(&mut store.shelf(disk));
    told_of(store, next)
}
