// The searches. Each is one over the shelf that the store and its disk are lent to, told in the words of both.
ghost use Rattle.std.specs.Prelude.{◌≡◌, ◌≤◌, length};
ghost use Rattle.va_search.specs.Ready.{IsReady};
ghost use Rattle.va_search.specs.Searched.{Searched, before_reads};
ghost use Rattle.va_search.specs.Sought.{nearest_sought, scan_sought, within_sought};

use crate::StoreSearchFault;
use crate::fault::told_of;
use std::alloc::Global;
use va_disk::Disk;
use va_dist::Query;
use va_noa::nearest;
use va_ports::Found;
use va_ssa::within;
use va_store::Store;

/// The k nearest, with the least reads that determine them.
pub fn find_nearest<D: Disk>(
    alloc: Global,
    store: &mut Store,
    disk: &mut D,
    query: &Query,
    k: u16,
) -> Result<Found, StoreSearchFault>
    requires ready { IsReady D.Storage store.old disk.old }
    requires some { 1 ≤ k }
    requires dims { length query.now.weights ≡ store.old.shape.dims }
    ensures { Searched D.Storage before_reads query.now (nearest_sought query.now k)
        store.old store.new disk.old disk.new result }
{
    let found = nearest(alloc, &mut store.shelf(disk), query, k);
    told_of(store, found)
}

/// The k nearest, by a scan in the order of the places.
pub fn scan_nearest<D: Disk>(
    alloc: Global,
    store: &mut Store,
    disk: &mut D,
    query: &Query,
    k: u16,
) -> Result<Found, StoreSearchFault>
    requires ready { IsReady D.Storage store.old disk.old }
    requires some { 1 ≤ k }
    requires dims { length query.now.weights ≡ store.old.shape.dims }
    ensures { Searched D.Storage before_reads query.now (scan_sought query.now k)
        store.old store.new disk.old disk.new result }
{
    let found = va_ssa::scan_nearest(alloc, &mut store.shelf(disk), query, k);
    told_of(store, found)
}

/// What lies within a radius, with the least reads that determine it.
pub fn find_within<D: Disk>(
    alloc: Global,
    store: &mut Store,
    disk: &mut D,
    query: &Query,
    radius: u64,
) -> Result<Found, StoreSearchFault>
    requires ready { IsReady D.Storage store.old disk.old }
    requires dims { length query.now.weights ≡ store.old.shape.dims }
    ensures { Searched D.Storage before_reads query.now (within_sought query.now radius)
        store.old store.new disk.old disk.new result }
{
    let found = within(alloc, &mut store.shelf(disk), query, radius);
    told_of(store, found)
}
