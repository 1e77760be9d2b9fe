// The certificate of a search.
ghost use Rattle.std.specs.Prelude.{◌≡◌, ◌≤◌, length};
ghost use Rattle.va_search.specs.Ready.{IsReady};
ghost use Rattle.va_search.specs.Searched.{Searched, at_any_time};
ghost use Rattle.va_search.specs.Sought.{certificate_sought};
ghost use Rattle.va_store.specs.Ids.{live_count};

use crate::StoreSearchFault;
use crate::fault::told_of;
use std::alloc::Global;
use va_cert::Certificate;
use va_disk::Disk;
use va_dist::Query;
use va_maker::build;
use va_store::Store;

/// The certificate of the k nearest: the answer, the box of each live vector's cell, and the vectors that had to be
/// read, each with a substitute. It reads what `find_nearest` reads, and memory may be wanting after any of these
/// reads.
pub fn certify<D: Disk>(
    alloc: Global,
    store: &mut Store,
    disk: &mut D,
    query: &Query,
    k: u16,
) -> Result<Certificate, StoreSearchFault>
    requires ready { IsReady D.Storage store.old disk.old }
    requires some { 1 ≤ k }
    requires few { live_count store.old.ids ≤ 4096 }
    requires dims { length query.now.weights ≡ store.old.shape.dims }
    ensures { Searched D.Storage at_any_time query.now (certificate_sought query.now k)
        store.old store.new disk.old disk.new result }
{
    let made = build(alloc, &mut store.shelf(disk), query, k);
    told_of(store, made)
}
