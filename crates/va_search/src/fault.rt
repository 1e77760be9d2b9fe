// Why a search over a store failed.
ghost use Rattle.std.specs.Prelude.{◌≡◌};
ghost use Rattle.va_search.specs.Told.{told_as, told_fault};

use va_ports::SearchFault;
use va_store::Store;

/// Why a search over a store failed.
#[derive(Clone, Copy, Debug, PartialEq, Eq)]
pub enum StoreSearchFault {
    /// No memory was found.
    Memory,
    /// A call of the disk failed.
    Disk,
    /// The distance of the vector in a place lies outside the bounds of its stored cell.
    Mismatch {
        place: u32,
        dist: u64,
        low: u64,
        high: u64,
    },
    /// The scan met at a live place a code that names no cell, which it hadn't when the store was opened.
    Changed {
        place: u32,
    },
}

/// What comes of a call over a shelf, once the shelf has ended.
pub(crate) fn told_of<T: Drop>(
    store: &Store,
    found: Result<T, SearchFault>,
) -> Result<T, StoreSearchFault>
    ensures { result ≡ told_as store.now.changed found }
{
    match found {
        Ok(found) => match store.changed() {
            Some(place) => Err(StoreSearchFault::Changed { place }),
            None => Ok(found),
        },
        Err(why) => Err(fault_of(store, why)),
    }
}

// What is told of a fault over a shelf.
fn fault_of(store: &Store, why: SearchFault) -> StoreSearchFault
    ensures { result ≡ told_fault store.now.changed why }
{
    match why {
        SearchFault::Shelf(_) => StoreSearchFault::Disk,
        SearchFault::Mismatch {
            place,
            dist,
            low,
            high,
        } => StoreSearchFault::Mismatch {
            place,
            dist,
            low,
            high,
        },
        SearchFault::Memory => match store.changed() {
            Some(place) => StoreSearchFault::Changed { place },
            None => StoreSearchFault::Memory,
        },
    }
}
