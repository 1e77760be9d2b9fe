// A cell with its bounds.
ghost use Rattle.std.specs.Prelude.{◌≡◌};
ghost use Rattle.va_keep.specs.Queued.{low_pair};

use va_core::Pair;

/// A cell with the least and the greatest distance that its vector may have. Entries are ordered by least distance,
/// then by id.
#[derive(Clone, Copy, Debug, PartialEq, Eq, PartialOrd, Ord)]
pub struct Entry {
    // The order of the fields is that of the comparison.
    pub low: u64,
    pub id: u32,
    pub high: u64,
    pub place: u32,
}

impl Entry {
    /// The least pair that the cell may have.
    pub fn low_pair(&self) -> Pair
        ensures { result ≡ low_pair self.now }
    {
        Pair {
            dist: self.low,
            id: self.id,
        }
    }
}
