// The extremes of the part of a dimension.
ghost use Rattle.std.specs.Prelude.{◌-◌, ◌<◌, ◌≤◌, length};
ghost use Rattle.va_core.specs.DistanceParts.{part_of};
ghost use Rattle.va_bound.specs.Extremes.{IsExtreme, IsSmall};

use crate::entry::Entry;
use va_dist::Query;

// Over the values from the first to the last, each of which is weighed once.
pub fn extremes(query: &Query, dim: u16, first: u8, last: u8) -> Entry
    requires dim { dim < length query.now.weights }
    requires order { first ≤ last }
    ensures extreme { IsExtreme (part_of query.now dim) first (last - first) result }
    ensures small { IsSmall result }
{
    let mut at = last;
    let mut entry = Entry::of(last, query.part(dim, last));
    while at > first {
        at -= 1;
        entry = entry.with_value_before(at, query.part(dim, at));
    }
    entry
}
