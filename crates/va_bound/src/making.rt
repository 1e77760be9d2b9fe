// How a table is made.
ghost use Rattle.std.specs.Prelude.{◌≡◌, ◌+◌, ◌*◌, ◌<◌, ◌≤◌, ℕ, length, vec_capacity};
ghost use Rattle.va_core.specs.Marks.{AreValid, row_at};
ghost use Rattle.std.specs.List.{AllByRecursion};
ghost use Rattle.va_bound.specs.Extremes.{IsSmall};
ghost use Rattle.va_bound.specs.Tables.{AreRight, IsRight};

use crate::entry::Entry;
use crate::parts::extremes;
use va_dist::Query;
use va_marks::Marks;

// The most slices that a dimension has.
pub fn most_slices(marks: &Marks, dims: u16) -> usize
    requires dims { dims ≡ length marks.now }
    requires some { 1 ≤ dims }
    ensures valid { AreValid marks.now }
    ensures fits { (dim : ℕ) → dim < length marks.now → length (row_at marks.now dim) ≤ result + 1 }
    ensures most { result ≤ 256 }
{
    let mut most = usize::from(marks.count(0)) - 1;
    for dim in 1..dims {
        let slices = usize::from(marks.count(dim)) - 1;
        if slices > most {
            most = slices;
        }
    }
    most
}

// The entry of a slice.
fn entry_of(marks: &Marks, query: &Query, dim: u16, slice: usize) -> Entry
    requires marks { dim < length marks.now }
    requires query { dim < length query.now.weights }
    requires slice { slice < 256 }
    ensures right { IsRight marks.now query.now dim slice result }
    ensures small { IsSmall result }
{
    if slice + 1 >= usize::from(marks.count(dim)) {
        return Entry::none();
    }
    match marks.interval(dim, slice as u8) {
        Some((first, last)) => extremes(query, dim, first, last),
        None => Entry::none(),
    }
}

// Puts the entries of a dimension behind those of the dimensions before.
pub fn push_row(entries: &mut Vec<Entry>, marks: &Marks, query: &Query, dim: u16, slices: usize)
    requires marks { dim < length marks.now }
    requires query { dim < length query.now.weights }
    requires few { slices ≤ 256 }
    requires before { length entries.old.items ≡ dim * slices }
    requires room { dim * slices + slices ≤ vec_capacity entries.old }
    requires right { AreRight marks.now query.now slices entries.old.items }
    requires small { AllByRecursion IsSmall entries.old.items }
    ensures behind { length entries.new.items ≡ dim * slices + slices }
    ensures room { vec_capacity entries.new ≡ vec_capacity entries.old }
    ensures right { AreRight marks.now query.now slices entries.new.items }
    ensures small { AllByRecursion IsSmall entries.new.items }
{
    for slice in 0..slices {
        entries.push_reserved(entry_of(marks, query, dim, slice));
    }
}
