// The table of a query under marks.
ghost use Rattle.std.specs.Prelude.{◌≡◌, ◌<◌, ◌^◌, ℕ, List, length, IfOk};
ghost use Rattle.va_core.specs.Boxes.{low_of, high_of, lowest, highest};
ghost use Rattle.va_core.specs.Cells.{box};
ghost use Rattle.va_core.specs.Distance as distances;
ghost use Rattle.va_core.specs.Distance.{distance};
ghost use Rattle.va_core.specs.Marks.{row_at};
ghost use Rattle.va_bound.specs.Extremes.{IsSmall};
ghost use Rattle.va_bound.specs.Tables.{AreBounds, HasEntries, IsFull, Tells, entry_at, greatest_over, greatest_sum, least_over, least_sum};

use crate::entry::Entry;
use crate::making::{most_slices, push_row};
use std::alloc::Global;
use std::marker::Model;
use va_core::Memory;
use va_dist::Query;
use va_marks::Marks;

/// The bounds of a query's distances, for each cell under some marks. Contracts see the table: they say
/// what holds under whichever marks and for whichever query it was made.
#[derive(Drop)]
pub struct Bounds {
    dims: usize,
    slices: usize,
    entries: Vec<Entry>,
}

impl Model for Bounds {
    ghost use Rattle.va_bound.specs.Tables.{IsTable, Table};

    ghost Value = { Table };

    ghost view = { λ bounds. record { dims = bounds.dims; slices = bounds.slices; entries = bounds.entries.items } };

    ghost invariant = { λ bounds. IsTable (record { dims = bounds.dims; slices = bounds.slices; entries = bounds.entries.items }) };
}

impl Bounds {
    /// The bounds of a query under marks of as many dimensions. Each value of each dimension is weighed against
    /// each object once.
    pub fn of(alloc: Global, marks: &Marks, query: &Query) -> Result<Bounds, Memory>
        requires { length marks.now ≡ length query.now.weights }
        ensures { IfOk result (AreBounds marks.now query.now) }
    {
        let dims = query.dims();
        let slices = most_slices(marks, dims);
        let Ok(mut entries) = Vec::with_capacity(alloc, usize::from(dims) * slices) else {
            return Err(Memory);
        };
        for dim in 0..dims {
            push_row(&mut entries, marks, query, dim, slices);
        }
        Ok(Bounds {
            dims: usize::from(dims),
            slices,
            entries,
        })
    }

    /// The lower bound of a cell: the least distance over all its vectors.
    pub fn low(&self, codes: &[u8]) -> u64
        requires { HasEntries self.now codes.now }
        ensures low { Tells self.now codes.now (λ marks query. result ≡ low_of (distance query) (box marks codes.now)) }
        ensures sum { result ≡ least_sum self.now codes.now }
        ensures most { result < 2 ^ 45 }
    {
        let mut total = 0;
        for dim in 0..self.dims {
            total += self.at(dim, codes[dim]).least;
        }
        total
    }

    /// The lower and the upper bound of a cell, in one pass.
    pub fn both(&self, codes: &[u8]) -> (u64, u64)
        requires { HasEntries self.now codes.now }
        ensures low { Tells self.now codes.now (λ marks query. result.0 ≡ low_of (distance query) (box marks codes.now)) }
        ensures high { Tells self.now codes.now (λ marks query. result.1 ≡ high_of (distance query) (box marks codes.now)) }
        ensures sum { (result.0 ≡ least_sum self.now codes.now) × (result.1 ≡ greatest_sum self.now codes.now) }
        ensures most { (result.0 < 2 ^ 45) × (result.1 < 2 ^ 45) }
    {
        let mut low = 0;
        let mut high = 0;
        for dim in 0..self.dims {
            let entry = self.at(dim, codes[dim]);
            low += entry.least;
            high += entry.greatest;
        }
        (low, high)
    }

    /// The upper bound of a cell: the greatest distance over all its vectors.
    pub fn high(&self, codes: &[u8]) -> u64
        requires { HasEntries self.now codes.now }
        ensures high { Tells self.now codes.now (λ marks query. result ≡ high_of (distance query) (box marks codes.now)) }
        ensures sum { result ≡ greatest_sum self.now codes.now }
        ensures most { result < 2 ^ 45 }
    {
        let mut total = 0;
        for dim in 0..self.dims {
            total += self.at(dim, codes[dim]).greatest;
        }
        total
    }

    /// The first vector of a cell, in lexicographic order, at its lower bound.
    pub fn least_in(&self, codes: &[u8], out: &mut [u8])
        requires entries { HasEntries self.now codes.now }
        requires room { length out.old ≡ length codes.now }
        ensures { Tells self.now codes.now (λ marks query. out.new ≡ lowest (distance query) (box marks codes.now)) }
    {
        for dim in 0..self.dims {
            out[dim] = self.at(dim, codes[dim]).least_at;
        }
    }

    /// The first vector of a cell, in lexicographic order, at its upper bound.
    pub fn greatest_in(&self, codes: &[u8], out: &mut [u8])
        requires entries { HasEntries self.now codes.now }
        requires room { length out.old ≡ length codes.now }
        ensures { Tells self.now codes.now (λ marks query. out.new ≡ highest (distance query) (box marks codes.now)) }
    {
        for dim in 0..self.dims {
            out[dim] = self.at(dim, codes[dim]).greatest_at;
        }
    }

    /// The least and the greatest part of the distance in a dimension, over the values of a slice.
    pub fn entry(&self, dim: u16, slice: u8) -> (u64, u64)
        requires dim { dim < self.now.dims }
        requires slice { slice < self.now.slices }
        ensures entry { result ≡ ((entry_at self.now dim slice).least, (entry_at self.now dim slice).greatest) }
        ensures least { (marks : List (List ℕ)) (query : distances.Query) → AreBounds marks query self.now → IsFull (row_at marks dim) slice → result.0 ≡ least_over marks query dim slice }
        ensures greatest { (marks : List (List ℕ)) (query : distances.Query) → AreBounds marks query self.now → IsFull (row_at marks dim) slice → result.1 ≡ greatest_over marks query dim slice }
    {
        let entry = self.at(usize::from(dim), slice);
        (entry.least, entry.greatest)
    }

    // One load.
    fn at(&self, dim: usize, slice: u8) -> Entry
        requires dim { dim < self.now.dims }
        requires slice { slice < self.now.slices }
        ensures entry { result ≡ entry_at self.now dim slice }
        ensures small { IsSmall result }
    {
        self.entries[dim * self.slices + usize::from(slice)]
    }
}
