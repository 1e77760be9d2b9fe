// How often each value stands in one dimension.
ghost use Rattle.std.specs.Prelude.{◌≡◌, ℕ, List, [], ◌+◌, ◌^◌, ◌<◌, ◌≤◌, length, get_or, sum, IfOk};
ghost use Rattle.va_core.specs.Marks.{IsRow};
ghost use Rattle.va_marks.specs.Counts.{counts_at, counts_of, plus_one};
ghost use Rattle.va_marks.specs.Rule.{row_by};

use crate::row::Row;
use std::alloc::{AllocError, Global};
use std::marker::Model;

// Contracts see the list of the 256 counts.
#[derive(Drop)]
pub struct ValueCounts {
    counts: Vec<u32>,
}

impl Model for ValueCounts {
    ghost use Rattle.std.specs.Prelude.{◌≡◌, ℕ, List, length};

    ghost Value = { List ℕ };

    ghost view = { λ value_counts. value_counts.counts.items };

    ghost invariant = { λ value_counts. length value_counts.counts.items ≡ 256 };
}

impl ValueCounts {
    pub fn new(alloc: Global) -> Result<ValueCounts, AllocError>
        ensures { IfOk result (λ counts. counts ≡ counts_of []) }
    {
        Ok(ValueCounts {
            counts: vec![in alloc; 0; 256]?,
        })
    }

    pub fn add(&mut self, value: u8)
        requires { get_or self.old value 0 + 1 < 2 ^ 32 }
        ensures { self.new ≡ plus_one self.old value }
    {
        self.counts[usize::from(value)] += 1;
    }

    // The marks of a dimension in which so many coordinates were added.
    pub fn row(&self, alloc: Global, bits: u8, added: u32) -> Result<Row, AllocError>
        requires bits { bits ≤ 8 }
        requires added { sum self.now ≡ added }
        ensures row { IfOk result (λ row. row ≡ row_by bits added self.now) }
        ensures valid { IfOk result IsRow }
    {
        Row::of_counts(alloc, bits, &self.counts, added)
    }
}

// One more of each coordinate of the vector.
pub fn add_each(columns: &mut Vec<ValueCounts>, vector: &[u8])
    requires one_each { length columns.old.items ≡ length vector.now }
    requires room { (dim v : ℕ) → dim < length vector.now → get_or (counts_at columns.old.items dim) v 0 + 1 < 2 ^ 32 }
    ensures one_each { length columns.new.items ≡ length vector.now }
    ensures added { (dim : ℕ) → dim < length vector.now → counts_at columns.new.items dim ≡ plus_one (counts_at columns.old.items dim) (get_or vector.now dim 0) }
{
    for dim in 0..vector.len() {
        let column = &mut columns[dim];
        column.add(vector[dim]);
    }
}
