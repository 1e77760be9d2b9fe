// Counts the coordinates of vectors.
ghost use Rattle.std.specs.Prelude.{◌≡◌, ℕ, List, [], ◌∷◌, ◌++◌, ◌+◌, ◌^◌, ◌<◌, length, map, IfOk};
ghost use Rattle.std.specs.List.{range_with_len};
ghost use Rattle.va_core.specs.Marks.{AreValid, HasShape, marks_of};
ghost use Rattle.va_marks.specs.Counts.{Counted, IsCounted, Tallies, counts_of};
ghost use Rattle.va_marks.specs.Rows.{AreRows, row_by_counts};

use crate::Marks;
use crate::row::Row;
use crate::value_counts::{ValueCounts, add_each};
use std::alloc::{AllocError, Global};
use std::marker::Model;
use va_core::{Memory, Shape};

/// How often each value stands in each dimension of the vectors that were added. Their order is
/// forgotten, so that contracts say which lists of vectors it may be (`Tallies`).
#[derive(Drop)]
pub struct Tally {
    shape: Shape,
    added: u32,
    columns: Vec<ValueCounts>,
}

impl Model for Tally {
    ghost use Rattle.va_marks.specs.Counts.{Counted, IsCounted};

    ghost Value = { Counted };

    ghost view = { λ tally. record { shape = tally.shape; added = tally.added; columns = tally.columns.items } };

    ghost invariant = { λ tally. IsCounted (record { shape = tally.shape; added = tally.added; columns = tally.columns.items }) };
}

impl Tally {
    /// The tally of no vectors. It takes memory for 256 counts of 4 bytes in each dimension, and fails only
    /// where none is found.
    pub fn new(alloc: Global, shape: Shape) -> Result<Tally, Memory>
        ensures shape { IfOk result (λ tally. tally.shape ≡ shape) }
        ensures none { IfOk result (λ tally. Tallies tally []) }
    {
        match empty_columns(alloc, shape) {
            Ok(columns) => Ok(Tally {
                shape,
                added: 0,
                columns,
            }),
            Err(_) => Err(Memory),
        }
    }

    /// Counts the coordinates of a vector of `dims` bytes. At most `2^32 - 1` vectors are counted.
    pub fn add(&mut self, vector: &[u8])
        requires dims { length vector.now ≡ self.old.shape.dims }
        requires few { self.old.added + 1 < 2 ^ 32 }
        ensures shape { self.new.shape ≡ self.old.shape }
        ensures added { self.new.added ≡ self.old.added + 1 }
        ensures tallied { (vectors : List (List ℕ)) → Tallies self.old vectors → Tallies self.new (vectors ++ vector.now ∷ []) }
    {
        add_each(&mut self.columns, vector);
        self.added += 1;
    }

    /// The marks of the vectors that were added. In a dimension of b bits mark t is the least value v such
    /// that more than `t * added / 2^b` coordinates, rounded down, are at most v. But mark 0 is 0 and the
    /// last one, mark 2^b, is 256. With no vectors all slices are equally wide. It fails only where no memory
    /// is found.
    pub fn marks(&self, alloc: Global) -> Result<Marks, Memory>
        ensures marks { IfOk result (λ marks. (vectors : List (List ℕ)) → Tallies self.now vectors → marks ≡ marks_of self.now.shape vectors) }
        ensures shape { IfOk result (HasShape self.now.shape) }
        ensures valid { IfOk result AreValid }
    {
        match counted_rows(alloc, self.shape, &self.columns, self.added) {
            Ok(rows) => Ok(Marks::from_rows(rows)),
            Err(_) => Err(Memory),
        }
    }
}

fn empty_columns(alloc: Global, shape: Shape) -> Result<Vec<ValueCounts>, AllocError>
    ensures { IfOk result (λ columns. columns.items ≡ map (λ _. counts_of []) (range_with_len 0 shape.dims)) }
{
    let mut columns = Vec::with_capacity(alloc, usize::from(shape.dims()))?;
    for _ in 0..shape.dims() {
        let column = ValueCounts::new(alloc)?;
        columns.push(column)?;
    }
    Ok(columns)
}

fn counted_rows(
    alloc: Global,
    shape: Shape,
    columns: &[ValueCounts],
    added: u32,
) -> Result<Vec<Row>, AllocError>
    requires { IsCounted (record { shape = shape; added = added; columns = columns.now }) }
    ensures { IfOk result (λ rows. AreRows (row_by_counts shape added columns.now) shape.dims rows.items) }
{
    let mut rows = Vec::with_capacity(alloc, usize::from(shape.dims()))?;
    for dim in 0..shape.dims() {
        let column = &columns[usize::from(dim)];
        let row = column.row(alloc, shape.bits_of(dim), added)?;
        rows.push(row)?;
    }
    Ok(rows)
}
