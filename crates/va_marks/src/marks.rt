// The marks of all dimensions.
ghost use Rattle.std.specs.Prelude.{◌≡◌, ◌↔◌, ℕ, List, [], ◌+◌, ◌*◌, ◌<◌, ◌≤◌, length, get_or, IfOk, IfErr, IfSome, IsSome, IsTrue};
ghost use Rattle.va_core.specs.Shape.{Shape, bits_of};
ghost use Rattle.va_core.specs.Codes.{AreSlices};
ghost use Rattle.va_core.specs.Marks.{AreValid, HasShape, cell, interval, marks_of, row_at, row_of, slice_of};
ghost use Rattle.va_core.specs.MarkBytes.{IsFirstInvalid, marks_bytes, marks_len, marks_read, row_bytes};
ghost use Rattle.va_marks.specs.Faults.{IfDim};
ghost use Rattle.va_marks.specs.Rows.{AreRows};
ghost use Rattle.va_marks.specs.Tables.{RiseStrictly};

use crate::MarksFault;
use crate::bytes::{is_row, read_row};
use crate::row::Row;
use crate::rule::mark_count;
use std::alloc::{AllocError, Global};
use std::marker::Model;
use va_core::{Memory, Shape};

/// The marks of a store: a row for each dimension, dimension 0 first, with a mark more than the dimension
/// has slices. Each row begins with 0, rises weakly and ends with 256. Contracts see the list of the rows.
#[derive(Drop)]
pub struct Marks {
    rows: Vec<Row>,
    rise_strictly: bool,
}

impl Model for Marks {
    ghost use Rattle.std.specs.Prelude.{ℕ, List};
    ghost use Rattle.va_marks.specs.Tables.{AreKept};

    ghost Value = { List (List ℕ) };

    ghost view = { λ marks. marks.rows.items };

    ghost invariant = { λ marks. AreKept marks.rows.items marks.rise_strictly };
}

impl Marks {
    pub(crate) fn from_rows(rows: Vec<Row>) -> Marks
        requires { AreValid rows.items }
        ensures marks { result ≡ rows.items }
        ensures valid { AreValid result }
    {
        let rise_strictly = rise_strictly(&rows);
        Marks {
            rows,
            rise_strictly,
        }
    }

    /// The marks over no vectors: 2^b slices of equal width in a dimension of b bits. It fails only where
    /// no memory is found.
    pub fn equal(alloc: Global, shape: Shape) -> Result<Marks, Memory>
        ensures marks { IfOk result (λ marks. marks ≡ marks_of shape []) }
        ensures shape { IfOk result (HasShape shape) }
        ensures valid { IfOk result AreValid }
    {
        match equal_rows(alloc, shape) {
            Ok(rows) => Ok(Marks::from_rows(rows)),
            Err(_) => Err(Memory),
        }
    }

    /// The same marks once more. It fails only where no memory is found.
    pub fn copy(&self, alloc: Global) -> Result<Marks, Memory>
        ensures { IfOk result (λ copy. copy ≡ self.now) }
    {
        match copied_rows(alloc, &self.rows) {
            Ok(rows) => Ok(Marks::from_rows(rows)),
            Err(_) => Err(Memory),
        }
    }

    /// The slice of a coordinate, 0 to 255: how many marks are at most it, but for the first and the last. It isn't
    /// empty, and its interval has the coordinate.
    pub fn slice_of(&self, dim: u16, value: u8) -> u8
        requires { dim < length self.now }
        ensures slice { result ≡ slice_of (row_at self.now dim) value }
        ensures inside { result + 1 < length (row_at self.now dim) }
        ensures full { IsSome (interval (row_at self.now dim) result) }
        ensures holds { IfSome (interval (row_at self.now dim) result) (λ ends. (ends.0 ≤ value) × (value ≤ ends.1)) }
    {
        self.rows[usize::from(dim)].slice_of(value)
    }

    /// The least and the greatest value of a slice, or `None` where its mark equals the next one, so that
    /// it has no values.
    pub fn interval(&self, dim: u16, slice: u8) -> Option<(u8, u8)>
        requires dim { dim < length self.now }
        requires slice { slice + 1 < length (row_at self.now dim) }
        ensures { result ≡ interval (row_at self.now dim) slice }
    {
        self.rows[usize::from(dim)].interval(slice)
    }

    /// Whether no slice of any dimension is empty: each mark is less than the next one. It takes one load.
    pub fn rise_strictly(&self) -> bool
        ensures strictly { IsTrue result ↔ RiseStrictly self.now }
        ensures valid { AreValid self.now }
    {
        self.rise_strictly
    }

    /// How many marks a dimension has: 2 to 257, one more than it has slices.
    pub fn count(&self, dim: u16) -> u16
        requires { dim < length self.now }
        ensures count { result ≡ length (row_at self.now dim) }
        ensures most { result ≤ 257 }
        ensures valid { AreValid self.now }
    {
        self.rows[usize::from(dim)].count()
    }

    /// Mark t of a dimension, from mark 0 on: 0 to 256.
    pub fn mark(&self, dim: u16, t: u16) -> u16
        requires dim { dim < length self.now }
        requires inside { t < length (row_at self.now dim) }
        ensures mark { result ≡ get_or (row_at self.now dim) t 0 }
        ensures most { result ≤ 256 }
    {
        self.rows[usize::from(dim)].mark(t)
    }

    /// How many dimensions there are.
    pub fn dims(&self) -> usize
        ensures { result ≡ length self.now }
    {
        self.rows.len()
    }

    /// The marks of a dimension, mark 0 first: 2 to 257 of them.
    pub fn row(&self, dim: usize) -> &[u16]
        requires { dim < length self.now }
        ensures { result.now ≡ row_at self.now dim }
    {
        self.rows[dim].as_slice()
    }

    /// Writes the slices of a vector of `dims` bytes, dimension 0 first, a byte for each.
    pub fn cell(&self, vector: &[u8], out: &mut [u8])
        requires vector { length vector.now ≡ length self.now }
        requires room { length out.old ≡ length self.now }
        ensures cell { out.new ≡ cell self.now vector.now }
        // Each slice fits the bits of its dimension.
        ensures fits { (shape : Shape) → HasShape shape self.now → AreSlices shape out.new }
    {
        for dim in 0..vector.len() {
            out[dim] = self.rows[dim].slice_of(vector[dim]);
        }
    }

    /// Writes the marks, dimension after dimension, each in two bytes, the greater first: as many bytes as marks of
    /// their shape take.
    pub fn to_bytes(&self, out: &mut [u8])
        requires { (shape : Shape) × HasShape shape self.now × (length out.old ≡ marks_len shape) }
        ensures { out.new ≡ marks_bytes self.now }
    {
        let mut at = 0;
        for row in &self.rows {
            at = row.write(at, out);
        }
    }

    /// Writes the marks of one dimension as `to_bytes` does: into twice as many bytes as the dimension has marks.
    pub fn row_to_bytes(&self, dim: u16, out: &mut [u8])
        requires dim { dim < length self.now }
        requires room { length out.old ≡ 2 * length (row_at self.now dim) }
        ensures { out.new ≡ row_bytes (row_at self.now dim) }
    {
        let _ = self.rows[usize::from(dim)].write(0, out);
    }

    /// Reads the marks of a shape from the bytes that `to_bytes` writes, `marks_len` of them.
    ///
    /// A fault names the first dimension, from 0 on, whose marks don't begin with 0, rise weakly and end
    /// with 256, or says that no memory was found.
    pub fn from_bytes(alloc: Global, shape: Shape, bytes: &[u8]) -> Result<Marks, MarksFault>
        requires { length bytes.now ≡ marks_len shape }
        ensures read { IfOk result (λ marks. marks ≡ marks_read shape bytes.now) }
        ensures shape { IfOk result (HasShape shape) }
        ensures valid { IfOk result AreValid }
        ensures written { IfOk result (λ marks. marks_bytes marks ≡ bytes.now) }

        // Valid marks of the shape that have these bytes are read as they are, if memory is found.
        ensures only { (marks : List (List ℕ)) → HasShape shape marks → AreValid marks → marks_bytes marks ≡ bytes.now
            → IfOk result (λ read. read ≡ marks) × IfErr result (λ fault. IfDim fault (λ _. ⊥)) }
        ensures first { IfErr result (λ fault. IfDim fault (IsFirstInvalid shape bytes.now)) }
    {
        let mut rows = Vec::with_capacity(alloc, usize::from(shape.dims()))?;
        let mut at = 0;
        for dim in 0..shape.dims() {
            let count = mark_count(shape.bits_of(dim));
            let marks = read_row(alloc, bytes, at, count)?;
            if !is_row(&marks) {
                return Err(MarksFault::Dim(dim));
            }
            let row = Row::new(alloc, marks)?;
            rows.push(row)?;
            at += 2 * count;
        }
        Ok(Marks::from_rows(rows))
    }
}

// Whether no slice of any row is empty.
fn rise_strictly(rows: &[Row]) -> bool
    ensures { IsTrue result ↔ RiseStrictly rows.now }
{
    for row in rows {
        if !row.rises_strictly() {
            return false;
        }
    }
    true
}

fn equal_rows(alloc: Global, shape: Shape) -> Result<Vec<Row>, AllocError>
    ensures { IfOk result (λ rows. AreRows (λ dim. row_of (bits_of shape dim) []) shape.dims rows.items) }
{
    let mut rows = Vec::with_capacity(alloc, usize::from(shape.dims()))?;
    for dim in 0..shape.dims() {
        let row = Row::equal(alloc, shape.bits_of(dim))?;
        rows.push(row)?;
    }
    Ok(rows)
}

fn copied_rows(alloc: Global, rows: &[Row]) -> Result<Vec<Row>, AllocError>
    ensures { IfOk result (λ copy. copy.items ≡ rows.now) }
{
    let mut copy = Vec::with_capacity(alloc, rows.len())?;
    for row in rows {
        copy.push(row.copy(alloc)?)?;
    }
    Ok(copy)
}
