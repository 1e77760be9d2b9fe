// The marks of one dimension, with the slice of each value.
ghost use Rattle.std.specs.Prelude.{◌≡◌, ◌↔◌, ℕ, List, [], ◌+◌, ◌*◌, ◌<◌, ◌≤◌, ◌++◌, length, get_or, sum, take, IfOk, IsTrue};
ghost use Rattle.va_core.specs.Marks.{IsRow, interval, row_of, slice_of};
ghost use Rattle.va_core.specs.MarkBytes.{row_bytes};
ghost use Rattle.va_marks.specs.Rule.{row_by};
ghost use Rattle.va_marks.specs.Tables.{IsTable, RisesStrictly};

use crate::bytes::write_row;
use crate::rule::{equal_widths, quantiles};
use std::alloc::{AllocError, Global};
use std::marker::Model;

// Contracts see the list of the marks. Beside them stands the slice of each of the 256 values, so that
// finding one takes one load.
#[derive(Drop)]
pub struct Row {
    marks: Vec<u16>,
    slices: Vec<u8>,
}

impl Model for Row {
    ghost use Rattle.std.specs.Prelude.{ℕ, List};
    ghost use Rattle.va_marks.specs.Tables.{IsTable};

    ghost Value = { List ℕ };

    ghost view = { λ row. row.marks.items };

    ghost invariant = { λ row. IsTable row.marks.items row.slices.items };
}

impl Row {
    pub fn new(alloc: Global, marks: Vec<u16>) -> Result<Row, AllocError>
        requires valid { IsRow marks.items }
        requires most { length marks.items ≤ 257 }
        ensures row { IfOk result (λ row. row ≡ marks.items) }
        ensures valid { IfOk result IsRow }
    {
        let slices = table(alloc, &marks)?;
        Ok(Row { marks, slices })
    }

    // Slices of equal width.
    pub fn equal(alloc: Global, bits: u8) -> Result<Row, AllocError>
        requires { bits ≤ 8 }
        ensures row { IfOk result (λ row. row ≡ row_of bits []) }
        ensures valid { IfOk result IsRow }
    {
        let marks = equal_widths(alloc, bits)?;
        Row::new(alloc, marks)
    }

    // The marks over so many coordinates, from how often each value stands among them.
    pub fn of_counts(alloc: Global, bits: u8, counts: &[u32], added: u32) -> Result<Row, AllocError>
        requires bits { bits ≤ 8 }
        requires counts { length counts.now ≡ 256 }
        requires added { sum counts.now ≡ added }
        ensures row { IfOk result (λ row. row ≡ row_by bits added counts.now) }
        ensures valid { IfOk result IsRow }
    {
        if added == 0 {
            return Row::equal(alloc, bits);
        }
        let marks = quantiles(alloc, bits, counts, added)?;
        Row::new(alloc, marks)
    }

    pub fn copy(&self, alloc: Global) -> Result<Row, AllocError>
        ensures { IfOk result (λ copy. copy ≡ self.now) }
    {
        let marks = self.marks.to_vec(alloc)?;
        let slices = self.slices.to_vec(alloc)?;
        Ok(Row { marks, slices })
    }

    pub fn slice_of(&self, value: u8) -> u8
        ensures slice { result ≡ slice_of self.now value }
        ensures valid { IsRow self.now }
    {
        self.slices[usize::from(value)]
    }

    pub fn count(&self) -> u16
        ensures count { result ≡ length self.now }
        ensures most { result ≤ 257 }
    {
        self.marks.len() as u16
    }

    pub fn as_slice(&self) -> &[u16]
        ensures { result.now ≡ self.now }
    {
        &self.marks
    }

    pub fn mark(&self, t: u16) -> u16
        requires { t < length self.now }
        ensures mark { result ≡ get_or self.now t 0 }
        ensures most { result ≤ 256 }
    {
        self.marks[usize::from(t)]
    }

    pub fn interval(&self, slice: u8) -> Option<(u8, u8)>
        requires { slice + 1 < length self.now }
        ensures { result ≡ interval self.now slice }
    {
        let first = self.mark(u16::from(slice));
        let next = self.mark(u16::from(slice) + 1);
        if first < next {
            Some((first as u8, (next - 1) as u8))
        } else {
            None
        }
    }

    // Whether no slice is empty.
    pub fn rises_strictly(&self) -> bool
        ensures { IsTrue result ↔ RisesStrictly self.now }
    {
        let marks = self.as_slice();
        for t in 1..marks.len() {
            if marks[t - 1] >= marks[t] {
                return false;
            }
        }
        true
    }

    // Writes the marks from an offset on, and answers the offset behind them.
    pub fn write(&self, at: usize, out: &mut [u8]) -> usize
        requires { at + 2 * length self.now ≤ length out.old }
        ensures end { result ≡ at + 2 * length self.now }
        ensures written { take result out.new ≡ take at out.old ++ row_bytes self.now }
    {
        write_row(&self.marks, at, out)
    }
}

// The slice of each value. Slices rise with the value, so that one walk through the marks finds all.
fn table(alloc: Global, marks: &[u16]) -> Result<Vec<u8>, AllocError>
    requires valid { IsRow marks.now }
    requires most { length marks.now ≤ 257 }
    ensures { IfOk result (λ slices. IsTable marks.now slices.items) }
{
    let mut slices = Vec::with_capacity(alloc, 256)?;
    let mut slice = 0;
    for value in 0..256u16 {
        slice = slice_from(marks, slice, value);
        slices.push(slice as u8)?;
    }
    Ok(slices)
}

// The slice of a value, which is `slice` or a later one.
fn slice_from(marks: &[u16], mut slice: usize, value: u16) -> usize
    requires valid { IsRow marks.now }
    requires inside { slice + 1 < length marks.now }
    requires from { get_or marks.now slice 0 ≤ value }
    requires a_value { value < 256 }
    ensures inside { result + 1 < length marks.now }
    ensures low { get_or marks.now result 0 ≤ value }
    ensures high { value < get_or marks.now (result + 1) 0 }
{
    while marks[slice + 1] <= value {
        slice += 1;
    }
    slice
}
