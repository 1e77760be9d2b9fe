// The rows of a certificate.
ghost use Rattle.std.specs.Prelude.{◌≡◌, ◌+◌, ◌-◌, ◌<◌, ◌≤◌, ◌∷◌, [], length, map, get_or, IfOk};
ghost use Rattle.std.specs.List.{AllByRecursion};
ghost use Rattle.va_bound.specs.Tables.{HasEntries, Tells};
ghost use Rattle.va_core.specs.Boxes as boxes;
ghost use Rattle.va_core.specs.Cells.{NamesSlices, box};
ghost use Rattle.va_core.specs.Distance.{distance};
ghost use Rattle.va_core.specs.Marks.{row_at};
ghost use Rattle.va_maker.specs.Coded.{NameSlices};
ghost use Rattle.va_maker.specs.Rows.{UnderMarks, coded_row, coded_taken, coded_takens};

use crate::coded::CodedCell;
use crate::copies::bytes_of;
use crate::kept::KeptVectors;
use std::alloc::{AllocError, Global};
use va_bound::Bounds;
use va_cert::{BoxRow, BoxRows, Taken, Takens};
use va_core::Bytes;
use va_dist::Query;
use va_marks::Marks;

/// The boxes of the cells.
pub fn boxes_of(alloc: Global, marks: &Marks, cells: &[CodedCell]) -> Result<BoxRows, AllocError>
    requires names { NameSlices marks.now cells.now }
    requires few { length marks.now ≤ 256 }
    ensures { IfOk result (λ rows. rows ≡ map (coded_row marks.now) cells.now) }
{
    let mut rows = Vec::with_capacity(alloc, cells.len())?;
    for cell in cells {
        let row = box_of(alloc, marks, cell)?;
        rows.push(row)?;
    }
    Ok(BoxRows(rows))
}

fn box_of(alloc: Global, marks: &Marks, cell: &CodedCell) -> Result<BoxRow, AllocError>
    requires names { NamesSlices marks.now cell.now.code }
    requires few { length marks.now ≤ 256 }
    ensures { IfOk result (λ row. row ≡ coded_row marks.now cell.now) }
{
    let code = cell.code.as_slice();
    let mut low = Vec::with_capacity(alloc, code.len())?;
    let mut high = Vec::with_capacity(alloc, code.len())?;
    for dim in 0..code.len() {
        let (first, last) = ends_of(marks, dim as u16, code[dim]);
        low.push(first)?;
        high.push(last)?;
    }
    Ok(BoxRow {
        id: cell.id,
        low: Bytes(low),
        high: Bytes(high),
    })
}

// The least and the greatest value of a slice that isn't empty.
fn ends_of(marks: &Marks, dim: u16, slice: u8) -> (u8, u8)
    requires dim { dim < length marks.now }
    requires inside { slice + 1 < length (row_at marks.now dim) }
    requires full { get_or (row_at marks.now dim) slice 0 < get_or (row_at marks.now dim) (slice + 1) 0 }
    ensures low { result.0 ≡ get_or (row_at marks.now dim) slice 0 }
    ensures high { result.1 ≡ get_or (row_at marks.now dim) (slice + 1) 0 - 1 }
{
    let slice = u16::from(slice);
    let first = marks.mark(dim, slice);
    let next = marks.mark(dim, slice + 1);
    (first as u8, (next - 1) as u8)
}

/// The vectors that were kept of the cells, with their substitutes.
pub fn takens_of(
    alloc: Global,
    bounds: &Bounds,
    query: &Query,
    cells: &[CodedCell],
    kept: &KeptVectors,
) -> Result<Takens, AllocError>
    requires entries { AllByRecursion (λ cell. HasEntries bounds.now cell.code) cells.now }
    requires bounds { bounds.now.dims ≡ length query.now.weights }
    requires kept { kept.now.dims ≡ length query.now.weights }
    ensures { IfOk result (λ takens. UnderMarks query.now bounds.now cells.now (λ marks.
        takens ≡ coded_takens marks query.now kept.now.vectors cells.now)) }
{
    let mut takens = Vec::new(alloc);
    for cell in cells {
        let Some(vector) = kept.vector_of(cell.place) else {
            continue;
        };
        let taken = taken_of(alloc, bounds, query, cell, vector)?;
        takens.push(taken)?;
    }
    Ok(Takens(takens))
}

fn taken_of(
    alloc: Global,
    bounds: &Bounds,
    query: &Query,
    cell: &CodedCell,
    vector: &[u8],
) -> Result<Taken, AllocError>
    requires entries { HasEntries bounds.now cell.now.code }
    requires bounds { bounds.now.dims ≡ length query.now.weights }
    requires vector { length vector.now ≡ length query.now.weights }
    ensures { IfOk result (λ taken. UnderMarks query.now bounds.now (cell.now ∷ []) (λ marks.
        taken ≡ coded_taken marks query.now cell.now vector.now)) }
{
    let mut other = vec![in alloc; 0; vector.len()]?;
    substitute(bounds, query, cell.code.as_slice(), vector, &mut other);
    Ok(Taken {
        id: cell.id,
        vector: bytes_of(alloc, vector)?,
        other: Bytes(other),
    })
}

// The vector at the least distance of its box, or at the greatest one where its own distance is the least.
fn substitute(bounds: &Bounds, query: &Query, code: &[u8], vector: &[u8], out: &mut [u8])
    requires entries { HasEntries bounds.now code.now }
    requires bounds { bounds.now.dims ≡ length query.now.weights }
    requires vector { length vector.now ≡ length query.now.weights }
    requires room { length out.old ≡ length query.now.weights }
    ensures { Tells bounds.now code.now (λ marks asked. asked ≡ query.now →
        out.new ≡ boxes.substitute (distance asked) (box marks code.now) vector.now) }
{
    if query.distance(vector) == bounds.low(code) {
        bounds.greatest_in(code, out);
    } else {
        bounds.least_in(code, out);
    }
}
