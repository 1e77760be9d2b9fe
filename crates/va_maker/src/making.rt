// The certificate of a search.
ghost use Rattle.std.specs.Prelude.{◌≡◌, ◌≤◌, length, IfOk, IfErr};
ghost use Rattle.va_bound.specs.Tables.{AreBounds};
ghost use Rattle.va_bounded.specs.CellReads.{IfOwn, IfTold};
ghost use Rattle.va_maker.specs.Coded.{NameSlices};
ghost use Rattle.va_maker.specs.Making.{ReadNeeded, StoppedMaking, cert_of, clamped_cert, items_of};
ghost use Rattle.va_maker.specs.Rows.{coded_cert};
ghost use Rattle.va_cert.specs.Reasons.{Accepts};
ghost use Rattle.va_cert.specs.Telling.{AreTelling};
ghost use Rattle.va_ports.specs.Faults.{CountsShelfFaults};
ghost use Rattle.va_ports.specs.Searches.{GoesOn};

use crate::coded::{CodedCell, coded_cells};
use crate::copies::{objects_of, words_of};
use crate::rows::{boxes_of, takens_of};
use crate::searching::{KeptSearch, search_keeping};
use std::alloc::{AllocError, Global};
use va_bound::Bounds;
use va_cert::Certificate;
use va_dist::Query;
use va_marks::Marks;
use va_ports::{SearchFault, Shelf};

/// The certificate of the answer to k: the answer, the box of each cell, and each vector that `nearest` fetches, with a
/// substitute of the same cell that gives another answer.
///
/// It fetches what `nearest` does, in its order. `Memory` may come after fetches here. `Shelf` comes where a call of
/// the shelf failed, and `Mismatch` at the first vector whose distance lies outside the bounds of its cell.
pub fn build<S: Shelf>(
    alloc: Global,
    shelf: &mut S,
    query: &Query,
    k: u16,
) -> Result<Certificate, SearchFault>
    requires some { 1 ≤ k }
    requires dims { length query.now.weights ≡ (S.contents shelf.old).shape.dims }
    requires few { length (S.contents shelf.old).cells ≤ 4096 }
    // Where each vector lies in its cell.
    ensures made { IfOk result (λ made. IfOwn S.Shelf shelf.old (λ held. made ≡ cert_of held query.now k)) }
    ensures telling { IfOk result (λ made. IfOwn S.Shelf shelf.old (λ held.
        AreTelling (items_of held) held.marks query.now k made.fetched)) }
    ensures accepted { IfOk result (λ made. IfOwn S.Shelf shelf.old (λ held. k ≤ 4096 → Accepts made)) }
    // Wherever they lie.
    ensures known { IfOk result (λ made. IfTold S.Shelf shelf.old (λ held. made ≡ clamped_cert held query.now k)) }
    ensures asked { IfOk result (λ made.
        (made.k ≡ k) × (made.objects ≡ query.now.objects) × (made.weights ≡ query.now.weights)) }
    ensures read { IfOk result (λ made. ReadNeeded S.Shelf query.now k shelf.old shelf.new) }
    ensures stopped { IfErr result (StoppedMaking S.Shelf query.now k shelf.old shelf.new) }
    ensures contents { S.contents shelf.new ≡ S.contents shelf.old }
    ensures goes_on { GoesOn S.Shelf shelf.old shelf.new }
    ensures cause { CountsShelfFaults (S.faults shelf.old) (S.faults shelf.new) result }
{
    let bounds = Bounds::of(alloc, shelf.marks(), query)?;
    let cells = coded_cells(alloc, shelf)?;
    let found = search_keeping(alloc, shelf, query, k)?;
    match certificate(alloc, shelf.marks(), &bounds, query, k, &cells, found) {
        Ok(made) => Ok(made),
        Err(_) => Err(SearchFault::Memory),
    }
}

// Puts together what was found.
fn certificate(
    alloc: Global,
    marks: &Marks,
    bounds: &Bounds,
    query: &Query,
    k: u16,
    cells: &[CodedCell],
    found: KeptSearch,
) -> Result<Certificate, AllocError>
    requires bounds { AreBounds marks.now query.now bounds.now }
    requires few { length marks.now ≤ 256 }
    requires names { NameSlices marks.now cells.now }
    requires dims { found.kept.dims ≡ length marks.now }
    ensures { IfOk result (λ made.
        made ≡ coded_cert marks.now query.now k cells.now found.pairs found.kept.vectors) }
{
    let boxes = boxes_of(alloc, marks, cells)?;
    let fetched = takens_of(alloc, bounds, query, cells, &found.kept)?;
    let objects = objects_of(alloc, query)?;
    let weights = words_of(alloc, query.weights())?;
    Ok(Certificate {
        answer: found.pairs,
        boxes,
        fetched,
        k,
        objects,
        weights,
    })
}
