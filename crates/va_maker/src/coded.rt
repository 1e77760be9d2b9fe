// The cells of a shelf with their codes.
ghost use Rattle.std.specs.Prelude.{◌≡◌, [], length, map, IfOk, IfErr, IfSome};
ghost use Rattle.va_bounded.specs.CellReads.{IfTold};
ghost use Rattle.va_core.specs.Cells.{NamesSlices};
ghost use Rattle.va_maker.specs.Coded.{AreCoded, NameSlices, cell_in, cell_of, coded_at};
ghost use Rattle.va_ports.specs.Faults.{CountsShelfFaults, IfMismatch};
ghost use Rattle.va_ports.specs.Shelves.{Gave};

use crate::copies::bytes_of;
use std::alloc::Global;
use va_core::Bytes;
use va_ports::{SearchFault, Shelf};

/// A cell, and the slice of each dimension.
#[derive(Drop)]
pub struct CodedCell {
    pub place: u32,
    pub id: u32,
    pub code: Bytes,
}

/// The cells of a shelf, ascending by id. None of their slices is empty. Nothing is fetched.
pub fn coded_cells<S: Shelf>(alloc: Global, shelf: &mut S) -> Result<Vec<CodedCell>, SearchFault>
    ensures cells { IfOk result (λ cells. AreCoded S.told (S.contents shelf.old) cells.items) }
    ensures never { IfErr result (λ why. IfMismatch why (λ _ _ _ _. ⊥)) }
    ensures contents { S.contents shelf.new ≡ S.contents shelf.old }
    ensures passes { S.passes shelf.old [] shelf.new }
    ensures cause { CountsShelfFaults (S.faults shelf.old) (S.faults shelf.new) result }
{
    let mut cells = scan(alloc, shelf)?;
    cells.sort_unstable_by_key(|cell| cell.id);
    Ok(cells)
}

// All cells, in the order of the scan.
fn scan<S: Shelf>(alloc: Global, shelf: &mut S) -> Result<Vec<CodedCell>, SearchFault>
    ensures names { IfOk result (λ cells. NameSlices (S.contents shelf.old).marks cells.items) }
    ensures all { IfOk result (λ cells. IfTold S.Shelf shelf.old (λ held.
        cells.items ≡ map (coded_at held) held.cells)) }
    ensures never { IfErr result (λ why. IfMismatch why (λ _ _ _ _. ⊥)) }
    ensures contents { S.contents shelf.new ≡ S.contents shelf.old }
    ensures passes { S.passes shelf.old [] shelf.new }
    ensures cause { CountsShelfFaults (S.faults shelf.old) (S.faults shelf.new) result }
{
    let dims = usize::from(shelf.shape().dims());
    let mut code = [0; 256];
    let mut cells = Vec::new(alloc);
    shelf.rewind();
    while let Some(cell) = next_coded(alloc, shelf, &mut code[..dims])? {
        let Ok(()) = cells.push(cell) else {
            return Err(SearchFault::Memory);
        };
    }
    Ok(cells)
}

// The next cell, with a copy of its code.
fn next_coded<S: Shelf>(
    alloc: Global,
    shelf: &mut S,
    code: &mut [u8],
) -> Result<Option<CodedCell>, SearchFault>
    requires { length code.old ≡ (S.contents shelf.old).shape.dims }
    ensures gave { IfOk result (λ next. Gave (cell_in next) (S.left shelf.old) (S.left shelf.new)) }
    ensures names { IfOk result (λ next. IfSome next (λ cell. NamesSlices (S.contents shelf.old).marks cell.code)) }
    ensures code { IfOk result (λ next. IfSome next (λ cell. IfTold S.Shelf shelf.old (λ held.
        cell ≡ coded_at held (cell_of cell)))) }
    ensures never { IfErr result (λ why. IfMismatch why (λ _ _ _ _. ⊥)) }
    ensures length { length code.new ≡ length code.old }
    ensures contents { S.contents shelf.new ≡ S.contents shelf.old }
    ensures passes { S.passes shelf.old [] shelf.new }
    ensures cause { CountsShelfFaults (S.faults shelf.old) (S.faults shelf.new) result }
{
    match shelf.next_cell(code) {
        Ok(Some((place, id))) => match bytes_of(alloc, code) {
            Ok(code) => Ok(Some(CodedCell { place, id, code })),
            Err(_) => Err(SearchFault::Memory),
        },
        Ok(None) => Ok(None),
        Err(fault) => Err(SearchFault::Shelf(fault)),
    }
}
