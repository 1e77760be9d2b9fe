// A shelf in memory.
ghost use Rattle.std.specs.Prelude.{◌≡◌, ◌≢◌, ◌<◌, ◌++◌, [], ◌∷◌, ℕ, length, IfOk, OnOk, OnErr};
ghost use Rattle.std.specs.List.{AllByRecursion};
ghost use Rattle.va_core.specs.Approximations.{NamesDiffer};
ghost use Rattle.va_core.specs.Shape.{IsShape};
ghost use Rattle.va_core.specs.Marks.{AreValid, HasShape};
ghost use Rattle.va_ports.specs.Props.{dims_prop, ids_prop, places_prop};
ghost use Rattle.va_ports.specs.Shelves.{PlacesAscend, id_of, place_of};
ghost use Rattle.va_ports.specs.TrayCells.{HaveDims, cells_of};

mod shelf;

use crate::tray_cell::TrayCell;
use std::alloc::Global;
use va_core::{Bytes, Memory, Shape};
use va_marks::Marks;

/// A shelf in memory, which tells all. Its calls of `next_cell` and `fetch` are numbered from 0, and those of a list
/// fail. A place without a cell has the vector of zeros.
#[derive(Drop)]
pub struct Tray {
    shape: Shape,
    marks: Marks,
    cells: Vec<TrayCell>,
    at: usize,
    fetched: Vec<u32>,
    fails: Vec<u64>,
    number: u64,
    faults: u64,
    starved: u64,
    ghost is_shape: { IsShape shape },
    ghost has_shape: { HasShape shape marks },
    ghost valid: { AreValid marks },
    ghost places: { PlacesAscend 0 shape.capacity (cells_of cells.items) } by { places_prop 0 shape.capacity (cells_of cells.items) },
    ghost ids: { NamesDiffer id_of (cells_of cells.items) } by { ids_prop (cells_of cells.items) },
    ghost dims: { HaveDims shape.dims cells.items } by { dims_prop shape.dims cells.items },
}

impl Tray {
    ghost use Rattle.va_ports.specs.Tray as tray;

    /// A shelf without cells, which keeps a copy of the marks. Call n of `next_cell` and `fetch` fails where n is in
    /// `fails`. It answers `Memory` only where none is found.
    pub fn new(alloc: Global, shape: Shape, marks: &Marks, fails: Vec<u64>) -> Result<Tray, Memory>
        requires { HasShape shape marks.now }
        ensures shape { IfOk result (λ t. (tray.contents t).shape ≡ shape) }
        ensures marks { IfOk result (λ t. (tray.contents t).marks ≡ marks.now) }
        ensures cells { IfOk result (λ t. (tray.contents t).cells ≡ []) }
        ensures fetched { IfOk result (λ t. tray.fetched t ≡ []) }
        ensures fails { IfOk result (λ t. tray.fails t ≡ fails.items) }
        ensures number { IfOk result (λ t. tray.number t ≡ 0) }
        ensures faults { IfOk result (λ t. tray.faults t ≡ 0) }
        ensures starved { IfOk result (λ t. tray.starved t ≡ 0) }
    {
        let marks = valid_copy(alloc, shape, marks)?;
        // Its numbers are in range.
        let _dims = shape.dims();
        Ok(Tray {
            shape,
            marks,
            cells: Vec::new(alloc),
            at: 0,
            fetched: Vec::new(alloc),
            fails,
            number: 0,
            faults: 0,
            starved: 0,
        })
    }

    /// Adds a cell in a place above those of the others. After a refusal, for want of memory alone, the tray is as
    /// before.
    pub fn put(&mut self, alloc: Global, place: u32, id: u32, vector: &[u8]) -> Result<(), Memory>
        requires above { AllByRecursion (λ cell. place_of cell < place) (tray.contents self.old).cells }
        requires place { place < (tray.contents self.old).shape.capacity }
        requires new { AllByRecursion (λ cell. id_of cell ≢ id) (tray.contents self.old).cells }
        requires dims { length vector.now ≡ (tray.contents self.old).shape.dims }
        ensures cells { OnOk result ((tray.contents self.new).cells ≡ (tray.contents self.old).cells ++ (place, id) ∷ []) }
        ensures vector { OnOk result ((tray.contents self.new).vector place ≡ vector.now) }
        ensures others { OnOk result ((other : ℕ) → other ≢ place → (tray.contents self.new).vector other ≡ (tray.contents self.old).vector other) }
        ensures shape { (tray.contents self.new).shape ≡ (tray.contents self.old).shape }
        ensures marks { (tray.contents self.new).marks ≡ (tray.contents self.old).marks }
        ensures unchanged { OnErr result (tray.contents self.new ≡ tray.contents self.old) }
        ensures fetched { tray.fetched self.new ≡ tray.fetched self.old }
        ensures number { tray.number self.new ≡ tray.number self.old }
        ensures fails { tray.fails self.new ≡ tray.fails self.old }
        ensures faults { tray.faults self.new ≡ tray.faults self.old }
        ensures starved { tray.starved self.new ≡ tray.starved self.old }
    {
        let vector = copy_of(alloc, vector)?;
        let cell = TrayCell { place, id, vector };
        let Ok(()) = self.cells.push(cell) else {
            return Err(Memory);
        };
        Ok(())
    }

    /// How many fetches failed for want of memory.
    pub fn starved(&self) -> u64
        ensures { result ≡ tray.starved self.now }
    {
        self.starved
    }
}

fn copy_of(alloc: Global, bytes: &[u8]) -> Result<Bytes, Memory>
    ensures { IfOk result (λ copy. copy ≡ bytes.now) }
{
    match bytes.to_vec(alloc) {
        Ok(copy) => Ok(Bytes(copy)),
        Err(_) => Err(Memory),
    }
}

// That marks are valid is what a count of them tells.
fn valid_copy(alloc: Global, shape: Shape, marks: &Marks) -> Result<Marks, Memory>
    requires { HasShape shape marks.now }
    ensures copy { IfOk result (λ copy. copy ≡ marks.now) }
    ensures valid { AreValid marks.now }
{
    let _count = marks.count(0);
    marks.copy(alloc)
}
