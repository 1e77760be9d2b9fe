// A tray as a shelf.
ghost use Rattle.std.specs.Prelude.{◌≡◌, ◌<◌, ◌+◌, ◌-◌, ◌^◌, [], ◌∷◌, ℕ, length, min, IfOk, IfSome, OnOk, OnErr, ◌==◌, ◌↔◌, IsErr, IsTrue, false};
ghost use Rattle.std.specs.List.{list_any};
ghost use Rattle.va_core.specs.Causes.{HasCause};
ghost use Rattle.va_core.specs.Cells.{NamesSlices};
ghost use Rattle.va_core.specs.Marks.{AreValid, cell};
ghost use Rattle.va_ports.specs.Shelves.{Gave, place_of};
ghost use Rattle.va_ports.specs.TrayCells.{HaveDims, vector_at};
ghost use Rattle.va_ports.specs.Tray as tray;
ghost use Rattle.va_ports.specs.TrayLaws.{passes_none, passes_both, stands};

use crate::tray_cell::TrayCell;
use crate::{Shelf, ShelfFault, Tray};
use va_core::Shape;
use va_marks::Marks;

impl Shelf for Tray {
    ghost told = { Unit {0} };

    ghost contents = { λ t. tray.contents t };

    ghost left = { λ t. tray.left t };

    ghost passes = { λ old places new. tray.Passes old places new };

    ghost faults = { λ t. tray.faults t };

    fn shape(&self) -> Shape {
        self.shape
    }

    fn marks(&self) -> &Marks {
        &self.marks
    }

    fn live(&self) -> u32 {
        self.cells.len() as u32
    }

    fn rewind(&mut self)
        ensures left { tray.left self.new ≡ (tray.contents self.old).cells }
        ensures contents { tray.contents self.new ≡ tray.contents self.old }
        ensures passes { tray.Passes self.old [] self.new }
        ensures faults { tray.faults self.new ≡ tray.faults self.old }
        ensures number { tray.number self.new ≡ tray.number self.old }
        ensures starved { tray.starved self.new ≡ tray.starved self.old }
    {
        self.at = 0;
    }

    fn next_cell(&mut self, code: &mut [u8]) -> Result<Option<(u32, u32)>, ShelfFault>
        requires { length code.old ≡ (tray.contents self.old).shape.dims }
        ensures gave { IfOk result (λ next. Gave next (tray.left self.old) (tray.left self.new)) }
        ensures code { IfOk result (λ next. IfSome next (λ cell. Unit {0} → code.new ≡ (tray.contents self.old).code (place_of cell))) }
        ensures names { IfOk result (λ next. IfSome next (λ cell. NamesSlices (tray.contents self.old).marks code.new)) }
        ensures left { OnErr result (tray.left self.new ≡ tray.left self.old) }
        ensures length { length code.new ≡ length code.old }
        ensures contents { tray.contents self.new ≡ tray.contents self.old }
        ensures passes { tray.Passes self.old [] self.new }
        ensures cause { HasCause (tray.faults self.old) (tray.faults self.new) result }
        ensures stayed { OnOk result (tray.faults self.new ≡ tray.faults self.old) }
        // Exactly the calls that are listed fail.
        ensures fails { IsErr result ↔ IsTrue (tray.fails_next self.old) }
        ensures number { tray.number self.new ≡ tray.raised (tray.number self.old) }
        ensures starved { tray.starved self.new ≡ tray.starved self.old }
    {
        if self.fails_next() {
            self.faults = self.faults.saturating_add(1);
            return Err(ShelfFault);
        }
        if self.at >= self.cells.len() {
            return Ok(None);
        }
        let cell = &self.cells[self.at];
        write_cell(&self.marks, cell.vector.as_slice(), code);
        let given = (cell.place, cell.id);
        self.at += 1;
        Ok(Some(given))
    }

    fn fetch(&mut self, place: u32, out: &mut [u8]) -> Result<(), ShelfFault>
        requires place { place < (tray.contents self.old).shape.capacity }
        requires length { length out.old ≡ (tray.contents self.old).shape.dims }
        ensures vector { OnOk result (Unit {0} → out.new ≡ (tray.contents self.old).vector place) }
        ensures length { length out.new ≡ length out.old }
        ensures left { tray.left self.new ≡ tray.left self.old }
        ensures contents { tray.contents self.new ≡ tray.contents self.old }
        ensures passes { OnOk result (tray.Passes self.old (place ∷ []) self.new) }
        ensures failed { OnErr result (tray.Passes self.old [] self.new) }
        ensures cause { HasCause (tray.faults self.old) (tray.faults self.new) result }
        ensures stayed { OnOk result (tray.faults self.new ≡ tray.faults self.old) }
        // A listed call fails, and another one only for want of memory.
        ensures fails { IsTrue (tray.fails_next self.old) → IsErr result }
        ensures starved { OnErr result (tray.fails_next self.old ≡ false → tray.starved self.new ≡ tray.raised (tray.starved self.old)) }
        ensures fed { IsTrue (tray.fails_next self.old) → tray.starved self.new ≡ tray.starved self.old }
        ensures fed_ok { OnOk result (tray.starved self.new ≡ tray.starved self.old) }
        ensures number { tray.number self.new ≡ tray.raised (tray.number self.old) }
    {
        if self.fails_next() {
            self.faults = self.faults.saturating_add(1);
            return Err(ShelfFault);
        }
        match self.fetched.push(place) {
            Ok(()) => {
                copy_vector(&self.cells, place, out);
                Ok(())
            }
            Err(_) => {
                self.starved = self.starved.saturating_add(1);
                self.faults = self.faults.saturating_add(1);
                Err(ShelfFault)
            }
        }
    }

    ghost sound = { λ t. record { shape = t.is_shape; has_shape = t.has_shape; valid = t.valid; places = t.places; ids = t.ids } };

    ghost stands = { stands };

    ghost passes_none = { passes_none };

    ghost passes_both = { passes_both };
}

impl Tray {
    // Takes the number of a call, and tells whether it is to fail.
    fn fails_next(&mut self) -> bool
        ensures fails { result ≡ list_any (λ (n : ℕ). n == self.old.number) self.old.fails.items }
        ensures number { self.new ≡ record self.old { number = min (self.old.number + 1) (2 ^ 64 - 1) } }
    {
        let number = self.number;
        self.number = number.saturating_add(1);
        self.fails.as_slice().contains(&number)
    }
}

// Copies the vector of a place, or zeros where it has no cell.
fn copy_vector(cells: &[TrayCell], place: u32, out: &mut [u8])
    requires { HaveDims (length out.old) cells.now }
    ensures { out.new ≡ vector_at (length out.old) cells.now place }
{
    for cell in cells {
        if cell.place == place {
            out.copy_from_slice(cell.vector.as_slice());
            return;
        }
    }
    out.fill(0);
}

// Writes the slices of a vector. None of them is empty.
fn write_cell(marks: &Marks, vector: &[u8], code: &mut [u8])
    requires valid { AreValid marks.now }
    requires vector { length vector.now ≡ length marks.now }
    requires room { length code.old ≡ length marks.now }
    ensures cell { code.new ≡ cell marks.now vector.now }
    ensures names { NamesSlices marks.now code.new }
    ensures length { length code.new ≡ length code.old }
{
    marks.cell(vector, code);
}
