// The cells and vectors that a search works on.
ghost use Rattle.std.specs.Prelude.{◌≡◌, ◌<◌, ◌≤◌, ◌++◌, [], ◌∷◌, List, ℕ, length, IfOk, IfSome, OnOk, OnErr};
ghost use Rattle.va_core.specs.Causes.{HasCause};
ghost use Rattle.va_core.specs.Cells.{NamesSlices};
ghost use Rattle.va_ports.specs.Shelves.{Contents, Gave, IsLeft, IsSound, place_of};

use va_core::Shape;
use va_marks::Marks;

/// The shelf failed in a call.
#[derive(Clone, Copy, Debug, PartialEq, Eq)]
pub struct ShelfFault;

/// Cells in ascending place, with a scan that gives their codes one by one, and the vectors of places.
///
/// No call changes the shape, the marks, the cells, the codes or the vectors.
pub trait Shelf {
    /// Whether it tells codes, vectors and fetches.
    ghost told: { Type 0 };

    /// Its shape, marks and cells are always told, its codes and vectors where the shelf tells them.
    ghost contents: { Self → Contents };

    /// The cells that the scan hasn't given yet.
    ghost left: { Self → List (ℕ × ℕ) };

    /// The places that were fetched between an earlier and a later state, where told, and what else stayed between
    /// the two, told or not. Each shelf names this.
    ghost passes: { Self → List ℕ → Self → Type 0 };

    /// How often it has failed.
    ghost faults: { Self → ℕ };

    fn shape(&self) -> Shape
        ensures { result ≡ (contents self.now).shape };

    /// Lends the marks, which have the shape.
    fn marks(&self) -> &Marks
        ensures { result.now ≡ (contents self.now).marks };

    /// How many cells there are.
    fn live(&self) -> u32
        ensures { result ≡ length (contents self.now).cells };

    /// Starts the scan anew.
    fn rewind(&mut self)
        ensures left { left self.new ≡ (contents self.old).cells }
        ensures contents { contents self.new ≡ contents self.old }
        ensures passes { passes self.old [] self.new }
        ensures faults { faults self.new ≡ faults self.old };

    /// The place and the id of the next cell, or `None` at the end of the list. It writes the slices of the cell
    /// into `code`, of `dims` bytes. After a fault the scan stands where it stood.
    fn next_cell(&mut self, code: &mut [u8]) -> Result<Option<(u32, u32)>, ShelfFault>
        requires { length code.old ≡ (contents self.old).shape.dims }
        ensures gave { IfOk result (λ next. Gave next (left self.old) (left self.new)) }
        ensures code { IfOk result (λ next. IfSome next (λ cell. told → code.new ≡ (contents self.old).code (place_of cell))) }
        // None of the slices is empty, told or not.
        ensures names { IfOk result (λ next. IfSome next (λ cell. NamesSlices (contents self.old).marks code.new)) }
        ensures left { OnErr result (left self.new ≡ left self.old) }
        ensures length { length code.new ≡ length code.old }
        ensures contents { contents self.new ≡ contents self.old }
        ensures passes { passes self.old [] self.new }
        ensures cause { HasCause (faults self.old) (faults self.new) result }
        ensures stayed { OnOk result (faults self.new ≡ faults self.old) };

    /// Reads the vector of a place into `out`, of `dims` bytes, which after a fault may be anything. The scan stays
    /// where it stands.
    fn fetch(&mut self, place: u32, out: &mut [u8]) -> Result<(), ShelfFault>
        requires place { place < (contents self.old).shape.capacity }
        requires length { length out.old ≡ (contents self.old).shape.dims }
        ensures vector { OnOk result (told → out.new ≡ (contents self.old).vector place) }
        ensures length { length out.new ≡ length out.old }
        ensures left { left self.new ≡ left self.old }
        ensures contents { contents self.new ≡ contents self.old }
        ensures passes { OnOk result (passes self.old (place ∷ []) self.new) }
        ensures failed { OnErr result (passes self.old [] self.new) }
        ensures cause { HasCause (faults self.old) (faults self.new) result }
        ensures stayed { OnOk result (faults self.new ≡ faults self.old) };

    /// Marks of the shape, places that ascend below the capacity, and ids that differ.
    ghost sound: { (shelf : Self) → IsSound (contents shelf) };

    /// The scan stands in the list of the cells.
    ghost stands: { (shelf : Self) → IsLeft (contents shelf).cells (left shelf) };

    /// Between a state and itself nothing was fetched.
    ghost passes_none: { (shelf : Self) → passes shelf [] shelf };

    /// What was fetched between states that follow one another is joined.
    ghost passes_both: { (old mid new : Self) (first second : List ℕ) → passes old first mid → passes mid second new → passes old (first ++ second) new };
}
