// The live places of a store over its disk, as a shelf.
ghost use Rattle.std.specs.Prelude.{◌≡◌, ◌<◌, [], ◌∷◌, List, ℕ, None, false, length, refl, OnOk, OnErr, IfOk, IfSome};
ghost use Rattle.std.proofs.Common.{◌∙◌};
ghost use Rattle.va_core.specs.Causes.{HasCause};
ghost use Rattle.va_core.specs.Cells.{NamesSlices};
ghost use Rattle.va_ports.specs.Shelves.{Gave, place_of};
ghost use Rattle.va_store.specs.Known.{Fits};
ghost use Rattle.va_store.specs.ShelfLaws.{is_sound, passes_none, passes_both, stands};
ghost use Rattle.va_store.specs.Shelved.{IsMet, IsShelved, Passes, ScansOn, ShelvesItems, ShelvesOwnCells, contents_of, left_of, started};

use crate::Store;
use crate::next_cell::next_cell;
use va_core::Shape;
use va_disk::{Disk, Storage};
use va_marks::Marks;
use va_ports::{Shelf, ShelfFault};
use va_rows::fetch;

/// The live places of a store, with their codes in the selected region and their vectors. It is lent the store and the disk,
/// and gives both back when it ends.
///
/// A scan reads the codes from the disk, in pieces, each once and in order.
#[derive(Drop)]
pub struct StoreShelf<'a, D: Disk> {
    store: &'a mut Store,
    disk: &'a mut D,
    ghost shelved: { IsShelved D.told store.now (D.size disk.now) (D.image disk.now) },
}

impl Store {
    /// The live places as a shelf over the disk, whose scan stands at the beginning.
    ///
    /// When it has ended the store is as it was, but for where its scan stands and for `changed`.
    pub fn shelf<'a, D: Disk>(&'a mut self, disk: &'a mut D) -> StoreShelf<'a, D>
        requires fits { Fits D.Storage self.old disk.old }
        ensures same_store { result.store.ghost_name ≡ self.entry.ghost_name }
        ensures same_disk { result.disk.ghost_name ≡ disk.entry.ghost_name }
        ensures store { result.store.now ≡ started self.entry.now }
        ensures disk { result.disk.now ≡ disk.entry.now }
        ensures fits { Fits D.Storage result.store.now result.disk.now }
        ensures contents { contents_of result.store.now (D.image result.disk.now) ≡ contents_of self.entry.now (D.image disk.entry.now) }
        // Its cells are the live items of what is kept, and each vector lies in its cell.
        ensures items { ShelvesItems self.entry.now (D.image disk.entry.now) }
        ensures own { D.told → self.entry.now.broken ≡ false → ShelvesOwnCells self.entry.now (D.image disk.entry.now) }
    {
        self.is_orderly();
        self.start();
        StoreShelf { store: self, disk }
    }
}

impl<'a, D: Disk> Shelf for StoreShelf<'a, D> {
    ghost told = { D.told };

    ghost contents = { λ s. contents_of s.store.now (D.image s.disk.now) };

    ghost left = { λ s. left_of s.store.now };

    // The same store and disk are lent, and Passes holds of them.
    ghost passes = { λ old places new.
        (new.store.ghost_name ≡ old.store.ghost_name) × (new.disk.ghost_name ≡ old.disk.ghost_name)
        × Passes D.Storage old.store.now old.disk.now places new.store.now new.disk.now };

    ghost faults = { λ s. D.faults s.disk.now };

    fn shape(&self) -> Shape {
        self.store.shape()
    }

    fn marks(&self) -> &Marks {
        let store = &*self.store;
        &store.marks
    }

    fn live(&self) -> u32 {
        self.store.live()
    }

    fn rewind(&mut self)
        ensures left { left_of self.new.store.now ≡ (contents_of self.old.store.now (D.image self.old.disk.now)).cells }
        ensures contents { contents_of self.new.store.now (D.image self.new.disk.now) ≡ contents_of self.old.store.now (D.image self.old.disk.now) }
        ensures passes { (self.new.store.ghost_name ≡ self.old.store.ghost_name) × (self.new.disk.ghost_name ≡ self.old.disk.ghost_name)
            × Passes D.Storage self.old.store.now self.old.disk.now [] self.new.store.now self.new.disk.now }
        ensures faults { D.faults self.new.disk.now ≡ D.faults self.old.disk.now }
        // Its pieces are read anew.
        ensures store { self.new.store.now ≡ started self.old.store.now }
        ensures disk { self.new.disk.now ≡ self.old.disk.now }
    {
        self.store.start();
    }

    fn next_cell(&mut self, code: &mut [u8]) -> Result<Option<(u32, u32)>, ShelfFault>
        requires { length code.old ≡ self.old.store.now.shape.dims }
        ensures gave { IfOk result (λ next. Gave next (left_of self.old.store.now) (left_of self.new.store.now)) }
        ensures code { IfOk result (λ next. IfSome next (λ cell. D.told → code.new ≡ (contents_of self.old.store.now (D.image self.old.disk.now)).code (place_of cell))) }
        ensures names { IfOk result (λ next. IfSome next (λ cell. NamesSlices self.old.store.now.marks code.new)) }
        ensures left { OnErr result (left_of self.new.store.now ≡ left_of self.old.store.now) }
        ensures length { length code.new ≡ length code.old }
        ensures contents { contents_of self.new.store.now (D.image self.new.disk.now) ≡ contents_of self.old.store.now (D.image self.old.disk.now) }
        ensures passes { (self.new.store.ghost_name ≡ self.old.store.ghost_name) × (self.new.disk.ghost_name ≡ self.old.disk.ghost_name)
            × Passes D.Storage self.old.store.now self.old.disk.now [] self.new.store.now self.new.disk.now }
        ensures cause { HasCause (D.faults self.old.disk.now) (D.faults self.new.disk.now) result }
        ensures stayed { OnOk result (D.faults self.new.disk.now ≡ D.faults self.old.disk.now) }
        // The next pieces of the selected region were read, each once and in order, and all of them once there is no cell left.
        ensures scan { ScansOn D.Storage self.old.store.now self.old.disk.now self.new.store.now self.new.disk.now }
        ensures all { IfOk result (λ next. next ≡ None → self.new.store.now.scan.end ≡ self.old.store.now.shape.capacity) }
        // A code that names no cell is noted, and no other one.
        ensures met { IfOk result (λ next. IfSome next (IsMet D.Storage self.old.store.now self.old.disk.now self.new.store.now code.new)) }
        ensures end { IfOk result (λ next. next ≡ None → self.new.store.now.changed ≡ self.old.store.now.changed) }
        ensures failed { OnErr result (self.new.store.now.changed ≡ self.old.store.now.changed) }
    {
        match next_cell(self.store, self.disk, code) {
            Ok(next) => Ok(next),
            Err(_) => Err(ShelfFault),
        }
    }

    fn fetch(&mut self, place: u32, out: &mut [u8]) -> Result<(), ShelfFault>
        requires place { place < self.old.store.now.shape.capacity }
        requires length { length out.old ≡ self.old.store.now.shape.dims }
        ensures vector { OnOk result (D.told → out.new ≡ (contents_of self.old.store.now (D.image self.old.disk.now)).vector place) }
        ensures length { length out.new ≡ length out.old }
        ensures left { left_of self.new.store.now ≡ left_of self.old.store.now }
        ensures contents { contents_of self.new.store.now (D.image self.new.disk.now) ≡ contents_of self.old.store.now (D.image self.old.disk.now) }
        ensures passes { OnOk result (
            (self.new.store.ghost_name ≡ self.old.store.ghost_name) × (self.new.disk.ghost_name ≡ self.old.disk.ghost_name)
            × Passes D.Storage self.old.store.now self.old.disk.now (place ∷ []) self.new.store.now self.new.disk.now) }
        ensures failed { OnErr result (
            (self.new.store.ghost_name ≡ self.old.store.ghost_name) × (self.new.disk.ghost_name ≡ self.old.disk.ghost_name)
            × Passes D.Storage self.old.store.now self.old.disk.now [] self.new.store.now self.new.disk.now) }
        ensures cause { HasCause (D.faults self.old.disk.now) (D.faults self.new.disk.now) result }
        ensures stayed { OnOk result (D.faults self.new.disk.now ≡ D.faults self.old.disk.now) }
        // The scan and what it holds stay.
        ensures store { self.new.store.now ≡ self.old.store.now }
    {
        let store = &*self.store;
        match fetch(self.disk, &store.layout, place, out) {
            Ok(()) => Ok(()),
            Err(_) => Err(ShelfFault),
        }
    }

    ghost sound = { λ s. is_sound s.store.now (D.image s.disk.now) s.shelved.orderly };

    ghost stands = { λ s. stands s.store.now (D.image s.disk.now) };

    ghost passes_none = { λ s. (refl, refl, passes_none ⟦<D as Storage>⟧ s.store.now s.disk.now) };

    ghost passes_both = { λ old mid new first second a b. (
      b.0 ∙ a.0,
      b.1 ∙ a.1,
      passes_both ⟦<D as Storage>⟧ old.store.now mid.store.now new.store.now old.disk.now mid.disk.now new.disk.now first second a.2 b.2,
    ) };
}
