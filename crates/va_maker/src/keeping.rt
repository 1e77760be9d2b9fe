// A shelf that passes each call on and keeps each vector that is fetched.
ghost use Rattle.std.specs.Prelude.{◌≡◌, refl};
ghost use Rattle.std.proofs.Common.{◌∙◌};
ghost use Rattle.va_maker.specs.Keeps.{Passes};
ghost use Rattle.va_maker.specs.KeepsLaws.{passes_none, passes_both};

use crate::kept::KeptVectors;
use va_core::Shape;
use va_marks::Marks;
use va_ports::{Shelf, ShelfFault};

/// It is lent the shelf and the room for the vectors, each for a time of its own, and gives both back when it ends.
#[derive(Drop)]
pub struct Keeping<'a, 'b, S: Shelf> {
    pub shelf: &'a mut S,
    pub kept: &'b mut KeptVectors,
    ghost fits: { kept.now.dims ≡ (S.contents shelf.now).shape.dims },
}

impl<'a, 'b, S: Shelf> Shelf for Keeping<'a, 'b, S> {
    ghost told = { S.told };

    ghost contents = { λ k. S.contents k.shelf.now };

    ghost left = { λ k. S.left k.shelf.now };

    // The same shelf and room are lent, and Passes holds of them.
    ghost passes = { λ old places new.
        (new.shelf.ghost_name ≡ old.shelf.ghost_name) × (new.kept.ghost_name ≡ old.kept.ghost_name)
        × Passes S.Shelf old.shelf.now places new.shelf.now old.kept.now new.kept.now };

    ghost faults = { λ k. S.faults k.shelf.now };

    fn shape(&self) -> Shape {
        self.shelf.shape()
    }

    fn marks(&self) -> &Marks {
        self.shelf.marks()
    }

    fn live(&self) -> u32 {
        self.shelf.live()
    }

    fn rewind(&mut self) {
        self.shelf.rewind()
    }

    fn next_cell(&mut self, code: &mut [u8]) -> Result<Option<(u32, u32)>, ShelfFault> {
        self.shelf.next_cell(code)
    }

    fn fetch(&mut self, place: u32, out: &mut [u8]) -> Result<(), ShelfFault> {
        self.shelf.fetch(place, out)?;
        self.kept.push(place, out);
        Ok(())
    }

    ghost sound = { λ k. S.sound k.shelf.now };

    ghost stands = { λ k. S.stands k.shelf.now };

    ghost passes_none = { λ k.
        (refl, refl, passes_none ⟦<S as Shelf>⟧ k.shelf.now k.kept.now (S.passes_none k.shelf.now)) };

    ghost passes_both = { λ old mid new first second a b. (
      b.0 ∙ a.0,
      b.1 ∙ a.1,
      passes_both ⟦<S as Shelf>⟧ first second
          (S.passes_both old.shelf.now mid.shelf.now new.shelf.now first second) a.2 b.2,
    ) };
}
