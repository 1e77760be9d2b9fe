// The place whose code was found changed.
ghost use Rattle.std.specs.Prelude.{◌≡◌, ◌<◌, ℕ, length};
ghost use Rattle.va_cells.specs.Slices.{slices_of};
ghost use Rattle.va_core.specs.Cells.{NamesSlices};
ghost use Rattle.va_core.specs.Shape.{code_bytes};
ghost use Rattle.va_store.specs.Shelved.{IsOrderly, changed_after, noted, started};

use crate::Store;
use va_cells::unpack_cell;

impl Store {
    /// The first live place where a scan of a shelf met a code that names no cell: a bit of its padding is 1, or one of its
    /// slices is empty. There is none where the disk tells its bytes.
    pub fn changed(&self) -> Option<u32>
        ensures { result ≡ self.now.changed }
    {
        self.changed
    }

    // Writes the slices of a place's code. Where it names no cell they are those of the vector of zeros, and the place is
    // noted, unless an earlier one was.
    pub(crate) fn take_code(&mut self, place: u32, code: &[u8], slices: &mut [u8])
        requires whole { length code.now ≡ code_bytes self.old.shape }
        requires room { length slices.old ≡ self.old.shape.dims }
        ensures store { self.new ≡ record self.old { changed = self.new.changed } }
        ensures changed { self.new.changed ≡ changed_after self.old place code.now }
        ensures slices { slices.new ≡ slices_of self.old.shape self.old.marks code.now }
        ensures names { NamesSlices self.old.marks slices.new }
        ensures length { length slices.new ≡ length slices.old }
    {
        let shape = self.layout.shape();
        let named = unpack_cell(shape, &self.marks, code, slices);
        self.note(place, named);
    }

    // Notes a place whose code names no cell, unless an earlier one was noted.
    fn note(&mut self, place: u32, named: bool)
        ensures { self.new ≡ record self.old { changed = noted named self.old.changed place } }
    {
        if named {
            return;
        }
        if self.changed.is_none() {
            self.changed = Some(place);
        }
    }

    // Starts the scan anew.
    pub(crate) fn start(&mut self)
        ensures { self.new ≡ started self.old }
    {
        self.pages.rewind();
    }

    // No id lives in two places, and the marks are valid and have the shape.
    pub(crate) fn is_orderly(&self)
        ensures { IsOrderly self.now }
    {
        self.index.lists_once();
        let _dims = self.layout.shape().dims();
    }
}
