// The cell that a packed code names.
ghost use Rattle.std.specs.Prelude.{◌≡◌, ◌↔◌, ◌+◌, ◌<◌, ◌≤◌, ℕ, None, false, get_or, length, replicate, IsTrue};
ghost use Rattle.va_core.specs.Cells.{NamesSlices};
ghost use Rattle.va_core.specs.Marks.{HasShape, cell, interval, row_at};
ghost use Rattle.va_core.specs.Shape.{code_bytes};
ghost use Rattle.va_layout.specs.Fields.{NamesCell};
ghost use Rattle.va_pack.specs.Unpacked.{IsNamed, unpacked};

use va_core::Shape;
use va_marks::Marks;
use va_pack::unpack;

/// Whether a packed code, of `code_bytes` bytes, has no padding bit that is 1 and names no empty slice.
pub fn names_cell(shape: Shape, marks: &Marks, code: &[u8]) -> bool
    requires shape { HasShape shape marks.now }
    requires whole { length code.now ≡ code_bytes shape }
    ensures cell { IsTrue result ↔ NamesCell shape marks.now code.now }
    ensures named { IsTrue result ↔ IsNamed shape marks.now code.now }
{
    let mut buffer = [0; 256];
    unpack_cell(shape, marks, code, &mut buffer[..usize::from(shape.dims())])
}

/// Writes the slices that a packed code names, a byte for each of the `dims` dimensions, and answers whether it has no
/// padding bit that is 1 and names no empty slice. Otherwise the slices of the vector of zeros are written, so that
/// they aren't empty either.
pub fn unpack_cell(shape: Shape, marks: &Marks, code: &[u8], slices: &mut [u8]) -> bool
    requires shape { HasShape shape marks.now }
    requires whole { length code.now ≡ code_bytes shape }
    requires room { length slices.old ≡ shape.dims }
    ensures cell { IsTrue result ↔ NamesCell shape marks.now code.now }
    ensures named { IsTrue result ↔ IsNamed shape marks.now code.now }
    ensures slices { IsTrue result → slices.new ≡ unpacked shape code.now }
    ensures zeros { result ≡ false → slices.new ≡ cell marks.now (replicate shape.dims 0) }
    ensures names { NamesSlices marks.now slices.new }
    ensures length { length slices.new ≡ length slices.old }
{
    if unpack(shape, code, slices).is_ok() && have_values(marks, slices) {
        return true;
    }
    write_zeros(marks, slices);
    false
}

// Writes the slices of the vector of zeros. It stands apart, so that no other cell pays for its buffer.
#[inline(never)]
fn write_zeros(marks: &Marks, slices: &mut [u8])
    requires all { length slices.old ≡ length marks.now }
    requires few { length slices.old ≤ 256 }
    ensures zeros { slices.new ≡ cell marks.now (replicate (length slices.old) 0) }
    ensures names { NamesSlices marks.now slices.new }
{
    // A look at the marks shows that they are valid.
    let _rise = marks.rise_strictly();
    let dims = slices.len();
    let zeros = [0; 256];
    marks.cell(&zeros[..dims], slices);
}

// Whether no slice is empty. Where the marks rise strictly none is, and no slice is looked at.
fn have_values(marks: &Marks, slices: &[u8]) -> bool
    requires all { length slices.now ≡ length marks.now }
    requires few { length slices.now ≤ 256 }
    requires inside { (dim : ℕ) → dim < length marks.now → get_or slices.now dim 0 + 1 < length (row_at marks.now dim) }
    ensures { IsTrue result ↔ ((dim : ℕ) → dim < length marks.now → interval (row_at marks.now dim) (get_or slices.now dim 0) ≡ None → ⊥) }
{
    if marks.rise_strictly() {
        return true;
    }
    for dim in 0..slices.len() {
        if marks.interval(dim as u16, slices[dim]).is_none() {
            return false;
        }
    }
    true
}
