// How many bits each dimension has, with the one division done ahead of the loops over the dimensions.
ghost use Rattle.std.specs.Prelude.{◌≡◌, ◌+◌, ◌/◌, ◌%◌, ◌≤◌, nat_lt, if◌then◌else◌};

use va_core::Shape;

/// The widths of the dimensions of a shape, in bits: as equal as they can be.
#[derive(Clone, Copy)]
pub struct Widths {
    /// The bits of each dimension but for the one more of the first few, 0 to 8.
    pub each: u32,
    /// How many dimensions have one bit more.
    pub wider: usize,
}

impl Widths {
    /// The widths of the dimensions of a shape.
    pub fn of(shape: Shape) -> Widths
        ensures each { result.each ≡ shape.bits / shape.dims }
        ensures wider { result.wider ≡ shape.bits % shape.dims }
    {
        Widths {
            each: u32::from(shape.bits() / shape.dims()),
            wider: usize::from(shape.bits() % shape.dims()),
        }
    }

    /// The width of a dimension, 0 to 8 bits for one of the shape.
    #[inline(always)]
    pub fn at(self, dim: usize) -> u32
        requires { self.each ≤ 8 }
        ensures { result ≡ self.each + (if nat_lt dim self.wider then 1 else 0) }
    {
        if dim < self.wider {
            self.each + 1
        } else {
            self.each
        }
    }
}
