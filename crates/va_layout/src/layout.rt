// The offsets of a file's parts.
ghost use Rattle.std.specs.Prelude.{◌≡◌, ◌<◌, ◌≤◌, ◌^◌};
ghost use Rattle.va_core.specs.MarkBytes as marks;
ghost use Rattle.va_core.specs.Shape as shapes;
ghost use Rattle.va_layout.specs.Layout as parts;

use crate::Region;
use std::marker::Model;
use va_core::Shape;

/// Where the parts of a file stand that keeps a store of some shape.
#[derive(Drop)]
pub struct Layout {
    shape: Shape,
    marks_len: u32,
}

impl Model for Layout {
    ghost use Rattle.std.specs.Prelude.{◌≡◌};
    ghost use Rattle.va_core.specs.Shape as shapes;
    ghost use Rattle.va_core.specs.MarkBytes as marks;

    ghost Value = { shapes.Shape };

    ghost view = { λ layout. layout.shape };

    ghost invariant = { λ layout. (layout.marks_len ≡ marks.marks_len layout.shape) × shapes.IsShape layout.shape };
}

impl Layout {
    pub fn of(shape: Shape) -> Layout
        ensures { result ≡ shape }
    {
        let _dims = shape.dims();
        let marks_len = marks_len(&shape);
        Layout { shape, marks_len }
    }

    pub fn shape(&self) -> Shape
        ensures { result ≡ self.now }
    {
        self.shape
    }

    /// The length of the file, in bytes. A longer file is accepted, and what follows isn't read.
    pub fn len(&self) -> u64
        ensures len { result ≡ parts.layout_len self.now }
        ensures small { result < 2 ^ 36 }
    {
        self.vectors_at() + u64::from(self.shape.capacity()) * u64::from(self.shape.dims())
    }

    /// Where a place's 8 bytes of gate, spare bytes and id begin.
    pub fn slot_at(&self, place: u32) -> u64
        requires { place < self.now.capacity }
        ensures { result ≡ parts.slot_at place }
    {
        32 + 8 * u64::from(place)
    }

    /// Where the marks of a region begin, dimension after dimension, two bytes each.
    pub fn marks_at(&self, region: Region) -> u64
        ensures at { result ≡ parts.marks_at self.now region }
        ensures small { result < 2 ^ 34 }
    {
        match region {
            Region::A => self.regions_at(),
            Region::B => self.regions_at() + self.region_len(),
        }
    }

    /// The bytes of the marks in a region.
    pub fn marks_len(&self) -> u64
        ensures len { result ≡ marks.marks_len self.now }
        ensures small { result < 2 ^ 32 }
    {
        u64::from(self.marks_len)
    }

    /// Where a place's packed code in a region begins.
    pub fn code_at(&self, region: Region, place: u32) -> u64
        requires { place < self.now.capacity }
        ensures { result ≡ parts.code_at self.now region place }
    {
        self.marks_at(region) + self.marks_len() + u64::from(place) * self.code_bytes()
    }

    /// Where a place's vector begins.
    pub fn vector_at(&self, place: u32) -> u64
        requires { place < self.now.capacity }
        ensures { result ≡ parts.vector_at self.now place }
    {
        self.vectors_at() + u64::from(place) * u64::from(self.shape.dims())
    }

    fn code_bytes(&self) -> u64
        ensures bytes { result ≡ shapes.code_bytes self.now }
        ensures small { result ≤ 256 }
    {
        self.shape.code_bytes() as u64
    }

    fn regions_at(&self) -> u64
        ensures at { result ≡ parts.slot_at self.now.capacity }
        ensures small { result < 2 ^ 32 }
    {
        32 + 8 * u64::from(self.shape.capacity())
    }

    fn region_len(&self) -> u64
        ensures len { result ≡ parts.region_len self.now }
        ensures small { result < 2 ^ 33 }
    {
        self.marks_len() + u64::from(self.shape.capacity()) * self.code_bytes()
    }

    fn vectors_at(&self) -> u64
        ensures at { result ≡ parts.vector_at self.now 0 }
        ensures small { result < 2 ^ 35 }
    {
        self.regions_at() + 2 * self.region_len()
    }
}

fn marks_len(shape: &Shape) -> u32
    ensures { result ≡ marks.marks_len shape.now }
{
    let mut len = 0;
    for dim in 0..shape.dims() {
        len += row_len(shape, dim);
    }
    len
}

// A dimension of b bits has 2^b slices, and so one mark more.
fn row_len(shape: &Shape, dim: u16) -> u32
    requires shape { shapes.IsShape shape.now }
    requires dim { dim < shape.now.dims }
    ensures bytes { result ≡ marks.row_len shape.now dim }
    ensures small { result ≤ 514 }
{
    2 * (2u32.pow(u32::from(shape.bits_of(dim))) + 1)
}
