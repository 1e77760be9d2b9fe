// How large a store is.
ghost use Rattle.std.specs.Prelude.{◌≡◌, ◌<◌, ◌≤◌, ◌+◌, ◌*◌, ◌/◌, ◌%◌, None, Some, IfOk, IfErr, if◌then◌else◌};
ghost use Rattle.va_core.specs.Shape as shapes;

use std::marker::Model;

/// The numbers that a store keeps from its creation on: each vector has `dims` bytes, an approximation
/// has `bits` bits, and there are `capacity` places.
#[derive(Clone, Copy, Debug, PartialEq, Eq)]
pub struct Shape {
    dims: u16,
    bits: u16,
    capacity: u32,
}

impl Model for Shape {
    ghost use Rattle.std.specs.Prelude.{◌≡◌, None};
    ghost use Rattle.va_core.specs.Shape as shapes;

    ghost Value = { shapes.Shape };

    ghost view = { λ shape. record { dims = shape.dims; bits = shape.bits; capacity = shape.capacity } };

    ghost inverse = { λ shape. record { dims = shape.dims; bits = shape.bits; capacity = shape.capacity } };

    ghost invariant = { λ shape. shapes.IsShape (record { dims = shape.dims; bits = shape.bits; capacity = shape.capacity }) };
}

/// The first number of a shape that is out of its range.
#[derive(Clone, Copy, Debug, PartialEq, Eq)]
pub enum ShapeFault {
    /// Not 1 to 256.
    Dims,
    /// Not 1 to `8 * dims`.
    Bits,
    /// Not 1 to 1,048,576.
    Capacity,
}

impl Shape {
    /// The shape of these numbers, or the first of them that is out of range.
    pub fn new(dims: u16, bits: u16, capacity: u32) -> Result<Shape, ShapeFault>
        ensures ok { IfOk result (λ shape. (shape ≡ record { dims = dims; bits = bits; capacity = capacity }) × (shapes.shape_fault shape ≡ None)) }
        ensures err { IfErr result (λ fault. shapes.shape_fault (record { dims = dims; bits = bits; capacity = capacity }) ≡ Some fault) }
    {
        if dims < 1 || dims > 256 {
            return Err(ShapeFault::Dims);
        }
        if bits < 1 || bits > 8 * dims {
            return Err(ShapeFault::Bits);
        }
        if capacity < 1 || capacity > 1_048_576 {
            return Err(ShapeFault::Capacity);
        }
        Ok(Shape {
            dims,
            bits,
            capacity,
        })
    }

    /// 1 to 256.
    pub fn dims(&self) -> u16
        ensures dims { result ≡ self.now.dims }
        ensures shape { shapes.IsShape self.now }
    {
        self.dims
    }

    /// 1 to `8 * dims`.
    pub fn bits(&self) -> u16
        ensures bits { result ≡ self.now.bits }
        ensures shape { shapes.IsShape self.now }
    {
        self.bits
    }

    /// 1 to 1,048,576.
    pub fn capacity(&self) -> u32
        ensures capacity { result ≡ self.now.capacity }
        ensures shape { shapes.IsShape self.now }
    {
        self.capacity
    }

    /// The bits of a dimension: 0 to 8, the same for all but for one more in the first `bits % dims`.
    pub fn bits_of(&self, dim: u16) -> u8
        requires { dim < self.now.dims }
        ensures bits { result ≡ shapes.bits_of self.now dim }
        ensures few { result ≤ 8 }
    {
        let each = self.bits / self.dims;
        if dim < self.bits % self.dims {
            each as u8 + 1
        } else {
            each as u8
        }
    }

    /// The bytes of a packed approximation.
    pub fn code_bytes(&self) -> usize
        ensures { result ≡ shapes.code_bytes self.now }
    {
        (usize::from(self.bits) + 7) / 8
    }
}

#[cfg(test)]
mod tests {
    use super::*;

    #[test]
    fn the_first_number_out_of_range_is_refused(rt: HostRuntime) {
        for (dims, bits, capacity, fault) in [
            (0, 0, 0, Some(ShapeFault::Dims)),
            (257, 1, 1, Some(ShapeFault::Dims)),
            (2, 0, 0, Some(ShapeFault::Bits)),
            (2, 17, 1, Some(ShapeFault::Bits)),
            (2, 16, 0, Some(ShapeFault::Capacity)),
            (2, 16, 1_048_577, Some(ShapeFault::Capacity)),
            (1, 1, 1, None),
            (256, 2048, 1_048_576, None),
        ] {
            assert_eq!(rt;
                Shape::new(dims, bits, capacity).err(),
                fault,
                "at {dims} {bits} {capacity}"
            );
        }
    }

    #[test]
    fn the_first_dimensions_have_one_bit_more(rt: HostRuntime) {
        for (dims, bits, dim, want, bytes) in [
            (2, 3, 0, 2, 1),
            (2, 3, 1, 1, 1),
            (3, 6, 0, 2, 1),
            (3, 6, 1, 2, 1),
            (3, 6, 2, 2, 1),
            (2, 1, 0, 1, 1),
            (2, 1, 1, 0, 1),
            (2, 9, 0, 5, 2),
        ] {
            match Shape::new(dims, bits, 4) {
                Ok(shape) => {
                    assert_eq!(rt;
                        (shape.dims(), shape.bits(), shape.capacity()),
                        (dims, bits, 4)
                    );
                    assert!(rt; dim < shape.dims());
                    assert_eq!(rt; shape.bits_of(dim), want, "at {dims} {bits} {dim}");
                    assert_eq!(rt; shape.code_bytes(), bytes, "at {dims} {bits}");
                }
                Err(_) => assert!(rt; false),
            }
        }
    }
}
