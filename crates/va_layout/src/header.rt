// The first 32 bytes of a file.
ghost use Rattle.std.specs.Prelude.{◌≡◌, ◌↔◌, true, false, Some};
ghost use Rattle.va_core.specs.Shape.{shape_fault};
ghost use Rattle.va_core.specs.declared.shape.ShapeFault.{ShapeFault};
ghost use Rattle.va_layout.specs.Header as headers;

use crate::Region;
use va_core::{Shape, ShapeFault};

/// What the header of a file says.
#[derive(Clone, Copy, Debug, PartialEq, Eq)]
pub struct Header {
    pub shape: Shape,
    /// The region whose marks and codes count.
    pub region: Region,
}

/// The first reason why some bytes are no header.
#[derive(Clone, Copy, Debug, PartialEq, Eq)]
pub enum HeadFault {
    /// There are fewer than 32 bytes, or the gate isn't open.
    Blank,
    /// Behind an open gate the letters `AF1` are missing.
    Magic,
    /// A number of the shape is out of its range.
    Shape(ShapeFault),
}

const OPEN: u8 = 0x56;

const SELECTS_B: u8 = 0x42;

impl Header {
    /// Writes the header with an open gate. Region A is written as 0, and so are the bytes that aren't read.
    pub fn write(&self, out: &mut [u8; 32])
        ensures bytes { out.new ≡ headers.header_bytes self.now }
        // Reading gives the header back.
        ensures read { headers.header_of out.new ≡ Ok self.now }
    {
        let [dims_high, dims_low] = self.shape.dims().to_be_bytes();
        let [bits_high, bits_low] = self.shape.bits().to_be_bytes();
        let [a, b, c, d] = self.shape.capacity().to_be_bytes();
        let selection = match self.region {
            Region::A => 0,
            Region::B => SELECTS_B,
        };
        *out = [
            OPEN, b'A', b'F', b'1', 0, 0, dims_high, dims_low, bits_high, bits_low, a, b, c, d, 0,
            0, selection, 0, 0, 0, 0, 0, 0, 0, 0, 0, 0, 0, 0, 0, 0, 0,
        ];
    }

    /// What the first 32 bytes say.
    pub fn read(bytes: &[u8]) -> Result<Header, HeadFault>
        ensures header { result ≡ headers.header_of bytes.now }
        ensures blank { (result ≡ Err HeadFault.Blank) ↔ (headers.is_open_header bytes.now ≡ false) }
        ensures magic { (result ≡ Err HeadFault.Magic) ↔ ((headers.is_open_header bytes.now ≡ true) × (headers.has_magic bytes.now ≡ false)) }
        ensures shape { (fault : ShapeFault) → (result ≡ Err (HeadFault.Shape fault))
            ↔ ((headers.is_open_header bytes.now ≡ true) × (headers.has_magic bytes.now ≡ true) × (shape_fault (headers.shape_in bytes.now) ≡ Some fault)) }
    {
        if bytes.len() < 32 || bytes[0] != OPEN {
            return Err(HeadFault::Blank);
        }
        if bytes[1] != b'A' || bytes[2] != b'F' || bytes[3] != b'1' {
            return Err(HeadFault::Magic);
        }
        let dims = u16::from_be_bytes([bytes[6], bytes[7]]);
        let bits = u16::from_be_bytes([bytes[8], bytes[9]]);
        let capacity = u32::from_be_bytes([bytes[10], bytes[11], bytes[12], bytes[13]]);
        let region = if bytes[16] == SELECTS_B {
            Region::B
        } else {
            Region::A
        };
        match Shape::new(dims, bits, capacity) {
            Ok(shape) => Ok(Header { shape, region }),
            Err(fault) => Err(HeadFault::Shape(fault)),
        }
    }
}
