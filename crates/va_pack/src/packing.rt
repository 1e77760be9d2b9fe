// A cell's slices and its packed code.
ghost use Rattle.std.specs.Prelude.{◌≡◌, ◌↔◌, ◌-◌, ◌*◌, ◌≤◌, ℕ, List, length, IsErr, IsOk, IsTrue, OnErr, OnOk};
ghost use Rattle.va_core.specs.Shape.{code_bytes};
ghost use Rattle.va_core.specs.Codes.{AreSlices, HasPadding, packed, padding};
ghost use Rattle.va_pack.specs.Halves.{AreHalves};
ghost use Rattle.va_pack.specs.Unpacked.{unpacked};

use crate::bits::{HeldBits, low_bits};
use crate::widths::Widths;
use va_core::Shape;

/// Why bytes aren't a packed code.
#[derive(Clone, Copy, Debug, PartialEq, Eq)]
pub enum PackFault {
    /// A bit that is left over in the last byte is 1.
    Padding,
}

/// Packs the slices of a cell into bytes.
///
/// `codes` has a slice for each of the shape's `dims` dimensions, each below 2 to the power of the dimension's
/// `Shape::bits_of`. `out` has `Shape::code_bytes` bytes, and all are written.
pub fn pack(shape: Shape, codes: &[u8], out: &mut [u8])
    requires slices { AreSlices shape codes.now }
    requires room { length out.old ≡ code_bytes shape }
    ensures { out.new ≡ packed shape codes.now }
{
    let widths = Widths::of(shape);
    let mut held = HeldBits::none();
    for dim in 0..codes.len() {
        held = held.put(widths.at(dim), codes[dim], out);
    }
    // Zeros fill up the last byte.
    let _ = held.put(padding_of(shape), 0, out);
}

/// Reads the slices of a cell from its packed code.
///
/// `bytes` has `Shape::code_bytes` bytes. `out` has `dims` bytes, one for the slice of each dimension. All are
/// written, or none where the bytes are refused.
///
/// `Padding` where a bit that is left over in the last byte is 1. All other bytes are the code of one cell.
pub fn unpack(shape: Shape, bytes: &[u8], out: &mut [u8]) -> Result<(), PackFault>
    requires whole { length bytes.now ≡ code_bytes shape }
    requires room { length out.old ≡ shape.dims }
    ensures slices { OnOk result (AreSlices shape out.new) }
    ensures packed { OnOk result (packed shape out.new ≡ bytes.now) }
    ensures named { OnOk result (out.new ≡ unpacked shape bytes.now) }
    ensures padding { IsErr result ↔ HasPadding shape bytes.now }
    // A cell that packs to these bytes is the one that is read.
    ensures only { (slices : List ℕ) → AreSlices shape slices → packed shape slices ≡ bytes.now → IsOk result × (out.new ≡ slices) }
    ensures unchanged { OnErr result (out.new ≡ out.old) }
{
    if has_padding(shape, bytes) {
        return Err(PackFault::Padding);
    }
    read_slices(shape, bytes, out);
    Ok(())
}

/// The slices of a code. Where each has half a byte or a whole one, no bit is held between two bytes.
fn read_slices(shape: Shape, bytes: &[u8], out: &mut [u8])
    requires whole { length bytes.now ≡ code_bytes shape }
    requires room { length out.old ≡ shape.dims }
    requires clear { HasPadding shape bytes.now → ⊥ }
    ensures slices { AreSlices shape out.new }
    ensures packed { packed shape out.new ≡ bytes.now }
{
    if shape.bits() == 4 * shape.dims() {
        read_halves(bytes, out);
        return;
    }
    if shape.bits() == 8 * shape.dims() {
        out.copy_from_slice(bytes);
        return;
    }
    read_widths(shape, bytes, out);
}

/// Two slices from each byte, and one from the last byte where the number of slices is odd.
fn read_halves(bytes: &[u8], out: &mut [u8])
    requires { length out.old ≤ 2 * length bytes.now }
    ensures halves { AreHalves bytes.now out.new }
    ensures length { length out.new ≡ length out.old }
{
    let pairs = out.len() / 2;
    for at in 0..pairs {
        let byte = bytes[at];
        out[2 * at] = byte / 16;
        out[2 * at + 1] = byte % 16;
    }
    if out.len() % 2 == 1 {
        out[2 * pairs] = bytes[pairs] / 16;
    }
}

/// The slices of a code, whatever the widths of the dimensions.
fn read_widths(shape: Shape, bytes: &[u8], out: &mut [u8])
    requires whole { length bytes.now ≡ code_bytes shape }
    requires room { length out.old ≡ shape.dims }
    requires clear { HasPadding shape bytes.now → ⊥ }
    ensures slices { AreSlices shape out.new }
    ensures packed { packed shape out.new ≡ bytes.now }
{
    let widths = Widths::of(shape);
    let mut held = HeldBits::none();
    for dim in 0..out.len() {
        let (rest, slice) = held.get(widths.at(dim), bytes);
        held = rest;
        out[dim] = slice;
    }
}

/// Whether a bit that is left over in the last of `code_bytes` bytes is 1.
fn has_padding(shape: Shape, bytes: &[u8]) -> bool
    requires { length bytes.now ≡ code_bytes shape }
    ensures { IsTrue result ↔ HasPadding shape bytes.now }
{
    low_bits(u32::from(bytes[bytes.len() - 1]), padding_of(shape)) != 0
}

/// The bits that are left over in the last byte, 0 to 7.
fn padding_of(shape: Shape) -> u32
    ensures { result ≡ padding shape }
{
    (8 * shape.code_bytes() - usize::from(shape.bits())) as u32
}
