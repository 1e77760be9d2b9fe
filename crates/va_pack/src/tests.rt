// Codes that were worked out by hand, bit by bit.
ghost use Rattle.std.specs.Prelude.{◌≡◌, length};
ghost use Rattle.va_core.specs.Codes.{AreSlices};
ghost use Rattle.va_core.specs.Shape as shapes;

use crate::{PackFault, pack, unpack};
use std::alloc::Global;
use std::process::Abort;
use std::test::Fail;
use va_core::Shape;

// Packs the slices and unpacks the bytes.
fn both_ways(
    rt: &impl Abort,
    alloc: Global,
    dims: u16,
    bits: u16,
    slices: &[u8],
    bytes: &[u8],
) -> Result<(), Fail>
    requires slices { AreSlices (record { dims = dims; bits = bits; capacity = 1 }) slices.now }
    requires bytes { length bytes.now ≡ shapes.code_bytes (record { dims = dims; bits = bits; capacity = 1 }) }
{
    let shape = Shape::new(dims, bits, 1).ok().ok_or("shape")?;
    let mut packed = vec![in alloc; 0; bytes.len()]?;
    pack(shape, slices, &mut packed);
    assert_eq!(rt; packed.as_slice(), bytes, "{dims} dims, {bits} bits");
    let mut unpacked = vec![in alloc; 0; slices.len()]?;
    assert_eq!(rt; unpack(shape, bytes, &mut unpacked), Ok(()));
    assert_eq!(rt; unpacked.as_slice(), slices, "{dims} dims, {bits} bits");
    Ok(())
}

#[test]
fn slices_stand_without_a_gap_the_first_dimension_and_the_most_significant_bit_first(
    rt: HostRuntime,
) -> Result<(), Fail> {
    let alloc = rt.alloc();
    both_ways(&rt, alloc, 2, 2, &[0, 0], &[0x00])?;
    both_ways(&rt, alloc, 2, 2, &[1, 1], &[0xC0])?;
    both_ways(&rt, alloc, 3, 6, &[3, 0, 0], &[0xC0])?;
    both_ways(&rt, alloc, 3, 6, &[2, 0, 0], &[0x80])?;
    both_ways(&rt, alloc, 3, 6, &[0, 2, 0], &[0x20])?;
    both_ways(&rt, alloc, 3, 6, &[0, 0, 3], &[0x0C])?;
    both_ways(&rt, alloc, 2, 3, &[2, 1], &[0xA0])?;
    both_ways(&rt, alloc, 2, 1, &[1, 0], &[0x80])?;
    both_ways(&rt, alloc, 2, 16, &[200, 10], &[0xC8, 0x0A])?;
    Ok(())
}

#[test]
fn a_bit_behind_the_last_slice_is_refused(rt: HostRuntime) -> Result<(), Fail> {
    let shape = Shape::new(2, 3, 1).ok().ok_or("shape")?;
    let mut out = [7, 9];
    assert_eq!(rt; unpack(shape, &[0xA1], &mut out), Err(PackFault::Padding));
    assert_eq!(rt; out, [7, 9]);
    Ok(())
}
