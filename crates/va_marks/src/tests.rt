// The worked examples of the rule, by the calls that a store makes.
ghost use Rattle.std.specs.Prelude.{◌≡◌, length, IfOk};
ghost use Rattle.va_core.specs.Marks.{row_at};
ghost use Rattle.va_core.specs.MarkBytes.{marks_len};

use crate::{Marks, MarksFault, Tally};
use std::alloc::Global;
use std::test::Fail;
use va_core::Shape;

// Two dimensions of one bit each.
fn two_dims() -> Result<Shape, Fail>
    ensures dims { IfOk result (λ shape. shape.dims ≡ 2) }
    ensures bytes { IfOk result (λ shape. marks_len shape ≡ 12) }
{
    Ok(Shape::new(2, 2, 4)?)
}

// The marks over four coordinates in one dimension of two bits.
fn marks_over(alloc: Global, coordinates: [u8; 4]) -> Result<Marks, Fail>
    ensures dims { IfOk result (λ marks. length marks ≡ 1) }
    ensures marks { IfOk result (λ marks. length (row_at marks 0) ≡ 5) }
{
    let mut tally = Tally::new(alloc, Shape::new(1, 2, 4)?)?;
    let [first, second, third, fourth] = coordinates;
    tally.add(&[first]);
    tally.add(&[second]);
    tally.add(&[third]);
    tally.add(&[fourth]);
    Ok(tally.marks(alloc)?)
}

#[test]
fn marks_part_the_coordinates_evenly(rt: HostRuntime) -> Result<(), Fail> {
    for (coordinates, want) in [
        ([10, 10, 20, 30], [0, 10, 20, 30, 256]),
        ([0, 0, 0, 0], [0, 0, 0, 0, 256]),
    ] {
        let marks = marks_over(rt.alloc(), coordinates)?;
        assert_eq!(rt; marks.count(0), 5);
        for t in 0..5 {
            assert_eq!(rt; marks.mark(0, t), want[usize::from(t)], "mark {t}");
        }
    }
    Ok(())
}

#[test]
fn where_all_coordinates_are_0_the_last_slice_has_all_values(rt: HostRuntime) -> Result<(), Fail> {
    let marks = marks_over(rt.alloc(), [0, 0, 0, 0])?;
    assert_eq!(rt; marks.slice_of(0, 0), 3);
    for (slice, want) in [(0, None), (1, None), (2, None), (3, Some((0, 255)))] {
        assert!(rt; slice < 4);
        assert_eq!(rt; marks.interval(0, slice), want, "slice {slice}");
    }
    assert_eq!(rt; marks.rise_strictly(), false);
    Ok(())
}

#[test]
fn the_marks_follow_the_vectors_that_were_added(rt: HostRuntime) -> Result<(), Fail> {
    let mut tally = Tally::new(rt.alloc(), two_dims()?)?;
    tally.add(&[10, 10]);
    tally.add(&[120, 120]);
    tally.add(&[200, 200]);
    let marks = tally.marks(rt.alloc())?;
    for dim in 0..2 {
        assert!(rt; marks.count(dim) == 3);
        for (t, want) in [(0, 0), (1, 120), (2, 256)] {
            assert!(rt; t < 3);
            assert_eq!(rt; marks.mark(dim, t), want, "mark {t} of {dim}");
        }
    }
    Ok(())
}

#[test]
fn a_dimension_without_bits_has_one_slice(rt: HostRuntime) -> Result<(), Fail> {
    let marks = Marks::equal(rt.alloc(), Shape::new(2, 1, 4)?)?;
    assert!(rt; marks.count(1) == 2);
    assert_eq!(rt; marks.slice_of(1, 255), 0);
    assert_eq!(rt; marks.interval(1, 0), Some((0, 255)));
    assert_eq!(rt; marks.rise_strictly(), true);
    Ok(())
}

#[test]
fn equal_marks_are_read_back_from_their_bytes(rt: HostRuntime) -> Result<(), Fail> {
    let alloc = rt.alloc();
    let shape = two_dims()?;
    let marks = Marks::equal(alloc, shape)?;
    let mut bytes = [7; 12];
    marks.to_bytes(&mut bytes);
    assert_eq!(rt; bytes, [0, 0, 0, 0x80, 1, 0, 0, 0, 0, 0x80, 1, 0]);
    let read = Marks::from_bytes(alloc, shape, &bytes)?;
    let mut cell = [7; 2];
    read.cell(&[120, 200], &mut cell);
    assert_eq!(rt; cell, [0, 1]);
    let mut again = [7; 12];
    read.to_bytes(&mut again);
    assert_eq!(rt; again, bytes);
    bytes[6] = 0;
    bytes[7] = 1;
    assert_eq!(rt;
        Marks::from_bytes(alloc, shape, &bytes).err(),
        Some(MarksFault::Dim(1))
    );
    Ok(())
}
