// The worked image: the file of a store with two dimensions of one bit each, and four places.
use crate::{HeadFault, Header, Layout, Region};
use std::test::Fail;
use va_core::Shape;

fn shape() -> Result<Shape, Fail> {
    Ok(Shape::new(2, 2, 4)?)
}

#[test]
fn the_worked_header_has_these_32_bytes(rt: HostRuntime) -> Result<(), Fail> {
    let header = Header {
        shape: shape()?,
        region: Region::A,
    };
    let mut bytes = [7; 32];
    header.write(&mut bytes);
    let want = [
        0x56, 0x41, 0x46, 0x31, 0, 0, 0, 2, 0, 2, 0, 0, 0, 4, 0, 0, 0, 0, 0, 0, 0, 0, 0, 0, 0, 0,
        0, 0, 0, 0, 0, 0,
    ];
    assert_eq!(rt; bytes, want);
    assert_eq!(rt; Header::read(&bytes), Ok(header));
    bytes[16] = 0x42;
    assert_eq!(rt; Header::read(&bytes).map(|read| read.region), Ok(Region::B));
    bytes[7] = 0;
    assert_eq!(rt; Header::read(&bytes[..31]), Err(HeadFault::Blank));
    bytes[3] = 0x32;
    assert_eq!(rt; Header::read(&bytes), Err(HeadFault::Magic));
    Ok(())
}

#[test]
fn the_parts_of_the_worked_image_stand_here(rt: HostRuntime) -> Result<(), Fail> {
    let layout = Layout::of(shape()?);
    assert_eq!(rt; layout.shape().capacity(), 4);
    assert_eq!(rt; layout.marks_len(), 12);
    let rows = [
        (0, 32, 76, 92, 96),
        (1, 40, 77, 93, 98),
        (3, 56, 79, 95, 102),
    ];
    for (place, slot, code_a, code_b, vector) in rows {
        assert_eq!(rt; layout.slot_at(place), slot, "the slot of {place}");
        assert_eq!(rt;
            layout.code_at(Region::A, place),
            code_a,
            "the code of {place} in A"
        );
        assert_eq!(rt;
            layout.code_at(Region::B, place),
            code_b,
            "the code of {place} in B"
        );
        assert_eq!(rt; layout.vector_at(place), vector, "the vector of {place}");
    }
    assert_eq!(rt; layout.marks_at(Region::A), 64);
    assert_eq!(rt; layout.marks_at(Region::B), 80);
    assert_eq!(rt; layout.len(), 104);
    Ok(())
}
