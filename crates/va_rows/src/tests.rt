// Over the image of a store of two dimensions and four places, with ids 1, 2 and 3 at places 0, 1 and 2.
use crate::{Slot, fetch, lay, open, read_slots, shut};
use std::alloc::Global;
use std::test::Fail;
use va_core::Shape;
use va_disk::{Disk, World};
use va_layout::{Header, Layout, Region};

const CLOSED: Slot = Slot { live: false, id: 0 };

// The image, with no marks and no codes.
fn world(alloc: Global) -> Result<World, Fail> {
    let mut header = [0; 32];
    Header {
        shape: Shape::new(2, 2, 4)?,
        region: Region::A,
    }
    .write(&mut header);
    let mut image = Vec::from_slice(alloc, &header)?;
    for id in 1..4u8 {
        image.extend_from_slice(&[0x47, 0, 0, 0, 0, 0, 0, id])?;
    }
    image.extend_from_slice(&[0; 40])?;
    image.extend_from_slice(&[10, 10, 120, 120, 200, 200, 0, 0])?;
    Ok(World::new(alloc, image, Vec::new(alloc), u64::MAX)?)
}

#[test]
fn slots_and_vectors_are_read_where_they_stand(rt: HostRuntime) -> Result<(), Fail> {
    let mut world = world(rt.alloc())?;
    let layout = Layout::of(Shape::new(2, 2, 4)?);
    let shape = layout.shape();
    assert!(rt; world.len() >= layout.len() && shape.capacity() == 4 && shape.dims() == 2);
    let mut slots = [CLOSED; 4];
    read_slots(&mut world, &layout, &mut slots)?;
    let live = |id| Slot { live: true, id };
    assert_eq!(rt; slots, [live(1), live(2), live(3), CLOSED]);
    let mut vector = [0; 2];
    fetch(&mut world, &layout, 1, &mut vector)?;
    assert_eq!(rt; vector, [120, 120]);
    assert_eq!(rt; world.reads(), [(32, 32), (98, 2)].as_slice());
    Ok(())
}

#[test]
fn a_place_is_laid_opened_and_shut(rt: HostRuntime) -> Result<(), Fail> {
    let alloc = rt.alloc();
    let mut world = world(alloc)?;
    let layout = Layout::of(Shape::new(2, 2, 4)?);
    let shape = layout.shape();
    assert!(rt; world.len() >= layout.len() && shape.capacity() == 4 && shape.dims() == 2);
    let mut slots = [CLOSED; 4];
    read_slots(&mut world, &layout, &mut slots)?;
    assert!(rt; !slots[3].live);
    lay(&mut world, &layout, 3, 0x0102, &[5, 6])?;
    open(&mut world, &layout, 3)?;
    let left = world.crash(alloc, 0)?;
    assert!(rt;
        left.len() == 104 && left[56..64] == [0x47, 0, 0, 0, 0, 0, 1, 2] && left[102..] == [5, 6]
    );
    shut(&mut world, &layout, 3)?;
    let left = world.crash(alloc, 0)?;
    assert!(rt; left.len() == 104 && left[56..64] == [0, 0, 0, 0, 0, 0, 1, 2]);
    Ok(())
}
