// Over the files of small stores.
ghost use Rattle.std.specs.Prelude.{◌≡◌, ◌≤◌, length, IfOk, IsTrue};
ghost use Rattle.va_core.specs.Marks.{HasShape};
ghost use Rattle.va_core.specs.Shape.{code_bytes};
ghost use Rattle.va_layout.specs.Header.{region_in};
ghost use Rattle.va_layout.specs.Layout.{layout_len};
ghost use Rattle.va_layout.specs.declared.region.Region.TheVariants.{A};

use crate::{CellsFault, Pages, names_cell, put_code, put_marks, read_marks, select, unpack_cell};
use std::alloc::Global;
use std::process::Abort;
use std::test::Fail;
use va_core::Shape;
use va_disk::{Disk, DiskFault, World};
use va_layout::{Layout, Region};
use va_marks::{Marks, Tally};

// A store whose region A has in each place a code of one byte that tells the place.
fn with_codes(alloc: Global, layout: &Layout) -> Result<World, Fail> {
    let capacity = layout.shape().capacity();
    let mut image = vec![in alloc; 0u8; layout.code_at(Region::A, 0) as usize]?;
    for place in 0..capacity {
        image.push((place % 251) as u8)?;
    }
    image.resize(layout.len() as usize, 0)?;
    Ok(World::new(alloc, image, Vec::new(alloc), u64::MAX)?)
}

// Whether a scan gives these places in order, each with its code, and then the end.
fn gives_all<D: Disk>(pages: &mut Pages, disk: &mut D, capacity: u32) -> Result<bool, DiskFault>
    requires fits { layout_len pages.old.shape ≤ D.size disk.old }
    requires one_byte { code_bytes pages.old.shape ≡ 1 }
    ensures shape { pages.new.shape ≡ pages.old.shape }
    ensures size { D.size disk.new ≡ D.size disk.old }
{
    let mut code = [0; 1];
    for place in 0..capacity {
        let next = pages.next(disk, &mut code)?;
        if next != Some(place) || code[0] != (place % 251) as u8 {
            return Ok(false);
        }
    }
    let next = pages.next(disk, &mut code)?;
    Ok(next.is_none())
}

// How many reads two scans of so many places take.
fn reads_of_two_scans(rt: &impl Abort, alloc: Global, capacity: u32) -> Result<usize, Fail> {
    let layout = Layout::of(Shape::new(2, 2, capacity)?);
    let mut world = with_codes(alloc, &layout)?;
    assert!(rt; world.len() >= layout.len());
    let mut pages = Pages::new(alloc, &layout, Region::A)?;
    let first = gives_all(&mut pages, &mut world, capacity)?;
    pages.rewind();
    let second = gives_all(&mut pages, &mut world, capacity)?;
    assert!(rt; first && second);
    Ok(world.reads().len())
}

#[test]
fn a_scan_gives_each_code_once_and_reads_each_piece_once(rt: HostRuntime) -> Result<(), Fail> {
    for (capacity, want) in [(4, 2), (4096, 2), (4097, 4), (10000, 6)] {
        let reads = reads_of_two_scans(&rt, rt.alloc(), capacity)?;
        assert_eq!(rt; reads, want, "{capacity} places");
    }
    Ok(())
}

// The marks over four coordinates in one dimension of two bits.
fn marks_over(alloc: Global, coordinates: [u8; 4]) -> Result<Marks, Fail>
    ensures { IfOk result (HasShape (record { dims = 1; bits = 2; capacity = 4 })) }
{
    let mut tally = Tally::new(alloc, Shape::new(1, 2, 4)?)?;
    let [first, second, third, fourth] = coordinates;
    tally.add(&[first]);
    tally.add(&[second]);
    tally.add(&[third]);
    tally.add(&[fourth]);
    Ok(tally.marks(alloc)?)
}

// A store of one dimension and two bits with nothing in it.
fn empty(alloc: Global, layout: &Layout) -> Result<World, Fail> {
    let image = vec![in alloc; 0u8; layout.len() as usize]?;
    Ok(World::new(alloc, image, Vec::new(alloc), u64::MAX)?)
}

#[test]
fn marks_are_read_as_they_were_written(rt: HostRuntime) -> Result<(), Fail> {
    let alloc = rt.alloc();
    let layout = Layout::of(Shape::new(1, 2, 4)?);
    for (coordinates, want) in [
        ([10, 10, 20, 30], [0, 0, 0, 10, 0, 20, 0, 30, 1, 0]),
        ([0, 0, 0, 0], [0, 0, 0, 0, 0, 0, 0, 0, 1, 0]),
    ] {
        let mut world = empty(alloc, &layout)?;
        assert!(rt; world.len() >= layout.len());
        let marks = marks_over(alloc, coordinates)?;
        put_marks(&mut world, &layout, Region::A, &marks)?;
        // The marks stand behind the header and four slots.
        assert!(rt; world.image().len() == 96 && &world.image()[64..74] == want.as_slice());
        let read = read_marks(alloc, &mut world, &layout, Region::A)?;
        assert_eq!(rt; world.reads(), [(64, 10)].as_slice());
        let mut bytes = [0; 10];
        assert!(rt; read.count(0) == 5);
        read.row_to_bytes(0, &mut bytes);
        assert_eq!(rt; bytes, want);
    }
    Ok(())
}

#[test]
fn marks_that_fall_are_refused(rt: HostRuntime) -> Result<(), Fail> {
    let alloc = rt.alloc();
    let layout = Layout::of(Shape::new(1, 2, 4)?);
    let mut world = empty(alloc, &layout)?;
    assert!(rt; world.len() >= layout.len());
    let read = read_marks(alloc, &mut world, &layout, Region::B);
    assert_eq!(rt; read.err(), Some(CellsFault::Marks(0)));
    Ok(())
}

fn selects_a(head: &[u8]) -> bool
    requires { length head.now ≡ 32 }
    ensures { IsTrue result → region_in head.now ≡ A }
{
    head[16] != b'B'
}

#[test]
fn a_code_stands_in_its_place_of_the_region_that_is_selected_then(
    rt: HostRuntime,
) -> Result<(), Fail> {
    let alloc = rt.alloc();
    let layout = Layout::of(Shape::new(1, 2, 4)?);
    let mut world = empty(alloc, &layout)?;
    let shape = layout.shape();
    assert!(rt; world.len() >= layout.len() && shape.capacity() == 4 && shape.dims() == 1);
    put_code(&mut world, &layout, Region::B, 2, &[3])?;
    let mut head = [0; 32];
    world.read(0, &mut head)?;
    assert!(rt; selects_a(&head));
    select(&mut world, Region::B)?;
    let left = world.crash(alloc, 0)?;
    assert!(rt; left.len() == 96 && left[16] == b'B' && left[88..92] == [0, 0, 0xC0, 0]);
    Ok(())
}

#[test]
fn a_code_with_an_empty_slice_or_a_padding_bit_names_no_cell(rt: HostRuntime) -> Result<(), Fail> {
    let shape = Shape::new(1, 2, 4)?;
    // The first three slices are empty.
    let marks = marks_over(rt.alloc(), [0, 0, 0, 0])?;
    for (code, want) in [(0xC0, true), (0x80, false), (0x00, false), (0xC1, false)] {
        let mut slices = [9];
        assert_eq!(rt; unpack_cell(shape, &marks, &[code], &mut slices), want);
        assert_eq!(rt; slices, [3]);
        assert_eq!(rt; names_cell(shape, &marks, &[code]), want);
    }
    Ok(())
}
