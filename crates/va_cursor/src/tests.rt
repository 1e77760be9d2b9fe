// Cursors over a tray.
ghost use Rattle.std.specs.Prelude.{◌≡◌, length, IfOk};
ghost use Rattle.va_ports.specs.Tray as trays;

use crate::Cursor;
use std::alloc::Global;
use std::test::Fail;
use va_core::{Pair, Shape};
use va_dist::Query;
use va_marks::Marks;
use va_ports::{SearchFault, ShelfFault, Tray};

// Id 1 in place 0 at the point that is given, 2 in place 1 at (120, 120) and 3 in place 3 at (200, 200). Calls 0 to 3
// are those of `open`.
fn three_cells(alloc: Global, shape: Shape, first: [u8; 2], fails: Vec<u64>) -> Result<Tray, Fail>
    requires dims { shape.dims ≡ 2 }
    requires capacity { shape.capacity ≡ 4 }
    ensures { IfOk result (λ t. (trays.contents t).shape ≡ shape) }
{
    let marks = Marks::equal(alloc, shape)?;
    let mut tray = Tray::new(alloc, shape, &marks, fails)?;
    tray.put(alloc, 0, 1, &first)?;
    tray.put(alloc, 1, 2, &[120, 120])?;
    tray.put(alloc, 3, 3, &[200, 200])?;
    Ok(tray)
}

// Two dimensions of one bit, and room for four cells.
fn shape_of_two() -> Result<Shape, Fail>
    ensures dims { IfOk result (λ shape. shape.dims ≡ 2) }
    ensures capacity { IfOk result (λ shape. shape.capacity ≡ 4) }
{
    Ok(Shape::new(2, 2, 4)?)
}

fn origin(alloc: Global) -> Result<Query, Fail>
    ensures { IfOk result (λ query. length query.weights ≡ 2) }
{
    Ok(Query::new(alloc, 2, &[0, 0], &[1, 1])?)
}

// What `next` answers, and how many vectors it fetched.
fn call(cursor: &mut Cursor, tray: &mut Tray) -> (Result<Option<Pair>, SearchFault>, u32)
    requires { (trays.contents tray.old).shape ≡ cursor.old.shape }
    ensures tray { (trays.contents tray.new).shape ≡ (trays.contents tray.old).shape }
    ensures cursor { cursor.new.shape ≡ cursor.old.shape }
{
    let next = cursor.next(tray);
    (next, cursor.read_last())
}

const FIRST: Pair = Pair { dist: 200, id: 1 };

const SECOND: Pair = Pair {
    dist: 28_800,
    id: 2,
};

const THIRD: Pair = Pair {
    dist: 80_000,
    id: 3,
};

const FAULT: SearchFault = SearchFault::Shelf(ShelfFault);

#[test]
fn each_pair_reads_what_it_needs(rt: HostRuntime) -> Result<(), Fail> {
    let alloc = rt.alloc();
    let shape = shape_of_two()?;
    let mut tray = three_cells(alloc, shape, [10, 10], Vec::new(alloc))?;
    let mut cursor = Cursor::open(alloc, &mut tray, origin(alloc)?)?;
    assert_eq!(rt; cursor.places(), &[0, 1, 3][..]);
    assert_eq!(rt; (cursor.holds(1), cursor.holds(2)), (true, false));
    assert_eq!(rt; (cursor.given(), cursor.read_last()), (0, 0));
    assert_eq!(rt; call(&mut cursor, &mut tray), (Ok(Some(FIRST)), 2));
    assert_eq!(rt; call(&mut cursor, &mut tray), (Ok(Some(SECOND)), 0));
    assert_eq!(rt; call(&mut cursor, &mut tray), (Ok(Some(THIRD)), 1));
    assert_eq!(rt; call(&mut cursor, &mut tray), (Ok(None), 0));
    assert_eq!(rt; cursor.given(), 3);
    Ok(())
}

#[test]
fn a_scan_that_fails_opens_no_cursor(rt: HostRuntime) -> Result<(), Fail> {
    let alloc = rt.alloc();
    let shape = shape_of_two()?;
    for number in 0..5 {
        let mut tray = three_cells(alloc, shape, [10, 10], vec![in alloc; number]?)?;
        let fault = Cursor::open(alloc, &mut tray, origin(alloc)?).err();
        assert_eq!(rt;
            fault,
            if number < 4 { Some(FAULT) } else { None },
            "at {number}"
        );
    }
    Ok(())
}

// Calls 4 and 5 are the fetches of the first pair.
#[test]
fn after_a_fault_the_next_call_goes_on(rt: HostRuntime) -> Result<(), Fail> {
    let alloc = rt.alloc();
    let shape = shape_of_two()?;
    for (number, before, after) in [(4, 0, 2), (5, 1, 1)] {
        let mut tray = three_cells(alloc, shape, [10, 10], vec![in alloc; number]?)?;
        let mut cursor = Cursor::open(alloc, &mut tray, origin(alloc)?)?;
        assert_eq!(rt;
            call(&mut cursor, &mut tray),
            (Err(FAULT), before),
            "at {number}"
        );
        assert_eq!(rt;
            call(&mut cursor, &mut tray),
            (Ok(Some(FIRST)), after),
            "at {number}"
        );
        assert_eq!(rt;
            call(&mut cursor, &mut tray),
            (Ok(Some(SECOND)), 0),
            "at {number}"
        );
    }
    let mut tray = three_cells(alloc, shape, [10, 10], vec![in alloc; 6]?)?;
    let mut cursor = Cursor::open(alloc, &mut tray, origin(alloc)?)?;
    assert_eq!(rt; call(&mut cursor, &mut tray), (Ok(Some(FIRST)), 2));
    assert_eq!(rt; call(&mut cursor, &mut tray), (Ok(Some(SECOND)), 0));
    assert_eq!(rt; call(&mut cursor, &mut tray), (Err(FAULT), 0));
    assert_eq!(rt; call(&mut cursor, &mut tray), (Ok(Some(THIRD)), 1));
    assert_eq!(rt; call(&mut cursor, &mut tray), (Ok(None), 0));
    Ok(())
}

// The other tray has a vector in place 0 that lies in another cell.
#[test]
fn a_vector_outside_its_cell_is_a_mismatch(rt: HostRuntime) -> Result<(), Fail> {
    let alloc = rt.alloc();
    let shape = shape_of_two()?;
    let mut tray = three_cells(alloc, shape, [10, 10], Vec::new(alloc))?;
    let mut other = three_cells(alloc, shape, [130, 130], Vec::new(alloc))?;
    let mut cursor = Cursor::open(alloc, &mut tray, origin(alloc)?)?;
    let mismatch = SearchFault::Mismatch {
        place: 0,
        dist: 33_800,
        low: 0,
        high: 32_258,
    };
    assert_eq!(rt; call(&mut cursor, &mut other), (Err(mismatch), 1));
    assert_eq!(rt; call(&mut cursor, &mut other), (Err(mismatch), 1));
    assert_eq!(rt; call(&mut cursor, &mut tray), (Ok(Some(FIRST)), 2));
    assert_eq!(rt; call(&mut cursor, &mut other), (Ok(Some(SECOND)), 0));
    Ok(())
}
