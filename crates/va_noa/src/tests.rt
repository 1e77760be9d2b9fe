// The search over a tray.
ghost use Rattle.std.specs.Prelude.{◌≡◌, [], length, IfOk};
ghost use Rattle.va_ports.specs.Tray as trays;

use crate::nearest;
use std::alloc::Global;
use std::test::Fail;
use va_core::{Pair, Shape};
use va_dist::Query;
use va_marks::Marks;
use va_ports::{SearchFault, ShelfFault, Tray};

// Two dimensions, room for four cells, and none.
fn empty_tray(alloc: Global, bits: u16, fails: Vec<u64>) -> Result<Tray, Fail>
    ensures dims { IfOk result (λ t. (trays.contents t).shape.dims ≡ 2) }
    ensures capacity { IfOk result (λ t. (trays.contents t).shape.capacity ≡ 4) }
    ensures cells { IfOk result (λ t. (trays.contents t).cells ≡ []) }
{
    let shape = Shape::new(2, bits, 4)?;
    let marks = Marks::equal(alloc, shape)?;
    Ok(Tray::new(alloc, shape, &marks, fails)?)
}

// Ids 1 at (10, 10), 2 at (120, 120) and 3 at (200, 200).
fn three_cells(alloc: Global, bits: u16, fails: Vec<u64>) -> Result<Tray, Fail>
    ensures { IfOk result (λ t. (trays.contents t).shape.dims ≡ 2) }
{
    let mut tray = empty_tray(alloc, bits, fails)?;
    tray.put(alloc, 0, 1, &[10, 10])?;
    tray.put(alloc, 1, 2, &[120, 120])?;
    tray.put(alloc, 2, 3, &[200, 200])?;
    Ok(tray)
}

fn query(alloc: Global, object: [u8; 2], weights: [u16; 2]) -> Result<Query, Fail>
    ensures { IfOk result (λ query. length query.weights ≡ 2) }
{
    Ok(Query::new(alloc, 2, &object, &weights)?)
}

const NEAREST: [Pair; 3] = [
    Pair { dist: 200, id: 1 },
    Pair {
        dist: 28_800,
        id: 2,
    },
    Pair {
        dist: 80_000,
        id: 3,
    },
];

#[test]
fn what_is_read_is_what_the_bounds_leave_open(rt: HostRuntime) -> Result<(), Fail> {
    let alloc = rt.alloc();
    let origin = query(alloc, [0, 0], [1, 1])?;
    for (bits, k, found, fetched, candidates) in [
        (2, 1, 1, &[1, 2][..], 2),
        (2, 9, 3, &[1, 2, 3][..], 3),
        (16, 1, 1, &[][..], 1),
    ] {
        let mut tray = three_cells(alloc, bits, Vec::new(alloc))?;
        let near = nearest(alloc, &mut tray, &origin, k)?;
        assert_eq!(rt;
            near.pairs.as_slice(),
            &NEAREST[..found],
            "{bits} bits, at {k}"
        );
        assert_eq!(rt; near.fetched.as_slice(), fetched, "{bits} bits, at {k}");
        assert_eq!(rt; near.candidates, candidates, "{bits} bits, at {k}");
    }
    let mut tray = empty_tray(alloc, 2, Vec::new(alloc))?;
    let near = nearest(alloc, &mut tray, &origin, 1)?;
    assert_eq!(rt;
        (near.pairs.len(), near.fetched.len(), near.candidates),
        (0, 0, 0)
    );
    Ok(())
}

#[test]
fn at_weights_of_0_nothing_is_read(rt: HostRuntime) -> Result<(), Fail> {
    let alloc = rt.alloc();
    let mut tray = three_cells(alloc, 2, Vec::new(alloc))?;
    let near = nearest(alloc, &mut tray, &query(alloc, [0, 0], [0, 0])?, 1)?;
    assert_eq!(rt; near.pairs.as_slice(), &[Pair { dist: 0, id: 1 }][..]);
    assert_eq!(rt; near.fetched.len(), 0);
    assert_eq!(rt; near.candidates, 1);
    Ok(())
}

#[test]
fn two_objects_leave_one_cell(rt: HostRuntime) -> Result<(), Fail> {
    let alloc = rt.alloc();
    let mut tray = three_cells(alloc, 2, Vec::new(alloc))?;
    let mut objects = query(alloc, [0, 0], [1, 1])?;
    objects.add(&[20, 20])?;
    let near = nearest(alloc, &mut tray, &objects, 1)?;
    assert_eq!(rt; near.pairs.as_slice(), &[Pair { dist: 400, id: 1 }][..]);
    assert_eq!(rt; near.fetched.as_slice(), &[1][..]);
    assert_eq!(rt; near.candidates, 2);
    Ok(())
}

#[test]
fn of_equal_vectors_a_greater_id_is_not_read(rt: HostRuntime) -> Result<(), Fail> {
    let alloc = rt.alloc();
    let at = query(alloc, [10, 10], [1, 1])?;
    let mut tray = empty_tray(alloc, 2, Vec::new(alloc))?;
    tray.put(alloc, 0, 5, &[10, 10])?;
    tray.put(alloc, 1, 7, &[10, 10])?;
    let near = nearest(alloc, &mut tray, &at, 1)?;
    assert_eq!(rt; near.pairs.as_slice(), &[Pair { dist: 0, id: 5 }][..]);
    assert_eq!(rt; near.fetched.as_slice(), &[5][..]);
    assert_eq!(rt; near.candidates, 2);
    Ok(())
}

#[test]
fn at_an_equal_bound_a_lesser_id_is_read(rt: HostRuntime) -> Result<(), Fail> {
    let alloc = rt.alloc();
    let mut tray = empty_tray(alloc, 2, Vec::new(alloc))?;
    tray.put(alloc, 0, 5, &[10, 10])?;
    tray.put(alloc, 1, 7, &[10, 10])?;
    tray.put(alloc, 2, 3, &[20, 20])?;
    let near = nearest(alloc, &mut tray, &query(alloc, [10, 10], [1, 1])?, 1)?;
    assert_eq!(rt; near.pairs.as_slice(), &[Pair { dist: 0, id: 5 }][..]);
    assert_eq!(rt; near.fetched.as_slice(), &[3, 5][..]);
    assert_eq!(rt; near.candidates, 3);
    Ok(())
}

#[test]
fn a_greater_bound_is_read_where_its_id_is_less(rt: HostRuntime) -> Result<(), Fail> {
    let alloc = rt.alloc();
    let mut tray = empty_tray(alloc, 2, Vec::new(alloc))?;
    tray.put(alloc, 0, 5, &[108, 0])?;
    tray.put(alloc, 1, 3, &[128, 0])?;
    let near = nearest(alloc, &mut tray, &query(alloc, [118, 0], [1, 1])?, 1)?;
    assert_eq!(rt; near.pairs.as_slice(), &[Pair { dist: 100, id: 3 }][..]);
    assert_eq!(rt; near.fetched.as_slice(), &[5, 3][..]);
    assert_eq!(rt; near.candidates, 2);
    Ok(())
}

// The order of the places doesn't matter.
#[test]
fn the_least_bounds_are_visited_first(rt: HostRuntime) -> Result<(), Fail> {
    let alloc = rt.alloc();
    let mut tray = empty_tray(alloc, 2, Vec::new(alloc))?;
    tray.put(alloc, 0, 3, &[200, 200])?;
    tray.put(alloc, 1, 2, &[120, 120])?;
    tray.put(alloc, 2, 1, &[10, 10])?;
    let near = nearest(alloc, &mut tray, &query(alloc, [0, 0], [1, 1])?, 1)?;
    assert_eq!(rt; near.pairs.as_slice(), &[Pair { dist: 200, id: 1 }][..]);
    assert_eq!(rt; near.fetched.as_slice(), &[1, 2][..]);
    assert_eq!(rt; near.candidates, 2);
    Ok(())
}

#[test]
fn of_five_vectors_two_are_read(rt: HostRuntime) -> Result<(), Fail> {
    let alloc = rt.alloc();
    let shape = Shape::new(3, 6, 100)?;
    let marks = Marks::equal(alloc, shape)?;
    let mut tray = Tray::new(alloc, shape, &marks, Vec::new(alloc))?;
    tray.put(alloc, 0, 101, &[200, 30, 40])?;
    tray.put(alloc, 1, 102, &[190, 35, 50])?;
    tray.put(alloc, 2, 103, &[20, 180, 60])?;
    tray.put(alloc, 3, 104, &[60, 60, 200])?;
    tray.put(alloc, 4, 105, &[210, 25, 45])?;
    let query = Query::new(alloc, 3, &[205, 28, 42], &[1, 1, 1])?;
    let near = nearest(alloc, &mut tray, &query, 2)?;
    assert_eq!(rt;
        near.pairs.as_slice(),
        &[Pair { dist: 33, id: 101 }, Pair { dist: 43, id: 105 }][..]
    );
    assert_eq!(rt; near.fetched.len(), 2);
    assert_eq!(rt; near.candidates, 3);
    Ok(())
}

// The search makes four calls for a next cell and two fetches.
#[test]
fn a_call_that_fails_ends_the_search(rt: HostRuntime) -> Result<(), Fail> {
    let alloc = rt.alloc();
    let origin = query(alloc, [0, 0], [1, 1])?;
    for number in 0..7 {
        let mut tray = three_cells(alloc, 2, vec![in alloc; number]?)?;
        let near = nearest(alloc, &mut tray, &origin, 1).err();
        let fault = SearchFault::Shelf(ShelfFault);
        assert_eq!(rt;
            near,
            if number < 6 { Some(fault) } else { None },
            "at {number}"
        );
    }
    Ok(())
}
