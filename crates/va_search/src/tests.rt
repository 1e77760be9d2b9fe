// The searches over files of a store of two dimensions, two bits and four places.
ghost use Rattle.std.specs.Prelude.{◌≡◌, length, IfOk};

use crate::{StoreSearchFault, certify, find_nearest, find_within, scan_nearest};
use std::alloc::Global;
use std::test::Fail;
use va_core::Pair;
use va_disk::World;
use va_dist::Query;
use va_store::Store;

// The file of the store with this vector under id 1, (120, 120) under id 2 and (200, 200) under id 3. The stored cell
// of id 1 is that of (10, 10).
fn file(alloc: Global, first: [u8; 2]) -> Result<Vec<u8>, Fail> {
    let mut image = Vec::from_slice(
        alloc,
        &[0x56, 0x41, 0x46, 0x31, 0, 0, 0, 2, 0, 2, 0, 0, 0, 4, 0, 0],
    )?;
    image.extend_from_slice(&[0; 16])?;
    for (gate, id) in [(0x47, 1), (0x47, 2), (0x47, 3), (0, 0)] {
        image.extend_from_slice(&[gate, 0, 0, 0, 0, 0, 0, id])?;
    }
    image.extend_from_slice(&[0, 0, 0, 0x80, 1, 0, 0, 0, 0, 0x80, 1, 0])?;
    image.extend_from_slice(&[0, 0, 0xC0, 0])?;
    image.extend_from_slice(&[0; 16])?;
    image.extend_from_slice(&first)?;
    image.extend_from_slice(&[120, 120, 200, 200, 0, 0])?;
    Ok(image)
}

// The distance from (0, 0).
fn origin(alloc: Global) -> Result<Query, Fail>
    ensures { IfOk result (λ query. length query.weights ≡ 2) }
{
    Ok(Query::new(alloc, 2, &[0, 0], &[1, 1])?)
}

const FIRST: [Pair; 1] = [Pair { dist: 200, id: 1 }];

/// The codes are one piece, at 76, and the vectors of places 0 and 1 stand at 96 and 98.
#[test]
fn the_nearest_is_found_with_the_least_reads(rt: HostRuntime) -> Result<(), Fail> {
    let alloc = rt.alloc();
    let mut world = World::new(alloc, file(alloc, [10, 10])?, Vec::new(alloc), u64::MAX)?;
    let mut store = Store::open(alloc, &mut world)?;
    assert!(rt; store.shape().dims() == 2);
    let query = origin(alloc)?;
    let near = find_nearest(alloc, &mut store, &mut world, &query, 1)?;
    assert_eq!(rt; near.pairs.as_slice(), FIRST.as_slice());
    assert_eq!(rt; near.fetched.as_slice(), &[1, 2][..]);
    assert_eq!(rt; near.candidates, 2);
    let reads: [(u64, u64); 3] = [(76, 4), (96, 2), (98, 2)];
    assert!(rt; world.reads().len() == 7);
    assert_eq!(rt; &world.reads()[4..], reads.as_slice());
    Ok(())
}

#[test]
fn a_certificate_is_made_with_the_least_reads(rt: HostRuntime) -> Result<(), Fail> {
    let alloc = rt.alloc();
    let mut world = World::new(alloc, file(alloc, [10, 10])?, Vec::new(alloc), u64::MAX)?;
    let mut store = Store::open(alloc, &mut world)?;
    assert!(rt; store.shape().dims() == 2);
    assert!(rt; store.live() == 3);
    let query = origin(alloc)?;
    let made = certify(alloc, &mut store, &mut world, &query, 1)?;
    assert_eq!(rt; made.answer.as_slice(), FIRST.as_slice());
    assert_eq!(rt; made.boxes.0.len(), 3);
    assert_eq!(rt; made.fetched.0.len(), 2);
    // The codes are read once for the boxes, and once for the search.
    let reads: [(u64, u64); 4] = [(76, 4), (76, 4), (96, 2), (98, 2)];
    assert!(rt; world.reads().len() == 8);
    assert_eq!(rt; &world.reads()[4..], reads.as_slice());
    Ok(())
}

#[test]
fn a_scan_finds_the_same(rt: HostRuntime) -> Result<(), Fail> {
    let alloc = rt.alloc();
    let mut world = World::new(alloc, file(alloc, [10, 10])?, Vec::new(alloc), u64::MAX)?;
    let mut store = Store::open(alloc, &mut world)?;
    assert!(rt; store.shape().dims() == 2);
    let query = origin(alloc)?;
    let near = scan_nearest(alloc, &mut store, &mut world, &query, 1)?;
    assert_eq!(rt; near.pairs.as_slice(), FIRST.as_slice());
    assert_eq!(rt; near.fetched.as_slice(), &[1, 2][..]);
    assert_eq!(rt; near.candidates, 2);
    Ok(())
}

/// The store and the disk are used on after a search.
#[test]
fn within_a_radius_the_edge_counts(rt: HostRuntime) -> Result<(), Fail> {
    let alloc = rt.alloc();
    let mut world = World::new(alloc, file(alloc, [10, 10])?, Vec::new(alloc), u64::MAX)?;
    let mut store = Store::open(alloc, &mut world)?;
    assert!(rt; store.shape().dims() == 2);
    let query = origin(alloc)?;
    let near = find_within(alloc, &mut store, &mut world, &query, 200)?;
    assert_eq!(rt; near.pairs.as_slice(), FIRST.as_slice());
    assert_eq!(rt; near.fetched.as_slice(), &[1, 2][..]);
    assert_eq!(rt; near.candidates, 2);
    let near = find_within(alloc, &mut store, &mut world, &query, 199)?;
    assert_eq!(rt; near.pairs.len(), 0);
    Ok(())
}

#[test]
fn a_vector_outside_its_stored_cell_is_named(rt: HostRuntime) -> Result<(), Fail> {
    let alloc = rt.alloc();
    let mut world = World::new(alloc, file(alloc, [255, 255])?, Vec::new(alloc), u64::MAX)?;
    let mut store = Store::open(alloc, &mut world)?;
    assert!(rt; store.shape().dims() == 2);
    let query = origin(alloc)?;
    let fault = scan_nearest(alloc, &mut store, &mut world, &query, 1).err();
    let mismatch = StoreSearchFault::Mismatch {
        place: 0,
        dist: 130_050,
        low: 0,
        high: 32_258,
    };
    assert_eq!(rt; fault, Some(mismatch));
    Ok(())
}
