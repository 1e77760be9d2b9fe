// Over a store of two dimensions and four places.
ghost use Rattle.std.specs.Prelude.{◌≡◌, length};
ghost use Rattle.va_store.specs.Known.{Fits};

use crate::{DeleteFault, GetFault, InsertFault, OpenFault, Store};
use std::alloc::Global;
use std::test::Fail;
use va_core::Shape;
use va_disk::{Disk, Storage, World};

const FREE: [u8; 4] = [0; 4];

/// Opening makes a sync and four reads.
const OPENED: u64 = 5;

#[test]
#[tactic(auto, using(va_layout::proofs::Headers::blank_short))]
fn a_place_that_was_emptied_is_filled_again_unless_it_is_held(rt: HostRuntime) -> Result<(), Fail> {
    let alloc = rt.alloc();
    let mut world = World::new(alloc, Vec::new(alloc), Vec::new(alloc), u64::MAX)?;
    let mut store = Store::create(alloc, &mut world, Shape::new(2, 2, 4)?)?;
    assert_eq!(rt; store.insert(&mut world, 7, &[10, 10], &FREE)?, 0);
    assert_eq!(rt; store.insert(&mut world, 5, &[20, 20], &FREE)?, 1);
    assert_eq!(rt; store.delete(&mut world, 7)?, 0);
    assert_eq!(rt; store.insert(&mut world, 9, &[30, 30], &[1, 0, 0, 0])?, 2);
    assert_eq!(rt; store.insert(&mut world, 8, &[40, 40], &FREE)?, 0);
    Ok(())
}

// The file of a store with the vector 10, 10 under id 1 at place 0.
#[tactic(auto, using(va_layout::proofs::Headers::blank_short))]
fn file(alloc: Global) -> Result<Vec<u8>, Fail> {
    let mut world = World::new(alloc, Vec::new(alloc), Vec::new(alloc), u64::MAX)?;
    let mut store = Store::create(alloc, &mut world, Shape::new(2, 2, 4)?)?;
    store.insert(&mut world, 1, &[10, 10], &FREE)?;
    Ok(world.crash(alloc, 0)?)
}

#[test]
fn a_store_that_is_opened_is_read(rt: HostRuntime) -> Result<(), Fail> {
    let alloc = rt.alloc();
    let mut world = World::new(alloc, file(alloc)?, Vec::new(alloc), u64::MAX)?;
    let mut store = Store::open(alloc, &mut world)?;
    let shape = store.shape();
    assert!(rt; shape.dims() == 2 && shape.bits() == 2 && !store.broken());
    assert_eq!(rt; world.calls(), OPENED);
    assert_eq!(rt; store.live(), 1);
    assert!(rt; shape.capacity() == 4);
    assert!(rt; store.id_at(0) == Some(1));
    assert!(rt; store.id_at(3).is_none());
    assert!(rt; store.place_of(1) == Some(0) && store.place_of(0).is_none());
    assert!(rt; store.next_live(None) == Some(1) && store.next_live(Some(1)).is_none());
    let mut vector = [0; 2];
    store.get(&mut world, 1, &mut vector)?;
    assert_eq!(rt; vector, [10, 10]);
    let unknown = store.get(&mut world, 0, &mut vector);
    assert!(rt; unknown == Err(GetFault::Unknown));
    Ok(())
}

// What an insertion answers in the store of that file, where the first call that writes fails and each place is held
// so often.
fn inserted(
    alloc: Global,
    id: u32,
    vector: &[u8],
    often: u8,
) -> Result<Result<u32, InsertFault>, Fail> {
    let fails = Vec::from_slice(alloc, &[OPENED])?;
    let mut world = World::new(alloc, file(alloc)?, fails, u64::MAX)?;
    let mut store = Store::open(alloc, &mut world)?;
    let held = vec![in alloc; often; store.shape().capacity() as usize]?;
    Ok(store.insert(&mut world, id, vector, &held))
}

#[test]
fn an_insertion_is_refused_for_the_first_reason(rt: HostRuntime) -> Result<(), Fail> {
    let alloc = rt.alloc();
    assert!(rt; inserted(alloc, 1, &[1], 1)? == Err(InsertFault::Length));
    assert!(rt; inserted(alloc, 1, &[1, 1], 1)? == Err(InsertFault::Duplicate(0)));
    assert!(rt; inserted(alloc, 2, &[1, 1], 1)? == Err(InsertFault::Full));
    assert!(rt; inserted(alloc, 2, &[1, 1], 0)? == Err(InsertFault::Disk));
    Ok(())
}

#[test]
fn a_store_is_broken_by_a_fault_alone(rt: HostRuntime) -> Result<(), Fail> {
    let alloc = rt.alloc();
    let fails = Vec::from_slice(alloc, &[OPENED])?;
    let mut world = World::new(alloc, file(alloc)?, fails, u64::MAX)?;
    let mut store = Store::open(alloc, &mut world)?;
    assert!(rt; store.delete(&mut world, 2) == Err(DeleteFault::Unknown));
    assert!(rt; !store.broken());
    assert!(rt; store.delete(&mut world, 1) == Err(DeleteFault::Disk));
    assert!(rt; store.broken());
    assert!(rt; store.delete(&mut world, 2) == Err(DeleteFault::Broken));
    let held = vec![in alloc; 1; store.shape().capacity() as usize]?;
    assert!(rt; store.insert(&mut world, 1, &[1], &held) == Err(InsertFault::Broken));
    Ok(())
}

// How many ids are live in what a crash left.
fn live_after(alloc: Global, left: Vec<u8>) -> Result<u32, Fail> {
    let mut world = World::new(alloc, left, Vec::new(alloc), u64::MAX)?;
    Ok(Store::open(alloc, &mut world)?.live())
}

// Whether a crash left a blank file, or a store that holds nothing.
fn is_blank_or_empty(alloc: Global, left: Vec<u8>, blank: bool) -> Result<bool, Fail> {
    let mut world = World::new(alloc, left, Vec::new(alloc), u64::MAX)?;
    match Store::open(alloc, &mut world) {
        Ok(store) => Ok(store.live() == 0),
        Err(why) => Ok(blank && why == OpenFault::Blank),
    }
}

#[test]
#[tactic(auto, using(va_layout::proofs::Headers::blank_short))]
fn a_crash_in_a_create_leaves_a_blank_file_or_an_empty_store(rt: HostRuntime) -> Result<(), Fail> {
    let alloc = rt.alloc();
    for stop in 0..14 {
        let mut world = World::new(alloc, Vec::new(alloc), Vec::new(alloc), stop)?;
        let done = Store::create(alloc, &mut world, Shape::new(2, 2, 4)?).is_ok();
        for pick in [0, 1, 0x47, 0x56] {
            let left = world.crash(alloc, pick)?;
            assert!(rt; is_blank_or_empty(alloc, left, !done)?, "{stop} {pick}");
        }
    }
    Ok(())
}

#[test]
fn a_crash_in_an_insert_leaves_all_of_it_or_nothing(rt: HostRuntime) -> Result<(), Fail> {
    let alloc = rt.alloc();
    // Three writes lay the place, and then a commit of three calls opens it.
    for carried_out in 0..7 {
        let stop = OPENED + carried_out;
        let mut world = World::new(alloc, file(alloc)?, Vec::new(alloc), stop)?;
        let mut store = Store::open(alloc, &mut world)?;
        let held = vec![in alloc; 0; store.shape().capacity() as usize]?;
        let done = store.insert(&mut world, 2, &[20, 20], &held).is_ok();
        assert_eq!(rt; done, carried_out == 6);
        for pick in [0, 1, 0x47, 0x56] {
            let live = live_after(alloc, world.crash(alloc, pick)?)?;
            assert!(rt; live == 2 || (live == 1 && !done), "{carried_out} {pick}");
        }
    }
    Ok(())
}

#[test]
fn a_crash_in_a_delete_leaves_all_of_it_or_nothing(rt: HostRuntime) -> Result<(), Fail> {
    let alloc = rt.alloc();
    for carried_out in 0..4 {
        let stop = OPENED + carried_out;
        let mut world = World::new(alloc, file(alloc)?, Vec::new(alloc), stop)?;
        let mut store = Store::open(alloc, &mut world)?;
        let done = store.delete(&mut world, 1).is_ok();
        assert_eq!(rt; done, carried_out == 3);
        for pick in [0, 1, 0x47, 0x56] {
            let live = live_after(alloc, world.crash(alloc, pick)?)?;
            assert!(rt; live == 0 || (live == 1 && !done), "{carried_out} {pick}");
        }
    }
    Ok(())
}

/// The live ids of the test by size, in a store of ten times as many places.
const MANY: u32 = 200;

// Inserts so many vectors, under ids that neither rise nor fall.
fn insert_many(store: &mut Store, world: &mut World, held: &[u8]) -> Result<(), Fail>
    requires fits { Fits ⟦<World as Storage>⟧ store.old world.old }
    requires held { length held.now ≡ store.old.shape.capacity }
{
    for number in 0..MANY {
        let id = number * 7919 % 65_536;
        store.insert(world, id, &[1], held)?;
    }
    Ok(())
}

#[test]
#[tactic(auto, using(va_layout::proofs::Headers::blank_short))]
fn a_store_of_thousands_of_places_is_made_filled_and_opened_again(
    rt: HostRuntime,
) -> Result<(), Fail> {
    let alloc = rt.alloc();
    let mut world = World::new(alloc, Vec::new(alloc), Vec::new(alloc), u64::MAX)?;
    let mut store = Store::create(alloc, &mut world, Shape::new(1, 1, 10 * MANY)?)?;
    let held = vec![in alloc; 0; store.shape().capacity() as usize]?;
    insert_many(&mut store, &mut world, &held)?;
    assert_eq!(rt; store.live(), MANY);
    let left = world.crash(alloc, 0)?;
    assert_eq!(rt; live_after(alloc, left)?, MANY);
    Ok(())
}
