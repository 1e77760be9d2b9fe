// Over the files of small stores.
use crate::{Progress, begin, convert};
use std::alloc::Global;
use std::test::Fail;
use va_core::Shape;
use va_disk::World;
use va_store::Store;

/// No place is held.
const FREE: [u8; 4] = [0; 4];

/// The region that is selected first: its marks 0, 128, 256 twice, and the codes of 10, 120 and 200 under them.
const LAID: [u8; 16] = [0, 0, 0, 128, 1, 0, 0, 0, 0, 128, 1, 0, 0, 0, 0xC0, 0];

/// The other region: its marks 0, 120, 256 twice, and the codes of 10, 120 and 200 under them.
const REFITTED: [u8; 16] = [0, 0, 0, 120, 1, 0, 0, 0, 0, 120, 1, 0, 0, 0xC0, 0xC0, 0];

/// The same with 5 in place of 120.
const CHANGED: [u8; 16] = [0, 0, 0, 120, 1, 0, 0, 0, 0, 120, 1, 0, 0, 0, 0xC0, 0];

/// The mark between the two slices of 10, 120 and 200, and that of equal slices.
const FITTED: u16 = 120;

const EQUAL: u16 = 128;

// The file of three vectors, under equal marks.
#[tactic(auto, using(va_layout::proofs::Headers::blank_short))]
fn three(alloc: Global) -> Result<Vec<u8>, Fail> {
    let mut world = World::new(alloc, Vec::new(alloc), Vec::new(alloc), u64::MAX)?;
    let mut store = Store::create(alloc, &mut world, Shape::new(2, 2, 4)?)?;
    store.insert(&mut world, 1, &[10, 10], &FREE)?;
    store.insert(&mut world, 2, &[120, 120], &FREE)?;
    store.insert(&mut world, 3, &[200, 200], &FREE)?;
    Ok(world.crash(alloc, 0)?)
}

// The second mark of a dimension.
fn second_mark(store: &Store, dim: usize) -> Option<u16> {
    let marks = store.marks();
    if dim < marks.dims() {
        marks.row(dim).get(1).copied()
    } else {
        None
    }
}

#[test]
fn all_are_converted_and_the_new_marks_are_selected(rt: HostRuntime) -> Result<(), Fail> {
    let alloc = rt.alloc();
    let mut world = World::new(alloc, three(alloc)?, Vec::new(alloc), u64::MAX)?;
    let mut store = Store::open(alloc, &mut world)?;
    assert_eq!(rt; begin(alloc, &mut world, &mut store)?, 3);
    assert_eq!(rt; second_mark(&store, 0), Some(EQUAL));
    assert!(rt; store.building().is_some() && !store.broken());
    assert_eq!(rt;
        convert(&mut world, &mut store, 9)?,
        Progress::Switched { done: 3 }
    );
    assert_eq!(rt; second_mark(&store, 0), Some(FITTED));
    assert_eq!(rt; second_mark(&store, 1), Some(FITTED));
    let left = world.crash(alloc, 0)?;
    assert!(rt; left.len() == 104);
    assert_eq!(rt; left[16], 0x42);
    assert_eq!(rt; &left.as_slice()[80..96], REFITTED.as_slice());
    Ok(())
}

#[test]
fn vectors_come_and_go_while_marks_are_built(rt: HostRuntime) -> Result<(), Fail> {
    let alloc = rt.alloc();
    let mut world = World::new(alloc, three(alloc)?, Vec::new(alloc), u64::MAX)?;
    let mut store = Store::open(alloc, &mut world)?;
    assert_eq!(rt; begin(alloc, &mut world, &mut store)?, 3);
    assert!(rt; store.building().is_some() && !store.broken());
    assert_eq!(rt;
        convert(&mut world, &mut store, 1)?,
        Progress::More { done: 1, left: 2 }
    );
    assert_eq!(rt; store.delete(&mut world, 2)?, 1);
    assert!(rt; store.shape().capacity() == 4);
    assert_eq!(rt; store.insert(&mut world, 2, &[5, 5], &FREE)?, 1);
    assert!(rt; store.building().is_some() && !store.broken());
    assert_eq!(rt;
        convert(&mut world, &mut store, 9)?,
        Progress::Switched { done: 2 }
    );
    let left = world.crash(alloc, 0)?;
    assert!(rt; left.len() == 104);
    assert_eq!(rt; &left.as_slice()[80..96], CHANGED.as_slice());
    Ok(())
}

#[test]
#[tactic(auto, using(va_layout::proofs::Headers::blank_short))]
fn a_store_without_vectors_is_refitted(rt: HostRuntime) -> Result<(), Fail> {
    let alloc = rt.alloc();
    let mut world = World::new(alloc, Vec::new(alloc), Vec::new(alloc), u64::MAX)?;
    let mut store = Store::create(alloc, &mut world, Shape::new(1, 1, 2)?)?;
    assert_eq!(rt; begin(alloc, &mut world, &mut store)?, 0);
    assert!(rt; store.building().is_some() && !store.broken());
    assert_eq!(rt;
        convert(&mut world, &mut store, 1)?,
        Progress::Switched { done: 0 }
    );
    assert_eq!(rt; second_mark(&store, 0), Some(EQUAL));
    Ok(())
}

// Where each call in turn is the first that fails, the file has the old marks with their codes or the new ones with theirs,
// nothing else, and a building is gone.
#[test]
fn a_crash_in_a_refitting_leaves_one_of_two_files(rt: HostRuntime) -> Result<(), Fail> {
    let alloc = rt.alloc();
    let image = three(alloc)?;
    for stop in 5..20 {
        let mut world = World::new(alloc, image.clone()?, Vec::new(alloc), stop)?;
        let mut store = Store::open(alloc, &mut world)?;
        if begin(alloc, &mut world, &mut store).is_ok()
            && store.building().is_some()
            && !store.broken()
        {
            let _progress = convert(&mut world, &mut store, 9);
        }
        for pick in [0, 1, 0x41, 0x42] {
            let left = world.crash(alloc, pick)?;
            assert!(rt; left.len() == 104);
            let selected = if left[16] == 0x42 {
                &left.as_slice()[80..96]
            } else {
                &left.as_slice()[64..80]
            };
            assert!(rt;
                selected == LAID.as_slice() || selected == REFITTED.as_slice(),
                "{stop} {pick}"
            );
            let mut later = World::new(alloc, left, Vec::new(alloc), u64::MAX)?;
            assert!(rt; Store::open(alloc, &mut later)?.building().is_none());
        }
    }
    Ok(())
}
