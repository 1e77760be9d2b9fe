// Over files of a store of two dimensions, two bits and four places.
ghost use Rattle.std.specs.Prelude.{◌≡◌, [], length};
ghost use Rattle.va_store.specs.Known.{Fits};
ghost use Rattle.va_store.specs.Shelved.{Passes};

use crate::Store;
use crate::opening::read_store;
use std::alloc::Global;
use std::test::Fail;
use va_core::Shape;
use va_disk::{Disk, World};
use va_ports::{Shelf, ShelfFault};

/// No place is held.
const FREE: [u8; 4] = [0; 4];

/// A slot by its gate and the last byte of its id.
const EMPTY_SLOT: (u8, u8) = (0, 0);

// The file of the worked store, whose places hold ids from 1 on: its slots, the codes in region A and the vectors.
fn file(
    alloc: Global,
    slots: [(u8, u8); 4],
    codes: [u8; 4],
    vectors: [u8; 8],
) -> Result<Vec<u8>, Fail> {
    let mut image = Vec::from_slice(
        alloc,
        &[0x56, 0x41, 0x46, 0x31, 0, 0, 0, 2, 0, 2, 0, 0, 0, 4, 0, 0],
    )?;
    image.extend_from_slice(&[0; 16])?;
    for (gate, id) in slots {
        image.extend_from_slice(&[gate, 0, 0, 0, 0, 0, 0, id])?;
    }
    image.extend_from_slice(&[0, 0, 0, 0x80, 1, 0, 0, 0, 0, 0x80, 1, 0])?;
    image.extend_from_slice(&codes)?;
    image.extend_from_slice(&[0; 16])?;
    image.extend_from_slice(&vectors)?;
    Ok(image)
}

const fn live(id: u8) -> (u8, u8) {
    (0x47, id)
}

// The file of the store with 10, 10 under id 1, 120, 120 under id 2 and 200, 200 under id 3.
fn three(alloc: Global) -> Result<Vec<u8>, Fail> {
    file(
        alloc,
        [live(1), live(2), live(3), EMPTY_SLOT],
        [0, 0, 0xC0, 0],
        [10, 10, 120, 120, 200, 200, 0, 0],
    )
}

// The file of the store with 10, 10 under id 1 alone.
fn one(alloc: Global) -> Result<Vec<u8>, Fail> {
    file(
        alloc,
        [live(1), EMPTY_SLOT, EMPTY_SLOT, EMPTY_SLOT],
        [0; 4],
        [10, 10, 0, 0, 0, 0, 0, 0],
    )
}

#[test]
#[tactic(auto, using(va_layout::proofs::Headers::blank_short))]
fn a_first_insert_leaves_the_worked_image(rt: HostRuntime) -> Result<(), Fail> {
    let alloc = rt.alloc();
    let mut world = World::new(alloc, Vec::new(alloc), Vec::new(alloc), u64::MAX)?;
    let mut store = Store::create(alloc, &mut world, Shape::new(2, 2, 4)?)?;
    store.insert(&mut world, 1, &[10, 10], &FREE)?;
    let left = world.crash(alloc, 0)?;
    assert_eq!(rt; left.as_slice(), one(alloc)?.as_slice());
    Ok(())
}

#[test]
fn two_inserts_more_leave_the_second(rt: HostRuntime) -> Result<(), Fail> {
    let alloc = rt.alloc();
    let mut world = World::new(alloc, one(alloc)?, Vec::new(alloc), u64::MAX)?;
    let mut store = Store::open(alloc, &mut world)?;
    let held = vec![in alloc; 0; store.shape().capacity() as usize]?;
    store.insert(&mut world, 2, &[120, 120], &held)?;
    store.insert(&mut world, 3, &[200, 200], &held)?;
    let left = world.crash(alloc, 0)?;
    assert_eq!(rt; left.as_slice(), three(alloc)?.as_slice());
    Ok(())
}

// What opening a file says, where the calls of these numbers fail.
fn opening(alloc: Global, image: Vec<u8>, fails: &[u64]) -> Result<String, Fail> {
    let fails = Vec::from_slice(alloc, fails)?;
    let mut world = World::new(alloc, image, fails, u64::MAX)?;
    match read_store(alloc, &mut world) {
        Ok(_) => Ok(format!(in alloc; "opened")?),
        Err(fault) => Ok(format!(in alloc; "{fault}")?),
    }
}

#[test]
fn files_with_one_byte_changed_are_refused_with_these_texts(rt: HostRuntime) -> Result<(), Fail> {
    let alloc = rt.alloc();
    // (the byte that is changed, what it is then, the text)
    let rows = [
        (0, 0x57, "blank"),
        (1, 0, "magic"),
        (3, 0x32, "magic"),
        (7, 0, "shape dims"),
        (9, 0, "shape bits"),
        (13, 0, "shape capacity"),
        (13, 5, "length need 116 have 104"),
        (15, 1, "opened"),
        (16, 0x42, "marks 0"),
        (66, 2, "marks 0"),
        (71, 1, "marks 1"),
        (47, 1, "same id 0 1"),
        (55, 2, "same id 1 2"),
        (76, 1, "code 0"),
        (78, 0xE0, "code 2"),
        (79, 1, "opened"),
        (99, 255, "opened"),
    ];
    for (at, byte, want) in rows {
        let mut image = three(alloc)?;
        assert!(rt; at < image.len());
        image[at] = byte;
        let text = opening(alloc, image, &[])?;
        assert_eq!(rt; text.as_str(), want, "byte {at}");
    }
    let mut short = three(alloc)?;
    short.truncate(103);
    assert_eq!(rt;
        opening(alloc, short, &[])?.as_str(),
        "length need 104 have 103"
    );
    assert_eq!(rt; opening(alloc, Vec::new(alloc), &[])?.as_str(), "blank");
    Ok(())
}

#[test]
fn an_empty_slice_is_refused_and_the_marks_come_first(rt: HostRuntime) -> Result<(), Fail> {
    let alloc = rt.alloc();
    // Marks of 0, 0, 256 in dimension 1, of which the code 00 names the empty slice.
    let mut image = three(alloc)?;
    assert!(rt; image.len() == 104);
    image[73] = 0;
    assert_eq!(rt; opening(alloc, image.clone()?, &[])?.as_str(), "code 0");
    image[55] = 1;
    assert_eq!(rt;
        opening(alloc, image.clone()?, &[])?.as_str(),
        "same id 0 2"
    );
    image[67] = 1;
    image[68] = 0;
    assert_eq!(rt; opening(alloc, image, &[])?.as_str(), "marks 0");
    Ok(())
}

/// A sync, and then one read each of the header, the marks, the slots and the codes.
#[test]
fn each_part_is_read_once_and_in_order(rt: HostRuntime) -> Result<(), Fail> {
    let alloc = rt.alloc();
    let mut world = World::new(alloc, three(alloc)?, Vec::new(alloc), u64::MAX)?;
    let store = Store::open(alloc, &mut world)?;
    let reads: [(u64, u64); 4] = [(0, 32), (64, 12), (32, 32), (76, 4)];
    assert_eq!(rt; world.reads(), reads.as_slice());
    let marks = store.marks();
    assert_eq!(rt; marks.count(0), 3);
    for call in 0..5 {
        let text = opening(alloc, three(alloc)?, &[call])?;
        assert_eq!(rt; text.as_str(), "disk fault", "call {call}");
    }
    Ok(())
}

// What four cells of a shelf are, each with its slices, and what a fetch of place 1 between them gives.
#[derive(Drop)]
struct Scanned {
    cells: [Result<Option<(u32, u32)>, ShelfFault>; 4],
    slices: [[u8; 2]; 3],
    fetched: Result<(), ShelfFault>,
    vector: [u8; 2],
}

// A search over any shelf.
fn scan<S: Shelf>(shelf: &mut S) -> Scanned
    requires dims { (S.contents shelf.old).shape.dims ≡ 2 }
    requires capacity { (S.contents shelf.old).shape.capacity ≡ 4 }
{
    let mut first = [9; 2];
    let mut second = [9; 2];
    let mut third = [9; 2];
    let mut last = [9; 2];
    let mut vector = [9; 2];
    shelf.rewind();
    let one = shelf.next_cell(&mut first);
    let two = shelf.next_cell(&mut second);
    let fetched = shelf.fetch(1, &mut vector);
    let three = shelf.next_cell(&mut third);
    let four = shelf.next_cell(&mut last);
    Scanned {
        cells: [one, two, three, four],
        slices: [first, second, third],
        fetched,
        vector,
    }
}

/// The codes are one piece, at 76, and the vector of place 1 stands at 98.
#[test]
fn a_shelf_gives_the_live_places_and_reads_each_piece_once(rt: HostRuntime) -> Result<(), Fail> {
    let alloc = rt.alloc();
    let mut world = World::new(alloc, three(alloc)?, Vec::new(alloc), u64::MAX)?;
    let mut store = Store::open(alloc, &mut world)?;
    let shape = store.shape();
    assert!(rt; shape.dims() == 2);
    assert!(rt; shape.capacity() == 4);
    let scanned = scan(&mut store.shelf(&mut world));
    assert_eq!(rt;
        scanned.cells,
        [
            Ok(Some((0, 1))),
            Ok(Some((1, 2))),
            Ok(Some((2, 3))),
            Ok(None)
        ]
    );
    assert_eq!(rt; scanned.slices, [[0, 0], [0, 0], [1, 1]]);
    assert_eq!(rt; (scanned.fetched, scanned.vector), (Ok(()), [120, 120]));
    assert_eq!(rt; store.changed(), None);
    let reads: [(u64, u64); 2] = [(76, 4), (98, 2)];
    assert!(rt; world.reads().len() == 6);
    assert_eq!(rt; &world.reads()[4..], reads.as_slice());
    Ok(())
}

/// A store is broken by a write that fails, and then two of its codes are written over.
#[test]
fn the_first_changed_code_is_noted_and_gives_the_slices_of_zeros(
    rt: HostRuntime,
) -> Result<(), Fail> {
    let alloc = rt.alloc();
    let fails = Vec::from_slice(alloc, &[5])?;
    let mut world = World::new(alloc, three(alloc)?, fails, u64::MAX)?;
    let mut store = Store::open(alloc, &mut world)?;
    let shape = store.shape();
    assert!(rt; shape.dims() == 2);
    assert!(rt; shape.capacity() == 4);
    assert!(rt; store.delete(&mut world, 1).is_err() && store.broken());
    assert!(rt; world.len() == 104);
    world.write(77, &[1, 0xE0])?;
    let scanned = scan(&mut store.shelf(&mut world));
    assert_eq!(rt;
        scanned.cells,
        [
            Ok(Some((0, 1))),
            Ok(Some((1, 2))),
            Ok(Some((2, 3))),
            Ok(None)
        ]
    );
    assert_eq!(rt; scanned.slices, [[0, 0], [0, 0], [0, 0]]);
    assert_eq!(rt; store.changed(), Some(1));
    Ok(())
}

// The first cell of a shelf, and its slices.
fn first_cell<S: Shelf>(shelf: &mut S, slices: &mut [u8]) -> Result<Option<(u32, u32)>, ShelfFault>
    requires { length slices.old ≡ (S.contents shelf.old).shape.dims }
    ensures { S.passes shelf.old [] shelf.new }
{
    shelf.rewind();
    shelf.next_cell(slices)
}

// The same of a store's shelf. The store and the disk are known when the shelf has ended.
fn first_of_store<D: Disk>(
    store: &mut Store,
    disk: &mut D,
    slices: &mut [u8],
) -> Result<Option<(u32, u32)>, ShelfFault>
    requires fits { Fits D.Storage store.old disk.old }
    requires room { length slices.old ≡ store.old.shape.dims }
    ensures passes { Passes D.Storage store.old disk.old [] store.new disk.new }
    ensures fits { Fits D.Storage store.new disk.new }
{
    first_cell(&mut store.shelf(disk), slices)
}

#[test]
fn a_store_is_used_on_when_its_shelf_has_ended(rt: HostRuntime) -> Result<(), Fail> {
    let alloc = rt.alloc();
    let mut world = World::new(alloc, three(alloc)?, Vec::new(alloc), u64::MAX)?;
    let mut store = Store::open(alloc, &mut world)?;
    assert!(rt; store.shape().dims() == 2);
    let mut slices = [9; 2];
    let first = first_of_store(&mut store, &mut world, &mut slices);
    assert_eq!(rt; (first, slices), (Ok(Some((0, 1))), [0, 0]));
    assert!(rt; store.shape().dims() == 2);
    let mut vector = [9; 2];
    store.get(&mut world, 2, &mut vector)?;
    assert_eq!(rt; vector, [120, 120]);
    Ok(())
}
