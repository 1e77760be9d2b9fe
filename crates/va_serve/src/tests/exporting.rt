// The records of a store.
use super::*;
use crate::exporting::run_export;
use std::alloc::Global;
use std::test::Fail;

/// Opening makes a sync, and reads the header, the marks, the slots and the codes.
const OPENED: u64 = 5;

/// The lines that make a file, and the records of its vectors, ascending by id, whatever their places.
const FILES: [(&[u8], &[u8]); 4] = [
    (b"", b""),
    (b"create 2 2 4\n", b""),
    (THREE, b"1,10,10\n2,120,120\n3,200,200\n"),
    (
        b"create 2 2 4\ninsert 9 1,2\ninsert 3 0,255\ninsert 4294967295 7,7\ndelete 9\ninsert 5 4,4\n",
        b"3,0,255\n5,4,4\n4294967295,7,7\n",
    ),
];

// How an export of this file ends, where these calls of the world fail.
fn export_of(alloc: Global, image: Vec<u8>, calls_fail: &[u64]) -> Result<End, Fail> {
    let fails = calls_fail.to_vec(alloc)?;
    let mut world = World::new(alloc, image, fails, u64::MAX).map_err(no_memory)?;
    let status = run_export(alloc, &mut world);
    let given = world.given().to_vec(alloc)?;
    Ok(End {
        status,
        given,
        world,
    })
}

#[test]
fn an_export_gives_each_vector_once(rt: HostRuntime) -> Result<(), Fail> {
    let alloc = rt.alloc();
    for (lines, records) in FILES {
        let file = file_of(alloc, lines)?;
        let before = file.to_vec(alloc)?;
        let end = export_of(alloc, file, &[])?;
        assert_eq!(rt; end.status, Status::Done);
        assert_eq!(rt; end.given.as_slice(), records);
        assert_eq!(rt; end.world.crash(alloc, 0)?.as_slice(), before.as_slice());
    }
    Ok(())
}

#[test]
fn an_export_stops_where_a_call_fails(rt: HostRuntime) -> Result<(), Fail> {
    let alloc = rt.alloc();
    // A read and a giving for each record.
    for (call, status) in [(2, Status::DiskFault), (3, Status::WriteFault)] {
        let file = file_of(alloc, THREE)?;
        let end = export_of(alloc, file, &[OPENED + call])?;
        assert_eq!(rt; end.status, status);
        assert_eq!(rt; end.given.as_slice(), b"1,10,10\n".as_slice());
    }
    Ok(())
}

#[test]
fn a_vector_is_exported_as_it_stands_and_a_foreign_file_is_not(
    rt: HostRuntime,
) -> Result<(), Fail> {
    let alloc = rt.alloc();
    let mut image = file_of(alloc, THREE)?;
    assert!(rt; image.len() == 104);
    // It lies outside its cell, which an export doesn't look at.
    image[96..98].copy_from_slice(&[255, 254]);
    let end = export_of(alloc, image.to_vec(alloc)?, &[])?;
    assert_eq!(rt; end.status, Status::Done);
    assert_eq!(rt;
        end.given.as_slice(),
        b"1,255,254\n2,120,120\n3,200,200\n".as_slice()
    );
    image[1] = 0;
    let end = export_of(alloc, image, &[])?;
    assert_eq!(rt; end.status.code(), 6);
    assert!(rt; end.given.is_empty());
    Ok(())
}
