// What a test sees of a world and a feed.
use crate::*;
use std::alloc::Global;
use std::test::Fail;
use va_core::Memory;

fn no_memory(_: Memory) -> Fail {
    Fail::new("memory")
}

// Writes, where the disk has the place.
fn put<D: Disk>(disk: &mut D, at: u64, bytes: &[u8]) -> Result<(), DiskFault> {
    if at > disk.len() || bytes.len() > 100 || at > 100 {
        return Err(DiskFault);
    }
    disk.write(at, bytes)
}

fn first_byte<D: Disk>(disk: &mut D) -> Result<u8, DiskFault> {
    if disk.len() == 0 {
        return Err(DiskFault);
    }
    let mut out = [0; 1];
    disk.read(0, &mut out)?;
    Ok(out[0])
}

fn pull<S: Source>(source: &mut S, out: &mut [u8; 4]) -> Result<usize, SourceFault> {
    source.take(out)
}

fn world(alloc: Global, fails: Vec<u64>, stop: u64) -> Result<World, Fail> {
    let image = vec![in alloc; 1, 2, 3, 4]?;
    World::new(alloc, image, fails, stop).map_err(no_memory)
}

#[test]
fn a_crash_leaves_the_last_sync_the_image_or_torn_writes(rt: HostRuntime) -> Result<(), Fail> {
    let alloc = rt.alloc();
    let mut desk = world(alloc, Vec::new(alloc), u64::MAX)?;
    // Each write, and what the picks 1 and 7 give behind it.
    let writes = [
        (
            1,
            [8, 9].as_slice(),
            [1, 8, 9, 4].as_slice(),
            [1, 7, 7, 4].as_slice(),
        ),
        (
            4,
            [5].as_slice(),
            [1, 8, 9, 4, 5].as_slice(),
            [1, 7, 7, 4, 7].as_slice(),
        ),
        (
            2,
            [6, 6].as_slice(),
            [1, 8, 6, 6, 5].as_slice(),
            [1, 7, 7, 7, 7].as_slice(),
        ),
    ];
    for (at, bytes, read, torn) in writes {
        assert_eq!(rt; put(&mut desk, at, bytes), Ok(()));
        assert_eq!(rt;
            desk.crash(alloc, 0).map_err(no_memory)?.as_slice(),
            [1, 2, 3, 4].as_slice()
        );
        assert_eq!(rt; desk.crash(alloc, 1).map_err(no_memory)?.as_slice(), read);
        assert_eq!(rt; desk.crash(alloc, 7).map_err(no_memory)?.as_slice(), torn);
    }
    assert_eq!(rt; desk.sync(), Ok(()));
    for pick in [0, 1, 7] {
        assert_eq!(rt;
            desk.crash(alloc, pick).map_err(no_memory)?.as_slice(),
            [1, 8, 6, 6, 5].as_slice()
        );
    }
    desk.keeps_disk_model();
    desk.follows_record();
    Ok(())
}

#[test]
fn calls_fail_by_number(rt: HostRuntime) -> Result<(), Fail> {
    let alloc = rt.alloc();
    let mut desk = world(alloc, vec![in alloc; 1, 4]?, 6)?;
    assert_eq!(rt; put(&mut desk, 0, &[9]), Ok(()));
    assert_eq!(rt; first_byte(&mut desk), Err(DiskFault));
    assert_eq!(rt; first_byte(&mut desk), Ok(9));
    assert_eq!(rt; give_all(&mut desk, b"ok"), Ok(()));
    assert_eq!(rt; give_all(&mut desk, b"lost"), Err(SinkFault));
    assert_eq!(rt; desk.sync(), Ok(()));
    assert_eq!(rt; put(&mut desk, 0, &[7]), Err(DiskFault));
    assert_eq!(rt; desk.sync(), Err(DiskFault));
    assert_eq!(rt; desk.image(), [9, 2, 3, 4].as_slice());
    assert_eq!(rt; desk.reads(), [(0, 1)].as_slice());
    assert_eq!(rt; desk.given(), b"ok".as_slice());
    assert_eq!(rt; desk.calls(), 8);
    assert_eq!(rt; desk.starved(), 0);
    Ok(())
}

#[test]
fn a_limited_give_takes_the_rest_later(rt: HostRuntime) -> Result<(), Fail> {
    let alloc = rt.alloc();
    let mut desk = world(alloc, Vec::new(alloc), u64::MAX)?;
    desk.limit_give(2);
    assert_eq!(rt; desk.give(b"abcde"), Ok(2));
    assert_eq!(rt; give_all(&mut desk, b"cde"), Ok(()));
    assert_eq!(rt; desk.given(), b"abcde".as_slice());
    assert_eq!(rt; desk.calls(), 3);
    Ok(())
}

#[test]
fn a_feed_comes_in_pieces_and_fails_by_number(rt: HostRuntime) -> Result<(), Fail> {
    let alloc = rt.alloc();
    let text = vec![in alloc; 1, 2, 3, 4, 5, 6, 7]?;
    let mut feed = Feed::new(alloc, text, 3, vec![in alloc; 1]?).map_err(no_memory)?;
    let mut out = [0; 4];
    assert_eq!(rt; pull(&mut feed, &mut out), Ok(3));
    assert_eq!(rt; pull(&mut feed, &mut out), Err(SourceFault));
    assert_eq!(rt; out, [1, 2, 3, 0]);
    assert_eq!(rt; feed.left(), [4, 5, 6, 7].as_slice());
    assert_eq!(rt; pull(&mut feed, &mut out), Ok(3));
    assert_eq!(rt; pull(&mut feed, &mut out), Ok(1));
    assert_eq!(rt; out, [7, 5, 6, 0]);
    assert_eq!(rt; pull(&mut feed, &mut out), Ok(0));
    Ok(())
}

#[test]
fn a_loose_byte_changes_with_the_first_give(rt: HostRuntime) -> Result<(), Fail> {
    let alloc = rt.alloc();
    let mut desk = Loose::new(world(alloc, Vec::new(alloc), u64::MAX)?, 0, 9);
    assert_eq!(rt; first_byte(&mut desk), Ok(1));
    assert_eq!(rt; put(&mut desk, 0, &[5]), Ok(()));
    assert_eq!(rt; first_byte(&mut desk), Ok(5));
    assert_eq!(rt; give_all(&mut desk, b"ok"), Ok(()));
    for _ in 0..2 {
        assert_eq!(rt; first_byte(&mut desk), Ok(9));
    }
    assert_eq!(rt; desk.world().image(), [5, 2, 3, 4].as_slice());
    assert_eq!(rt; desk.world().given(), b"ok".as_slice());
    Ok(())
}
