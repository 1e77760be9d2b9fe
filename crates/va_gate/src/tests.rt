// A world stops at a call, and a crash then leaves what it may.
use crate::{commit, fill};
use std::alloc::Global;
use std::test::Fail;
use va_disk::World;

// The first byte of what a crash leaves, where call `stop` of a commit of 5 to a byte that was 1 fails.
fn byte_after_crash(alloc: Global, stop: u64, pick: u8) -> Result<Vec<u8>, Fail> {
    let mut world = World::new(alloc, vec![in alloc; 9, 1, 9]?, Vec::new(alloc), stop)?;
    let _ = commit(&mut world, 1, 5);
    let left = world.crash(alloc, pick)?;
    Ok(left)
}

#[test]
fn a_crash_inside_a_commit_leaves_its_byte_old_new_or_torn_and_no_other(
    rt: HostRuntime,
) -> Result<(), Fail> {
    // (the call that fails, what picks 0, 1 and 7 leave of the byte)
    let rows = [
        (0, [1, 1, 1]),
        (1, [1, 1, 1]),
        (2, [1, 5, 7]),
        (3, [5, 5, 5]),
    ];
    for (stop, want) in rows {
        for (pick, byte) in [(0, want[0]), (1, want[1]), (7, want[2])] {
            let left = byte_after_crash(rt.alloc(), stop, pick)?;
            assert_eq!(rt;
                left.as_slice(),
                [9, byte, 9].as_slice(),
                "pick {pick} with call {stop} failing"
            );
        }
    }
    Ok(())
}

#[test]
fn what_was_written_before_a_commit_is_stable_once_its_gate_may_have_changed(
    rt: HostRuntime,
) -> Result<(), Fail> {
    use va_disk::Disk;
    let alloc = rt.alloc();
    let mut world = World::new(alloc, vec![in alloc; 0, 0]?, Vec::new(alloc), 3)?;
    world.write(1, &[8])?;
    let _ = commit(&mut world, 0, 5);
    assert_eq!(rt; world.crash(alloc, 0)?.as_slice(), [0, 8].as_slice());
    Ok(())
}

#[test]
fn five_thousand_bytes_are_filled_by_two_writes(rt: HostRuntime) -> Result<(), Fail> {
    let alloc = rt.alloc();
    let mut world = World::new(alloc, vec![in alloc; 1, 2, 3]?, Vec::new(alloc), u64::MAX)?;
    fill(&mut world, 2, 5000, 6)?;
    assert_eq!(rt; world.calls(), 2);
    assert_eq!(rt; world.image().len(), 5002);
    assert!(rt; world.image().starts_with(&[1, 2, 6, 6]) && world.image().ends_with(&[6, 6]));
    Ok(())
}
