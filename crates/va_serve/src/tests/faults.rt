// Runs in which calls fail, and what a crash leaves then.
use super::*;
use std::alloc::Global;
use std::test::Fail;

/// Opening makes a sync and two reads.
const OPENED: u64 = 3;

/// Each command, some refused.
const SCRIPT: &[u8] =
    b"create 2 2 4\ninsert 1 10,10\ninsert 2 120,120\nknn 1 0,0\nssa 1 0,0\nrange 200 0,0\ndelete 1\ninsert 3 1,1\nget 3\ninsert 3 9,9\nstat\n";

const REPLIES: &[u8] =
    b"created\nplaced 0\nplaced 1\nnear 1:200 fetched 2 candidates 2 live 2\nnear 1:200 fetched 2 live 2\nwithin 1:200 fetched 2 live 2\ndeleted 0\nplaced 0\nvector 1,1\nerror duplicate\nstat dims 2 bits 2 capacity 4 live 2 cursors 0 building no\n";

/// The outcomes of a crash that are looked at: nothing of what was written since the last sync, all of it, and each
/// byte of it open, or shut.
const PICKS: [u8; 4] = [0, 1, 0x47, 0x56];

// What a store tells of itself.
fn told_of(alloc: Global, file: Vec<u8>) -> Result<Vec<u8>, Fail> {
    let questions = b"stat\nget 1\nget 2\nget 3\nknn 4 0,0\n";
    Ok(run_on(alloc, file, questions, &SMOOTH)?.given)
}

// What it tells after so many lines of the script.
fn told_after(alloc: Global, lines: usize) -> Result<Vec<u8>, Fail> {
    told_of(alloc, file_of(alloc, first_lines(SCRIPT, lines))?)
}

// Whether each crash leaves the store after the lines that were replied to, or after one more, and the script, run
// again, ends as it would have.
fn survives(alloc: Global, end: &End) -> Result<bool, Fail> {
    let lines = newlines(&end.given);
    let after = told_after(alloc, lines)?;
    let one_more = told_after(alloc, lines.saturating_add(1))?;
    let at_the_end = told_after(alloc, usize::MAX)?;
    for pick in PICKS {
        let told = told_of(alloc, end.world.crash(alloc, pick)?)?;
        let again = run_on(alloc, end.world.crash(alloc, pick)?, SCRIPT, &SMOOTH)?;
        let told_again = told_of(alloc, again.world.crash(alloc, 0)?)?;
        let is_left = told == after || told == one_more;
        if !is_left || again.status != Status::Done || told_again != at_the_end {
            return Ok(false);
        }
    }
    Ok(true)
}

#[test]
fn an_insert_whose_sync_fails_is_done_or_not(rt: HostRuntime) -> Result<(), Fail> {
    let alloc = rt.alloc();
    // Two writes lay the place, and then a sync, a write and a sync open it.
    for sync in [OPENED + 2, OPENED + 4] {
        let calls_fail = [sync];
        let course = Course {
            calls_fail: &calls_fail,
            ..SMOOTH
        };
        let file = file_of(alloc, b"create 2 2 4\n")?;
        let end = run_on(alloc, file, b"insert 1 1,1\nstat\n", &course)?;
        assert_eq!(rt; end.status, Status::DiskFault, "at {sync}");
        assert!(rt; end.given.is_empty(), "at {sync}");
        for pick in PICKS {
            let again = run_on(alloc, end.world.crash(alloc, pick)?, b"stat\n", &SMOOTH)?;
            assert_eq!(rt; again.status, Status::Done, "at {sync} pick {pick}");
            let given = again.given.as_slice();
            assert!(rt;
                given == EMPTY || given == ONE_LIVE,
                "at {sync} pick {pick}"
            );
        }
    }
    Ok(())
}

#[test]
fn a_call_that_fails_or_a_stop_leaves_the_lines_that_were_replied_to(
    rt: HostRuntime,
) -> Result<(), Fail> {
    let alloc = rt.alloc();
    let whole = run_on(alloc, Vec::new(alloc), SCRIPT, &SMOOTH)?;
    assert_eq!(rt; whole.given.as_slice(), REPLIES);
    assert!(rt; survives(alloc, &whole)?);
    for at in 0..whole.world.calls() {
        let calls_fail = [at];
        let fails = Course {
            calls_fail: &calls_fail,
            ..SMOOTH
        };
        let stops = Course { stop: at, ..SMOOTH };
        for course in [fails, stops] {
            let end = run_on(alloc, Vec::new(alloc), SCRIPT, &course)?;
            assert!(rt;
                matches!(end.status, Status::DiskFault | Status::WriteFault),
                "at {at}"
            );
            assert!(rt;
                REPLIES.starts_with(&end.given) && end.given.len() < REPLIES.len(),
                "at {at}"
            );
            assert!(rt; survives(alloc, &end)?, "at {at}");
        }
    }
    Ok(())
}

#[test]
fn a_give_that_fails_leaves_the_bytes_before_it(rt: HostRuntime) -> Result<(), Fail> {
    let alloc = rt.alloc();
    let replies = b"error no-store\nerror no-store\n";
    for at in 0..replies.len() {
        // The first call opens the file.
        let calls_fail = [at as u64 + 1];
        let course = Course {
            most: 1,
            calls_fail: &calls_fail,
            ..SMOOTH
        };
        let end = run_on(alloc, Vec::new(alloc), b"stat\nstat\n", &course)?;
        assert_eq!(rt; end.status, Status::WriteFault, "at {at}");
        assert_eq!(rt; end.given.as_slice(), &replies[..at], "at {at}");
    }
    Ok(())
}

#[test]
fn a_take_that_fails_leaves_the_replies_to_the_lines_before_it(
    rt: HostRuntime,
) -> Result<(), Fail> {
    let alloc = rt.alloc();
    for at in 0..SCRIPT.len() {
        let takes_fail = [at as u64];
        let course = Course {
            piece: 1,
            most: 1,
            takes_fail: &takes_fail,
            ..SMOOTH
        };
        let end = run_on(alloc, Vec::new(alloc), SCRIPT, &course)?;
        assert_eq!(rt; end.status, Status::ReadFault, "at {at}");
        let before = first_lines(REPLIES, newlines(&SCRIPT[..at]));
        assert_eq!(rt; end.given.as_slice(), before, "at {at}");
    }
    Ok(())
}

#[test]
fn an_input_longer_than_the_limit_has_the_replies_within_it(rt: HostRuntime) -> Result<(), Fail> {
    let alloc = rt.alloc();
    for (limit, status, replies) in [
        (4, Status::TooLong, &b""[..]),
        (5, Status::TooLong, &b"error no-store\n"[..]),
        (9, Status::TooLong, &b"error no-store\n"[..]),
        (10, Status::Done, &b"error no-store\nerror no-store\n"[..]),
    ] {
        for piece in [4096, 1] {
            let course = Course {
                piece,
                limit,
                ..SMOOTH
            };
            let end = run_on(alloc, Vec::new(alloc), b"stat\nstat\n", &course)?;
            assert_eq!(rt; end.status, status, "at {limit}");
            assert_eq!(rt; end.given.as_slice(), replies, "at {limit}");
        }
    }
    Ok(())
}
