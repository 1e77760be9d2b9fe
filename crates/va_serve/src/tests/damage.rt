// Files whose vectors or codes are others than the store wrote, and disks that change under a run.
use super::*;
use std::alloc::Global;
use std::test::Fail;

/// Lines that come to the vector in place 0 behind the first reply.
const SEARCHES: [&[u8]; 3] = [
    b"stat\nknn 1 0,0\nstat\n",
    b"stat\nssa 1 0,0\nstat\n",
    b"stat\nrange 0 0,0\nstat\n",
];

/// The same, by a cursor that is opened first.
const NEXT: &[u8] = b"open 0 0,0\nnext 0\nstat\n";

#[test]
fn a_vector_outside_its_cell_ends_the_run(rt: HostRuntime) -> Result<(), Fail> {
    let alloc = rt.alloc();
    for input in SEARCHES {
        let mut image = file_of(alloc, THREE)?;
        assert!(rt; image.len() == 104);
        image[96..98].copy_from_slice(&[255, 255]);
        let end = run_on(alloc, image, input, &SMOOTH)?;
        let mismatch = Status::Mismatch {
            place: 0,
            dist: 130050,
            low: 0,
            high: 32258,
        };
        assert_eq!(rt; end.status, mismatch);
        assert_eq!(rt; end.given.as_slice(), THREE_LIVE);
    }
    Ok(())
}

#[test]
fn a_cursor_meets_a_vector_outside_its_cell(rt: HostRuntime) -> Result<(), Fail> {
    let alloc = rt.alloc();
    let mut image = file_of(alloc, THREE)?;
    assert!(rt; image.len() == 104);
    image[96..98].copy_from_slice(&[255, 255]);
    let end = run_on(alloc, image, NEXT, &SMOOTH)?;
    let mismatch = Status::Mismatch {
        place: 0,
        dist: 130050,
        low: 0,
        high: 32258,
    };
    assert_eq!(rt; end.status, mismatch);
    assert_eq!(rt; end.given.as_slice(), b"opened 3\n".as_slice());
    Ok(())
}

#[test]
fn a_vector_is_read_anew_by_a_cursor(rt: HostRuntime) -> Result<(), Fail> {
    let alloc = rt.alloc();
    let mut desk = changing_desk(alloc, THREE, 96, 11)?;
    let status = run_over(alloc, &[], &mut desk, b"open 0 0,0\nnext 0\n", &SMOOTH)?;
    assert_eq!(rt; status, Status::Done);
    assert_eq!(rt;
        desk.world().given(),
        b"opened 3\nnext 1:221 fetched 2\n".as_slice()
    );
    Ok(())
}

// A desk over the file that these lines leave, whose byte changes.
fn changing_desk(alloc: Global, lines: &[u8], at: u64, value: u8) -> Result<Loose, Fail> {
    let image = file_of(alloc, lines)?;
    let world = World::new(alloc, image, Vec::new(alloc), u64::MAX).map_err(no_memory)?;
    Ok(Loose::new(world, at, value))
}

#[test]
fn a_code_that_changes_to_none_ends_the_run(rt: HostRuntime) -> Result<(), Fail> {
    let alloc = rt.alloc();
    for input in SEARCHES {
        let mut desk = changing_desk(alloc, THREE, 76, 1)?;
        let status = run_over(alloc, &[], &mut desk, input, &SMOOTH)?;
        assert_eq!(rt; status, Status::Changed { place: 0 });
        assert_eq!(rt; desk.world().given(), THREE_LIVE);
    }
    Ok(())
}

#[test]
fn a_vector_is_read_anew_by_each_search(rt: HostRuntime) -> Result<(), Fail> {
    let alloc = rt.alloc();
    // The file, the lines before the search, and the replies to them.
    for (before, lines, replies) in [
        (
            THREE,
            b"knn 1 0,0\n".as_slice(),
            b"near 1:200 fetched 2 candidates 2 live 3\n".as_slice(),
        ),
        (
            b"".as_slice(),
            THREE,
            b"created\nplaced 0\nplaced 1\nplaced 2\n".as_slice(),
        ),
    ] {
        let mut desk = changing_desk(alloc, before, 96, 11)?;
        let mut lines = lines.to_vec(alloc)?;
        lines.extend_from_slice(b"knn 1 0,0\n")?;
        let mut replies = replies.to_vec(alloc)?;
        replies.extend_from_slice(b"near 1:221 fetched 2 candidates 2 live 3\n")?;
        let status = run_over(alloc, &[], &mut desk, &lines, &SMOOTH)?;
        assert_eq!(rt; status, Status::Done);
        assert_eq!(rt; desk.world().given(), replies.as_slice());
    }
    Ok(())
}
