// Cursors and their replies, over the first three vectors.
use super::*;
use std::alloc::Global;
use std::test::Fail;

/// Lines, and the reply to each, where the file holds the three.
const ROWS: [(&str, &str); 9] = [
    // A snapshot is ranked whatever is deleted or inserted later, and its places are held until the cursor is closed.
    (
        "open 0 0,0\ndelete 1\ninsert 4 1,1\nnext 0\nnext 0\ninsert 5 9,9\nnext 0\nnext 0\nclose 0\ninsert 5 9,9\n",
        "opened 3\ndeleted 0\nplaced 3\nnext 1:200 fetched 2\nnext 2:28800 fetched 0\nerror full\nnext 3:80000 fetched 1\nend\nclosed\nplaced 0\n",
    ),
    // The length comes before the name, and an end stays one.
    (
        "open 3 0\nopen 3 0,0\nopen 3 0\nopen 3 1,1\nclose 4\nnext 4\nclose 3\nclose 3\nnext 3\n",
        "error length\nopened 3\nerror length\nerror cursor\nerror cursor\nerror cursor\nclosed\nerror cursor\nerror cursor\n",
    ),
    (
        "open 64 0,0\nnext 64\nclose 64\n",
        "error syntax\nerror syntax\nerror syntax\n",
    ),
    // Two cursors go on apart from each other, each with reads of its own.
    (
        "open 0 0,0\nopen 63 200,200\nstat\nnext 0\nnext 63\nnext 63\nnext 0\nclose 0\nnext 63\nnext 63\nnext 63\nstat\n",
        "opened 3\nopened 3\nstat dims 2 bits 2 capacity 4 live 3 cursors 2 building no\nnext 1:200 fetched 2\nnext 3:0 fetched 1\nnext 2:12800 fetched 2\nnext 2:28800 fetched 0\nclosed\nnext 1:72200 fetched 0\nend\nend\nstat dims 2 bits 2 capacity 4 live 3 cursors 1 building no\n",
    ),
    // A place that two cursors hold is held until both are closed.
    (
        "open 0 0,0\nopen 1 0,0\ndelete 1\ninsert 4 1,1\ninsert 5 9,9\nclose 0\ninsert 5 9,9\nclose 1\ninsert 5 9,9\n",
        "opened 3\nopened 3\ndeleted 0\nplaced 3\nerror full\nclosed\nerror full\nclosed\nplaced 0\n",
    ),
    // A place that isn't live in the snapshot isn't held, whatever stood in it before.
    (
        "delete 1\nopen 0 0,0\ninsert 1 9,9\nnext 0\nnext 0\nnext 0\n",
        "deleted 0\nopened 2\nplaced 0\nnext 2:28800 fetched 1\nnext 3:80000 fetched 1\nend\n",
    ),
    // An id that was deleted and stored again is ranked as it was.
    (
        "open 0 0,0 w=1,0\ndelete 1\ninsert 1 255,255\nnext 0\nget 1\n",
        "opened 3\ndeleted 0\nplaced 3\nnext 1:100 fetched 2\nvector 255,255\n",
    ),
    // Weights of 0 leave nothing to read.
    (
        "open 0 0,0 w=0,0\nnext 0\nnext 0\nnext 0\nnext 0\n",
        "opened 3\nnext 1:0 fetched 0\nnext 2:0 fetched 0\nnext 3:0 fetched 0\nend\n",
    ),
    (
        "delete 1\ndelete 2\ndelete 3\nopen 0 0,0\nnext 0\nclose 0\n",
        "deleted 0\ndeleted 1\ndeleted 2\nopened 0\nend\nclosed\n",
    ),
];

#[test]
fn cursors_rank_what_was_live_when_they_were_opened(rt: HostRuntime) -> Result<(), Fail> {
    let alloc = rt.alloc();
    for (lines, replies) in ROWS {
        let file = file_of(alloc, THREE)?;
        let end = run_on(alloc, file, lines.as_bytes(), &SMOOTH)?;
        assert_eq!(rt; end.status, Status::Done, "{lines}");
        assert_eq!(rt; String::from_utf8(end.given)?.as_str(), replies, "{lines}");
    }
    Ok(())
}

/// Cursors end with the run.
#[test]
fn a_later_run_has_no_cursors(rt: HostRuntime) -> Result<(), Fail> {
    let alloc = rt.alloc();
    let file = file_of(alloc, THREE)?;
    let opened = run_on(alloc, file, b"open 0 0,0\ndelete 1\n", &SMOOTH)?;
    let file = opened.world.crash(alloc, 0)?;
    let end = run_on(alloc, file, b"next 0\ninsert 4 1,1\n", &SMOOTH)?;
    assert_eq!(rt;
        end.given.as_slice(),
        b"error cursor\nplaced 0\n".as_slice()
    );
    Ok(())
}
