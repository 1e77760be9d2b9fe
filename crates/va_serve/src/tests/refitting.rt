// Refitting and its replies, over the first three vectors.
use super::*;
use std::test::Fail;

/// Lines, and the reply to each, where the file holds the three.
const ROWS: [(&str, &str); 6] = [
    (
        "requant\nconvert 9\nmarks\nknn 1 0,0\n",
        "building 3\nswitched 3\nmarks 0,120,256 0,120,256\nnear 1:200 fetched 1 candidates 1 live 3\n",
    ),
    // Vectors come and go while marks are built.
    (
        "requant\nconvert 1\ndelete 2\ninsert 2 5,5\nconvert 9\nknn 1 0,0\n",
        "building 3\nmore 1 2\ndeleted 1\nplaced 1\nswitched 2\nnear 2:50 fetched 2 candidates 2 live 3\n",
    ),
    // The reasons of refusals in their order, with no building, and with one.
    (
        "knn 0 0\nknn 0 0,0\nknn 4097 0,0\nopen 64 0,0\nclose 3\nconvert 1\nrequant\nrequant\n",
        "error length\nerror k\nerror k\nerror syntax\nerror cursor\nerror idle\nbuilding 3\nerror busy\n",
    ),
    (
        "requant\nstat\nconvert 1\nstat\nconvert 4294967295\nstat\nconvert 1\n",
        "building 3\nstat dims 2 bits 2 capacity 4 live 3 cursors 0 building yes\nmore 1 2\nstat dims 2 bits 2 capacity 4 live 3 cursors 0 building 1\nswitched 2\nstat dims 2 bits 2 capacity 4 live 3 cursors 0 building no\nerror idle\n",
    ),
    // A cursor answers and reads under the marks of when it was opened.
    (
        "open 0 0,0\nrequant\nconvert 9\nnext 0\nnext 0\nnext 0\nnext 0\nknn 1 0,0\n",
        "opened 3\nbuilding 3\nswitched 3\nnext 1:200 fetched 2\nnext 2:28800 fetched 0\nnext 3:80000 fetched 1\nend\nnear 1:200 fetched 1 candidates 1 live 3\n",
    ),
    // A building goes over what is live when an id's turn comes, and a second one begins anew.
    (
        "requant\ndelete 3\nconvert 1\nconvert 1\nrequant\nconvert 2\nmarks\n",
        "building 3\ndeleted 2\nmore 1 1\nswitched 1\nbuilding 2\nswitched 2\nmarks 0,120,256 0,120,256\n",
    ),
];

#[test]
fn cells_are_refitted_while_lines_come_and_go(rt: HostRuntime) -> Result<(), Fail> {
    let alloc = rt.alloc();
    for (lines, replies) in ROWS {
        let file = file_of(alloc, THREE)?;
        let end = run_on(alloc, file, lines.as_bytes(), &SMOOTH)?;
        assert_eq!(rt; end.status, Status::Done, "{lines}");
        assert_eq!(rt; String::from_utf8(end.given)?.as_str(), replies, "{lines}");
    }
    Ok(())
}

/// Without vectors the new marks are the old ones.
#[test]
fn an_empty_store_is_refitted(rt: HostRuntime) -> Result<(), Fail> {
    let alloc = rt.alloc();
    let lines = b"create 1 1 2\nrequant\nconvert 1\nmarks\n";
    let end = run_on(alloc, Vec::new(alloc), lines, &SMOOTH)?;
    assert_eq!(rt;
        end.given.as_slice(),
        b"created\nbuilding 0\nswitched 0\nmarks 0,128,256\n".as_slice()
    );
    Ok(())
}

/// A building ends with the run, and leaves the marks that were selected.
#[test]
fn a_later_run_has_no_building(rt: HostRuntime) -> Result<(), Fail> {
    let alloc = rt.alloc();
    let file = file_of(alloc, THREE)?;
    let begun = run_on(alloc, file, b"requant\nconvert 2\n", &SMOOTH)?;
    let file = begun.world.crash(alloc, 0)?;
    let end = run_on(alloc, file, b"convert 1\nmarks\nknn 1 0,0\n", &SMOOTH)?;
    assert_eq!(rt;
        end.given.as_slice(),
        b"error idle\nmarks 0,128,256 0,128,256\nnear 1:200 fetched 2 candidates 2 live 3\n".as_slice()
    );
    Ok(())
}
