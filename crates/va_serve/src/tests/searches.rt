// Searches and their replies.
use super::*;
use std::alloc::Global;
use std::test::Fail;

const NONE: &[u8] = b"create 2 2 4\n";

/// The first three in the other order.
const BACKWARDS: &[u8] = b"create 2 2 4\ninsert 3 200,200\ninsert 2 120,120\ninsert 1 10,10\n";

/// So many bits that each cell holds one vector alone.
const NARROW: &[u8] = b"create 2 16 4\ninsert 1 10,10\ninsert 2 120,120\ninsert 3 200,200\n";

const ALIKE: &[u8] = b"create 2 2 4\ninsert 7 10,10\ninsert 5 10,10\n";

/// Two that are alike, and a lesser id farther away, whose lower bound is as small.
const LESSER: &[u8] = b"create 2 2 4\ninsert 7 10,10\ninsert 5 10,10\ninsert 3 20,20\n";

/// Both are at a distance of 100 from 118,0, and so is the near side of the second's cell.
const AS_FAR: &[u8] = b"create 2 2 4\ninsert 5 108,0\ninsert 3 128,0\n";

const COLOURS: &[u8] =
    b"create 3 6 100\ninsert 101 200,30,40\ninsert 102 190,35,50\ninsert 103 20,180,60\ninsert 104 60,60,200\ninsert 105 210,25,45\n";

/// The lines that make a store, a search over it, and its reply.
const ROWS: [(&[u8], &str, &str); 36] = [
    (NONE, "knn 1 0,0", "near fetched 0 candidates 0 live 0"),
    (NONE, "ssa 1 0,0", "near fetched 0 live 0"),
    (NONE, "range 0 0,0", "within fetched 0 live 0"),
    (
        THREE,
        "knn 1 0,0",
        "near 1:200 fetched 2 candidates 2 live 3",
    ),
    (
        THREE,
        "knn 9 0,0",
        "near 1:200 2:28800 3:80000 fetched 3 candidates 3 live 3",
    ),
    (
        THREE,
        "knn 4096 0,0",
        "near 1:200 2:28800 3:80000 fetched 3 candidates 3 live 3",
    ),
    (THREE, "ssa 1 0,0", "near 1:200 fetched 2 live 3"),
    (
        THREE,
        "ssa 4096 0,0",
        "near 1:200 2:28800 3:80000 fetched 3 live 3",
    ),
    (
        BACKWARDS,
        "knn 1 0,0",
        "near 1:200 fetched 2 candidates 2 live 3",
    ),
    (BACKWARDS, "ssa 1 0,0", "near 1:200 fetched 3 live 3"),
    (THREE, "range 200 0,0", "within 1:200 fetched 2 live 3"),
    (THREE, "range 199 0,0", "within fetched 2 live 3"),
    (
        THREE,
        "range 18446744073709551615 0,0",
        "within 1:200 2:28800 3:80000 fetched 3 live 3",
    ),
    (
        NARROW,
        "knn 1 0,0",
        "near 1:200 fetched 0 candidates 1 live 3",
    ),
    (NARROW, "ssa 1 0,0", "near 1:200 fetched 0 live 3"),
    (
        NARROW,
        "range 28800 0,0",
        "within 1:200 2:28800 fetched 0 live 3",
    ),
    // Of two at the same distance the lesser id is nearer, whichever came first.
    (
        ALIKE,
        "knn 1 10,10",
        "near 5:0 fetched 1 candidates 2 live 2",
    ),
    (
        LESSER,
        "knn 1 10,10",
        "near 5:0 fetched 2 candidates 3 live 3",
    ),
    (
        AS_FAR,
        "knn 1 118,0",
        "near 3:100 fetched 2 candidates 2 live 2",
    ),
    (
        COLOURS,
        "knn 2 205,28,42",
        "near 101:33 105:43 fetched 2 candidates 3 live 5",
    ),
    // Weights of 0 make all cells narrow.
    (
        THREE,
        "knn 1 0,0 w=0,0",
        "near 1:0 fetched 0 candidates 1 live 3",
    ),
    (THREE, "ssa 1 0,0 w=2,1", "near 1:300 fetched 2 live 3"),
    (
        THREE,
        "range 300 0,0 w=2,1",
        "within 1:300 fetched 2 live 3",
    ),
    // The distance is the sum of those from each object.
    (
        THREE,
        "knn 1 0,0/20,20",
        "near 1:400 fetched 1 candidates 2 live 3",
    ),
    (THREE, "ssa 1 0,0/20,20", "near 1:400 fetched 1 live 3"),
    (THREE, "range 399 0,0/20,20", "within fetched 0 live 3"),
    // Of several reasons the length comes first.
    (THREE, "knn 0 0", "error length"),
    (THREE, "knn 0 0,0/1", "error length"),
    (THREE, "ssa 4097 0,0,0", "error length"),
    (THREE, "ssa 0 0,0 w=1", "error length"),
    (THREE, "range 0 0", "error length"),
    (THREE, "range 0 0,0 w=1,1,1", "error length"),
    (THREE, "knn 0 0,0", "error k"),
    (THREE, "knn 4097 0,0 w=1,1", "error k"),
    (THREE, "ssa 0 0,0/1,1", "error k"),
    (THREE, "ssa 4097 0,0", "error k"),
];

#[test]
fn each_search_has_its_reply(rt: HostRuntime) -> Result<(), Fail> {
    let alloc = rt.alloc();
    for (lines, search, reply) in ROWS {
        let file = file_of(alloc, lines)?;
        let end = run_on(alloc, file, search.as_bytes(), &SMOOTH)?;
        assert_eq!(rt; end.status, Status::Done, "{search}");
        let want = format!(in alloc; "{reply}\n")?;
        assert_eq!(rt; String::from_utf8(end.given)?, want, "{search}");
    }
    Ok(())
}

/// The lines that make a store, a line that asks for a certificate, and its reply.
const CERTIFICATES: [(&[u8], &[u8], &[u8]); 12] = [
    (
        NONE,
        b"cert 1 0,0",
        b"cert {\"answer\":[],\"boxes\":[],\"fetched\":[],\"k\":1,\"objects\":[[0,0]],\"weights\":[1,1]}\n",
    ),
    (
        THREE,
        b"cert 1 0,0",
        b"cert {\"answer\":[[1,200]],\"boxes\":[[1,[0,0],[127,127]],[2,[0,0],[127,127]],[3,[128,128],[255,255]]],\"fetched\":[[1,[10,10],[0,0]],[2,[120,120],[0,0]]],\"k\":1,\"objects\":[[0,0]],\"weights\":[1,1]}\n",
    ),
    // More are asked for than there are.
    (
        THREE,
        b"cert 9 0,0",
        b"cert {\"answer\":[[1,200],[2,28800],[3,80000]],\"boxes\":[[1,[0,0],[127,127]],[2,[0,0],[127,127]],[3,[128,128],[255,255]]],\"fetched\":[[1,[10,10],[0,0]],[2,[120,120],[0,0]],[3,[200,200],[128,128]]],\"k\":9,\"objects\":[[0,0]],\"weights\":[1,1]}\n",
    ),
    // The vector is as near as any of its cell, so the substitute is the farthest one.
    (
        THREE,
        b"cert 1 0,0/20,20",
        b"cert {\"answer\":[[1,400]],\"boxes\":[[1,[0,0],[127,127]],[2,[0,0],[127,127]],[3,[128,128],[255,255]]],\"fetched\":[[1,[10,10],[127,127]]],\"k\":1,\"objects\":[[0,0],[20,20]],\"weights\":[1,1]}\n",
    ),
    (
        ALIKE,
        b"cert 1 10,10",
        b"cert {\"answer\":[[5,0]],\"boxes\":[[5,[0,0],[127,127]],[7,[0,0],[127,127]]],\"fetched\":[[5,[10,10],[127,127]]],\"k\":1,\"objects\":[[10,10]],\"weights\":[1,1]}\n",
    ),
    // Nothing is read of cells that hold one vector, or that the weights make narrow.
    (
        NARROW,
        b"cert 1 0,0",
        b"cert {\"answer\":[[1,200]],\"boxes\":[[1,[10,10],[10,10]],[2,[120,120],[120,120]],[3,[200,200],[200,200]]],\"fetched\":[],\"k\":1,\"objects\":[[0,0]],\"weights\":[1,1]}\n",
    ),
    (
        THREE,
        b"cert 1 0,0 w=0,0",
        b"cert {\"answer\":[[1,0]],\"boxes\":[[1,[0,0],[127,127]],[2,[0,0],[127,127]],[3,[128,128],[255,255]]],\"fetched\":[],\"k\":1,\"objects\":[[0,0]],\"weights\":[0,0]}\n",
    ),
    (THREE, b"cert 0 0", b"error length\n"),
    (THREE, b"cert 0 0,0/1", b"error length\n"),
    (THREE, b"cert 4097 0,0 w=1", b"error length\n"),
    (THREE, b"cert 0 0,0", b"error k\n"),
    (THREE, b"cert 4097 0,0", b"error k\n"),
];

#[test]
fn each_certificate_has_its_text(rt: HostRuntime) -> Result<(), Fail> {
    let alloc = rt.alloc();
    for (lines, line, reply) in CERTIFICATES {
        let file = file_of(alloc, lines)?;
        let end = run_on(alloc, file, line, &SMOOTH)?;
        assert_eq!(rt; end.status, Status::Done);
        assert_eq!(rt; end.given.as_slice(), reply);
    }
    Ok(())
}

#[test]
fn a_search_reads_the_codes_once_and_then_the_vectors(rt: HostRuntime) -> Result<(), Fail> {
    let alloc = rt.alloc();
    for search in ["knn 1 0,0", "ssa 1 0,0", "range 200 0,0"] {
        let file = file_of(alloc, THREE)?;
        let opened = run_on(alloc, file.clone()?, b"", &SMOOTH)?
            .world
            .reads()
            .len();
        let end = run_on(alloc, file, search.as_bytes(), &SMOOTH)?;
        let after = end.world.reads().get(opened..);
        assert_eq!(rt;
            after,
            Some([(76, 4), (96, 2), (98, 2)].as_slice()),
            "{search}"
        );
    }
    Ok(())
}
