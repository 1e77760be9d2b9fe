// Lines and replies as they are spelled.
use crate::*;
use std::alloc::{AllocError, Global};
use std::test::Fail;
use va_core::{Memory, Pair, Shape};
use va_disk::{Desk, SinkFault, World};
use va_marks::Marks;

fn no_memory(_: Memory) -> Fail {
    Fail::new("memory")
}

// A desk whose calls fail as listed.
fn desk(alloc: Global, fails: Vec<u64>) -> Result<World, Fail> {
    World::new(alloc, Vec::new(alloc), fails, u64::MAX).map_err(no_memory)
}

// Gives a reply to any desk.
fn answer<D: Desk>(desk: &mut D, reply: &Reply<'_>) -> Result<(), SinkFault> {
    send(desk, reply)
}

// Gives the reply with pairs. The marks that are lent for nothing tell the prover of each type in a reply.
fn tell_nearest<D: Desk>(
    desk: &mut D,
    pairs: &[Pair],
    live: u32,
    _: Option<&Marks>,
) -> Result<(), SinkFault> {
    send(
        desk,
        &Reply::Scanned {
            pairs,
            fetched: 0,
            live,
        },
    )
}

#[test]
fn each_command_is_read(rt: HostRuntime) -> Result<(), Fail> {
    let mut room = Room::new(rt.alloc()).map_err(no_memory)?;
    let create = Command::Create {
        dims: 2,
        bits: 16,
        capacity: 4,
    };
    let lines = [
        ("create 2 16 4", create),
        (
            "insert 4294967295 10,255",
            Command::Insert { id: 4294967295 },
        ),
        ("delete 0", Command::Delete { id: 0 }),
        ("get 7", Command::Get { id: 7 }),
        ("stat", Command::Stat),
        ("marks", Command::Marks),
        ("knn 65535 0,0", Command::Knn { k: 65535 }),
        ("ssa 0 0/1 w=1", Command::Ssa { k: 0 }),
        (
            "range 18446744073709551615 3",
            Command::Range { radius: u64::MAX },
        ),
        (
            "open 63 0/0/0/0/0/0/0/0/0/0/0/0/0/0/0/0",
            Command::Open { name: 63 },
        ),
        ("next 63", Command::Next { name: 63 }),
        ("close 0", Command::Close { name: 0 }),
        ("requant", Command::Requant),
        ("convert 4294967295", Command::Convert { n: 4294967295 }),
        ("cert 1 9,9 w=0,65535", Command::Cert { k: 1 }),
    ];
    for (line, command) in lines {
        assert_eq!(rt; parse(line.as_bytes(), &mut room), Ok(command), "{line}");
    }
    Ok(())
}

#[test]
fn a_vector_or_a_query_stands_in_the_room(rt: HostRuntime) -> Result<(), Fail> {
    let mut room = Room::new(rt.alloc()).map_err(no_memory)?;
    assert_eq!(rt;
        parse(b"insert 1 10,255", &mut room),
        Ok(Command::Insert { id: 1 })
    );
    assert_eq!(rt; room.vector(), [10, 255].as_slice());
    assert_eq!(rt;
        parse(b"knn 1 0,7/255 w=0,65535", &mut room),
        Ok(Command::Knn { k: 1 })
    );
    assert_eq!(rt; room.objects(), 2);
    assert_eq!(rt; room.object(0), [0, 7].as_slice());
    assert_eq!(rt; room.object(1), [255].as_slice());
    assert_eq!(rt; room.weights(), Some([0, 65535].as_slice()));
    assert_eq!(rt; parse(b"ssa 1 3", &mut room), Ok(Command::Ssa { k: 1 }));
    assert_eq!(rt; room.objects(), 1);
    assert_eq!(rt; room.weights(), None);
    Ok(())
}

#[test]
fn every_other_line_is_refused(rt: HostRuntime) -> Result<(), Fail> {
    let mut room = Room::new(rt.alloc()).map_err(no_memory)?;
    let lines = [
        "",
        " ",
        "create",
        "create 2 2",
        "create 2 2 4 ",
        " create 2 2 4",
        "create  2 2 4",
        "create 2 2 4 5",
        "create\t2 2 4",
        "create 2 2 4\r",
        "Create 2 2 4",
        "creates 2 2 4",
        "create 02 2 4",
        "create +2 2 4",
        "create -2 2 4",
        "create 2.0 2 4",
        "create 65536 2 4",
        "create 2 2 4294967296",
        "create 2 2 18446744073709551620",
        "insert 1",
        "insert 1 ",
        "insert 1 10,256",
        "insert 1 10,",
        "insert 1 ,10",
        "insert 1 10,,10",
        "insert 1 10, 10",
        "insert 1 10 10",
        "insert 01 10",
        "insert 4294967296 10",
        "knn 65536 10",
        "knn 00 10",
        "near 1 10",
        "delete",
        "delete 1 2",
        "stat ",
        "stat 1",
        "next 64",
        "open 64 0,0",
        "convert 0",
        "convert 4294967296",
        "range 18446744073709551616 1",
        "knn 1 1/",
        "knn 1 /1",
        "knn 1 1//1",
        "knn 1 0/0/0/0/0/0/0/0/0/0/0/0/0/0/0/0/0",
        "knn 1 1 w=",
        "knn 1 1 w=65536",
        "knn 1 1 w=1,",
        "knn 1 1 W=1",
        "knn 1 1 w=1 w=1",
        "knn 1 w=1",
        "insert 1 1/1",
        "insert 1 1 w=1",
    ];
    for line in lines {
        assert_eq!(rt; parse(line.as_bytes(), &mut room), Err(Syntax), "{line}");
    }
    Ok(())
}

// The line `insert 1` with so many coordinates.
fn wide_insert(alloc: Global, coordinates: u16) -> Result<Vec<u8>, AllocError> {
    let mut line = Vec::from_slice(alloc, b"insert 1 0")?;
    for _ in 1..coordinates {
        line.extend_from_slice(b",0")?;
    }
    Ok(line)
}

#[test]
fn a_vector_has_256_coordinates_at_most(rt: HostRuntime) -> Result<(), Fail> {
    let mut room = Room::new(rt.alloc()).map_err(no_memory)?;
    let most = wide_insert(rt.alloc(), 256)?;
    assert_eq!(rt; parse(&most, &mut room), Ok(Command::Insert { id: 1 }));
    assert_eq!(rt; room.vector().len(), 256);
    let more = wide_insert(rt.alloc(), 257)?;
    assert_eq!(rt; parse(&more, &mut room), Err(Syntax));
    Ok(())
}

#[test]
fn each_reply_has_its_text(rt: HostRuntime) -> Result<(), Fail> {
    let Ok(shape) = Shape::new(2, 3, 4) else {
        return Err(Fail::new("shape"));
    };
    let pairs = [
        Pair { dist: 200, id: 1 },
        Pair {
            dist: 18446744073709551615,
            id: 4294967295,
        },
    ];
    let replies = [
        (Reply::Created, "created\n"),
        (Reply::Placed { place: 0 }, "placed 0\n"),
        (Reply::Deleted { place: 7 }, "deleted 7\n"),
        (
            Reply::Vector {
                vector: &[10, 0, 255],
            },
            "vector 10,0,255\n",
        ),
        (
            Reply::Stat {
                shape,
                live: 1,
                cursors: 5,
                building: None,
            },
            "stat dims 2 bits 3 capacity 4 live 1 cursors 5 building no\n",
        ),
        (
            Reply::Stat {
                shape,
                live: 1,
                cursors: 5,
                building: Some(None),
            },
            "stat dims 2 bits 3 capacity 4 live 1 cursors 5 building yes\n",
        ),
        (
            Reply::Stat {
                shape,
                live: 1,
                cursors: 5,
                building: Some(Some(9)),
            },
            "stat dims 2 bits 3 capacity 4 live 1 cursors 5 building 9\n",
        ),
        (
            Reply::Near {
                pairs: &[],
                fetched: 0,
                candidates: 0,
                live: 0,
            },
            "near fetched 0 candidates 0 live 0\n",
        ),
        (
            Reply::Near {
                pairs: &pairs,
                fetched: 2,
                candidates: 3,
                live: 5,
            },
            "near 1:200 4294967295:18446744073709551615 fetched 2 candidates 3 live 5\n",
        ),
        (
            Reply::Scanned {
                pairs: &pairs[..1],
                fetched: 3,
                live: 4,
            },
            "near 1:200 fetched 3 live 4\n",
        ),
        (
            Reply::Within {
                pairs: &[],
                fetched: 2,
                live: 3,
            },
            "within fetched 2 live 3\n",
        ),
        (Reply::Opened { live: 3 }, "opened 3\n"),
        (
            Reply::Next {
                pair: pairs[0],
                fetched: 2,
            },
            "next 1:200 fetched 2\n",
        ),
        (Reply::End, "end\n"),
        (Reply::Closed, "closed\n"),
        (Reply::Building { live: 3 }, "building 3\n"),
        (Reply::More { done: 1, left: 2 }, "more 1 2\n"),
        (Reply::Switched { done: 3 }, "switched 3\n"),
        (
            Reply::Work {
                n: 1,
                fetched: 32,
                candidates: 33,
                sum: 4000,
            },
            "work 1 fetched 32 candidates 33 sum 4000\n",
        ),
        (Reply::Error { why: Why::NoStore }, "error no-store\n"),
    ];
    for (reply, text) in replies.iter() {
        let mut desk = desk(rt.alloc(), Vec::new(rt.alloc()))?;
        assert_eq!(rt; answer(&mut desk, reply), Ok(()));
        assert_eq!(rt; desk.given(), text.as_bytes());
        assert_eq!(rt; desk.calls(), 1);
    }
    Ok(())
}

#[test]
fn marks_are_told_dimension_by_dimension(rt: HostRuntime) -> Result<(), Fail> {
    let Ok(shape) = Shape::new(2, 3, 4) else {
        return Err(Fail::new("shape"));
    };
    let marks = Marks::equal(rt.alloc(), shape).map_err(no_memory)?;
    let mut desk = desk(rt.alloc(), Vec::new(rt.alloc()))?;
    assert_eq!(rt; tell_marks(&mut desk, &marks), Ok(()));
    assert_eq!(rt;
        desk.given(),
        b"marks 0,64,128,192,256 0,128,256\n".as_slice()
    );
    Ok(())
}

// Gives the reply with marks. It stands apart from the others, since they are lent for another time.
fn tell_marks<D: Desk>(desk: &mut D, marks: &Marks) -> Result<(), SinkFault> {
    send(desk, &Reply::Marks { marks })
}

#[test]
fn each_refusal_has_its_word(rt: HostRuntime) -> Result<(), Fail> {
    let words = [
        (Why::Long, "long"),
        (Why::Syntax, "syntax"),
        (Why::NoStore, "no-store"),
        (Why::Exists, "exists"),
        (Why::Shape, "shape"),
        (Why::Length, "length"),
        (Why::Duplicate, "duplicate"),
        (Why::Full, "full"),
        (Why::Unknown, "unknown"),
        (Why::K, "k"),
        (Why::Busy, "busy"),
        (Why::Idle, "idle"),
        (Why::Cursor, "cursor"),
        (Why::Limit, "limit"),
        (Why::Memory, "memory"),
    ];
    for (why, word) in words {
        assert_eq!(rt; why.to_string(rt.alloc())?.as_str(), word);
    }
    Ok(())
}

#[test]
fn a_long_reply_is_given_in_pieces_of_nearly_4096_bytes(rt: HostRuntime) -> Result<(), Fail> {
    // 1,000 pairs of ten bytes, behind `near` and before ` fetched 0 live 5` and a newline.
    let pairs = vec![in rt.alloc(); Pair {
        dist: 10000,
        id: 100
    }; 1000]?;
    let mut desk = desk(rt.alloc(), Vec::new(rt.alloc()))?;
    assert_eq!(rt; tell_nearest(&mut desk, &pairs, 5, None), Ok(()));
    assert_eq!(rt; desk.given().len(), 4 + 1000 * 10 + 18);
    assert_eq!(rt; desk.calls(), 3);
    Ok(())
}

// Gives the reply with a text that is lent.
fn tell_cert<D: Desk>(desk: &mut D, text: &str, _: Option<&Marks>) -> Result<(), SinkFault> {
    send(desk, &Reply::Cert { text })
}

#[test]
fn a_certificate_is_given_behind_its_word(rt: HostRuntime) -> Result<(), Fail> {
    let mut desk = desk(rt.alloc(), Vec::new(rt.alloc()))?;
    assert_eq!(rt; tell_cert(&mut desk, "{}", None), Ok(()));
    assert_eq!(rt; desk.given(), b"cert {}\n".as_slice());
    assert_eq!(rt; desk.calls(), 3);
    Ok(())
}

#[test]
fn a_long_text_is_given_at_once(rt: HostRuntime) -> Result<(), Fail> {
    let mut text = String::new(rt.alloc());
    for _ in 0..1000 {
        text.push_str("12345")?;
    }
    let mut desk = desk(rt.alloc(), Vec::new(rt.alloc()))?;
    assert_eq!(rt; tell_cert(&mut desk, text.as_str(), None), Ok(()));
    assert_eq!(rt; desk.given().len(), 5 + 5000 + 1);
    assert_eq!(rt; desk.calls(), 3);
    Ok(())
}

#[test]
fn a_fault_leaves_a_part_of_the_line(rt: HostRuntime) -> Result<(), Fail> {
    let pairs = [Pair { dist: 2, id: 1 }];
    let fails = Vec::from_slice(rt.alloc(), &[3])?;
    let mut desk = desk(rt.alloc(), fails)?;
    desk.limit_give(2);
    assert_eq!(rt; tell_nearest(&mut desk, &pairs, 3, None), Err(SinkFault));
    assert_eq!(rt; desk.given(), b"near 1".as_slice());
    Ok(())
}
