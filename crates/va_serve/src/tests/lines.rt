// Lines and their replies.
use super::*;
use std::fmt;
use std::fmt::Write;
use std::test::Fail;

/// Lines, and the replies that they have where the file is blank.
const ROWS: [(&[u8], &[u8]); 8] = [
    (
        b"create 2 2 4\ninsert 1 10,10\ninsert 2 120,120\ninsert 3 200,200\nknn 1 0,0\nssa 1 0,0\nrange 200 0,0",
        b"created\nplaced 0\nplaced 1\nplaced 2\nnear 1:200 fetched 2 candidates 2 live 3\nnear 1:200 fetched 2 live 3\nwithin 1:200 fetched 2 live 3\n",
    ),
    (
        b"create 2 2 4\ninsert 1 10\ninsert 1 10,256\ninsert 1 1,1\ninsert 1 1,1\ninsert 1 1\ndelete 9\nget 9\nget 1\n",
        b"created\nerror length\nerror syntax\nplaced 0\nerror duplicate\nerror length\nerror unknown\nerror unknown\nvector 1,1\n",
    ),
    (
        b"stat\ninsert 1 1,1\ncreate 0 1 1\ncreate 2 2 4\ncreate 2 2 4\ncreate 0 1 1\nstat\n",
        b"error no-store\nerror no-store\nerror shape\ncreated\nerror exists\nerror exists\nstat dims 2 bits 2 capacity 4 live 0 cursors 0 building no\n",
    ),
    // Of two at the same distance the lesser id is nearer. A vector that is deleted is no longer found.
    (
        b"create 2 2 4\ninsert 5 10,10\ninsert 7 10,10\ninsert 3 20,20\nknn 1 10,10\ndelete 5\nknn 2 10,10\n",
        b"created\nplaced 0\nplaced 1\nplaced 2\nnear 5:0 fetched 2 candidates 3 live 3\ndeleted 0\nnear 7:0 3:200 fetched 2 candidates 2 live 2\n",
    ),
    // Of several reasons the length comes first, then the id that is live, then the store that is full.
    (
        b"create 2 2 1\ninsert 1 1,1\ninsert 1 1\ninsert 2 1\ninsert 1 2,2\ninsert 2 2,2\nget 1\n",
        b"created\nplaced 0\nerror length\nerror length\nerror duplicate\nerror full\nvector 1,1\n",
    ),
    // The least place that is free is taken.
    (
        b"create 2 2 2\ninsert 1 1,1\ninsert 2 2,2\ninsert 3 3,3\ndelete 1\ninsert 3 3,3\nget 3\nstat\n",
        b"created\nplaced 0\nplaced 1\nerror full\ndeleted 0\nplaced 0\nvector 3,3\nstat dims 2 bits 2 capacity 2 live 2 cursors 0 building no\n",
    ),
    // Without a store each of these is refused for that alone.
    (
        b"knn 0 0\nssa 0 0\nrange 0 0\nopen 0 0\nnext 0\nclose 0\nrequant\nconvert 1\ncert 0 0\ncreate 2 2 1\ncert 0 0\n",
        b"error no-store\nerror no-store\nerror no-store\nerror no-store\nerror no-store\nerror no-store\nerror no-store\nerror no-store\nerror no-store\ncreated\nerror length\n",
    ),
    (b"", b""),
];

/// Lines outside the grammar.
const OUTSIDE: [&[u8]; 18] = [
    b"",
    b" stat",
    b"stat ",
    b"create  2 2 1",
    b"create\t2 2 1",
    b"create 2 2 1\r",
    b"create 02 2 1",
    b"create +2 2 1",
    b"insert 01 1,1",
    b"insert 1 1,256",
    b"insert 1 1,+1",
    b"knn 65536 1,1",
    b"knn 1 1,1 w=",
    b"knn 1 1,1 w=65536,1",
    b"knn 1 1/1/1/1/1/1/1/1/1/1/1/1/1/1/1/1/1",
    b"open 64 0,0",
    b"near 1 1,1",
    b"STAT",
];

#[test]
fn each_line_has_its_reply_however_the_bytes_are_cut(rt: HostRuntime) -> Result<(), Fail> {
    let alloc = rt.alloc();
    for (input, replies) in ROWS {
        for (piece, most) in [(4096, 4096), (1, 4096), (3, 2), (1, 1)] {
            let course = Course {
                piece,
                most,
                ..SMOOTH
            };
            let end = run_on(alloc, Vec::new(alloc), input, &course)?;
            assert_eq!(rt; end.status, Status::Done);
            assert_eq!(rt; end.given.as_slice(), replies);
        }
    }
    Ok(())
}

// The replies to a line and then `stat`, on an empty store, in pieces of these sizes.
fn replies_to(alloc: Global, line: &[u8], piece: u64, most: u64) -> Result<Vec<u8>, Fail> {
    let file = file_of(alloc, b"create 2 2 4\n")?;
    let mut input = line.to_vec(alloc)?;
    input.extend_from_slice(b"\nstat\n")?;
    let course = Course {
        piece,
        most,
        ..SMOOTH
    };
    Ok(run_on(alloc, file, &input, &course)?.given)
}

// A reply, and then that of `stat` on an empty store.
fn then_empty(alloc: Global, reply: &[u8]) -> Result<Vec<u8>, Fail> {
    let mut replies = reply.to_vec(alloc)?;
    replies.extend_from_slice(EMPTY)?;
    Ok(replies)
}

#[test]
fn a_line_outside_the_grammar_is_refused_however_it_is_cut(rt: HostRuntime) -> Result<(), Fail> {
    let alloc = rt.alloc();
    let want = then_empty(alloc, b"error syntax\n")?;
    for line in OUTSIDE {
        for (piece, most) in [(4096, 4096), (1, 1)] {
            let given = replies_to(alloc, line, piece, most)?;
            assert_eq!(rt; given.as_slice(), want.as_slice());
        }
    }
    Ok(())
}

#[test]
fn of_257_numbers_a_line_is_refused_and_of_256_it_is_read(rt: HostRuntime) -> Result<(), Fail> {
    let alloc = rt.alloc();
    for (before, after_256) in [
        ("insert 1 1", "error length\n"),
        ("knn 1 1", "error length\n"),
        ("knn 1 1,1 w=1", "error length\n"),
    ] {
        for (count, reply) in [(256, after_256), (257, "error syntax\n")] {
            let mut line = before.as_bytes().to_vec(alloc)?;
            for _ in 1..count {
                line.extend_from_slice(b",1")?;
            }
            let want = then_empty(alloc, reply.as_bytes())?;
            for (piece, most) in [(4096, 4096), (1, 1)] {
                let given = replies_to(alloc, &line, piece, most)?;
                assert_eq!(rt; given.as_slice(), want.as_slice(), "{before} {count}");
            }
        }
    }
    Ok(())
}

#[test]
fn a_line_of_70000_bytes_is_refused_and_the_next_is_run(rt: HostRuntime) -> Result<(), Fail> {
    let alloc = rt.alloc();
    for (length, refusal) in [
        (65535, "error syntax\n"),
        (65536, "error long\n"),
        (70000, "error long\n"),
    ] {
        let line = vec![in alloc; b'1'; length]?;
        let given = replies_to(alloc, &line, 4096, 4096)?;
        let want = then_empty(alloc, refusal.as_bytes())?;
        assert_eq!(rt; given.as_slice(), want.as_slice());
    }
    Ok(())
}

#[test]
fn a_word_is_refused_and_nothing_is_taken(rt: HostRuntime) -> Result<(), Fail> {
    let alloc = rt.alloc();
    for (count, status, left) in [(0, Status::Done, 0), (1, Status::Usage, 5)] {
        let mut words = Vec::new(alloc);
        for _ in 0..count {
            words.push(format!(in alloc; "--all")?)?;
        }
        let input = b"stat\n".to_vec(alloc)?;
        let mut feed = Feed::new(alloc, input, 4096, Vec::new(alloc)).map_err(no_memory)?;
        let mut world = World::new(alloc, Vec::new(alloc), Vec::new(alloc), u64::MAX).map_err(
            no_memory,
        )?;
        assert_eq!(rt; run(alloc, &words, &mut feed, &mut world), status);
        assert_eq!(rt; feed.left().len(), left);
        assert_eq!(rt; world.given().is_empty(), count == 1);
        assert_eq!(rt; world.calls() == 0, count == 1);
    }
    Ok(())
}

#[test]
fn each_status_has_its_code_and_text(rt: HostRuntime) -> Result<(), Fail> {
    for (status, code, text) in [
        (Status::Done, 0, ""),
        (
            Status::Usage,
            2,
            "usage: va_cli STORE [--csv] [--export] [--work N]",
        ),
        (Status::ReadFault, 3, "read fault"),
        (Status::WriteFault, 4, "write fault"),
        (Status::DiskFault, 5, "disk fault"),
        (
            Status::Mismatch {
                place: 0,
                dist: 130050,
                low: 0,
                high: 32258,
            },
            6,
            "mismatch place 0 dist 130050 low 0 high 32258",
        ),
        (
            Status::Changed { place: 1048575 },
            6,
            "changed code 1048575",
        ),
        (Status::Memory, 7, "no memory"),
        (Status::TooLong, 8, "input too long"),
    ] {
        assert_eq!(rt; status.code(), code);
        let said = format!(in rt.alloc(); "{status}")?;
        assert_eq!(rt; said.as_str(), text);
    }
    Ok(())
}

// A writer with room for so many bytes.
#[derive(Drop)]
struct Narrow {
    room: usize,
}

impl fmt::Write for Narrow {
    fn write_str(&mut self, text: &str) -> fmt::Result {
        if text.len() > self.room {
            return Err(fmt::Error);
        }
        self.room -= text.len();
        Ok(())
    }
}

#[test]
fn a_text_that_finds_no_room_is_no_text(rt: HostRuntime) -> Result<(), Fail> {
    for (status, length) in [
        (Status::Usage, 49),
        (Status::DiskFault, 10),
        (Status::Changed { place: 7 }, 14),
        (Status::TooLong, 14),
    ] {
        for room in 0..length {
            let mut narrow = Narrow { room };
            assert!(rt; write!(narrow, "{status}").is_err(), "at {room}");
        }
        let mut wide = Narrow { room: length };
        write!(wide, "{status}")?;
        assert_eq!(rt; wide.room, 0);
    }
    Ok(())
}
