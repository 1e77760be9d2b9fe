// Runs that words ask for: what no clause says is that these very texts have these very replies.
use super::*;
use std::test::Fail;

const EMPTY_STORE: &[u8] = b"create 2 2 4\n";

// How a run over a CSV text ends, on the store that these lines leave.
fn imported(alloc: Global, lines: &[u8], text: &[u8], course: &Course<'_>) -> Result<End, Fail> {
    run_with(alloc, &["--csv"], file_of(alloc, lines)?, text, course)
}

#[test]
fn each_record_has_its_reply(rt: HostRuntime) -> Result<(), Fail> {
    let alloc = rt.alloc();
    let long = vec![in alloc; b'9'; 65_537]?;
    let texts: [(&[u8], &[u8]); 8] = [
        (
            b"1,10,10\n2,120,120\nx,1,1\n",
            b"placed 0\nplaced 1\nerror syntax\n",
        ),
        // Quoted fields, one of them with a comma.
        (b"\"1\",\"10,10\"\n", b"placed 0\n"),
        // Records without a byte, and lines that end in two.
        (b"\n\n1,10,10\r\n\r\n2,120,120", b"placed 0\nplaced 1\n"),
        // A record of one field, and one of three coordinates.
        (b"1\n1,2,3,4\n", b"error syntax\nerror length\n"),
        // A field with a newline in it is one line with it.
        (b"1,\"10\n\",10\n2,1,1\n", b"error syntax\nplaced 0\n"),
        // An id twice.
        (b"1,1,1\n1,2,2\n", b"placed 0\nerror duplicate\n"),
        (long.as_slice(), b"error long\n"),
        (b"", b""),
    ];
    for (text, replies) in texts {
        let end = imported(alloc, EMPTY_STORE, text, &SMOOTH)?;
        assert_eq!(rt; end.status, Status::Done);
        assert_eq!(rt; end.given.as_slice(), replies);
    }
    Ok(())
}

#[test]
fn records_need_a_store(rt: HostRuntime) -> Result<(), Fail> {
    let end = imported(rt.alloc(), b"", b"1,10,10\n", &SMOOTH)?;
    assert_eq!(rt; end.status, Status::Done);
    assert_eq!(rt; end.given.as_slice(), b"error no-store\n".as_slice());
    Ok(())
}

#[test]
fn no_record_is_run_before_the_whole_text_was_taken(rt: HostRuntime) -> Result<(), Fail> {
    let alloc = rt.alloc();
    let text = b"1,10,10\n2,120,120\n";
    for (limit, status, replies) in [
        (text.len() as u64 - 1, Status::TooLong, &b""[..]),
        (
            text.len() as u64,
            Status::Done,
            &b"placed 0\nplaced 1\n"[..],
        ),
    ] {
        let course = Course { limit, ..SMOOTH };
        let end = imported(alloc, EMPTY_STORE, text, &course)?;
        assert_eq!(rt; end.status, status);
        assert_eq!(rt; end.given.as_slice(), replies);
    }
    for at in 0..text.len() {
        let takes_fail = [at as u64];
        let course = Course {
            piece: 1,
            takes_fail: &takes_fail,
            ..SMOOTH
        };
        let end = imported(alloc, EMPTY_STORE, text, &course)?;
        assert_eq!(rt; end.status, Status::ReadFault, "at {at}");
        assert!(rt; end.given.is_empty(), "at {at}");
    }
    Ok(())
}

#[test]
fn what_is_exported_is_imported_again(rt: HostRuntime) -> Result<(), Fail> {
    let alloc = rt.alloc();
    let texts: [(&[u8], &[u8], &[u8]); 3] = [
        (
            b"1,10,10\n2,120,120\nx,1,1\n",
            b"placed 0\nplaced 1\nerror syntax\n",
            b"1,10,10\n2,120,120\n",
        ),
        (
            b"9,0,255\n\"4\",1,2\n4294967295,3,4\n",
            b"placed 0\nplaced 1\nplaced 2\n",
            b"4,1,2\n9,0,255\n4294967295,3,4\n",
        ),
        (b"", b"", b""),
    ];
    for (text, replies, records) in texts {
        let end = imported(alloc, EMPTY_STORE, text, &SMOOTH)?;
        assert_eq!(rt; end.given.as_slice(), replies);
        let file = end.world.crash(alloc, 0)?;
        let first = unfed(alloc, &["--export"], file)?;
        assert_eq!(rt; first.status, Status::Done);
        assert_eq!(rt; first.given.as_slice(), records);
        let end = imported(alloc, EMPTY_STORE, &first.given, &SMOOTH)?;
        let file = end.world.crash(alloc, 0)?;
        let again = unfed(alloc, &["--export"], file)?;
        assert_eq!(rt; again.given.as_slice(), records);
    }
    Ok(())
}

// A run for these words that doesn't ask its source, of which each take would fail.
fn unfed(alloc: Global, words: &[&str], image: Vec<u8>) -> Result<End, Fail> {
    let course = Course {
        takes_fail: &[0],
        ..SMOOTH
    };
    run_with(alloc, words, image, b"stat\n", &course)
}

#[test]
fn work_on_one_vector_reads_it_for_each_search(rt: HostRuntime) -> Result<(), Fail> {
    let alloc = rt.alloc();
    let forms: [&[&str]; 2] = [&["--work", "1"], &["--work=1"]];
    for words in forms {
        let end = unfed(alloc, words, Vec::new(alloc))?;
        assert_eq!(rt; end.status, Status::Done);
        assert_eq!(rt;
            end.given.as_slice(),
            b"work 1 fetched 32 candidates 32 sum 2000619\n".as_slice()
        );
        let file = end.world.crash(alloc, 0)?;
        let before = file.to_vec(alloc)?;
        let again = unfed(alloc, words, file)?;
        assert_eq!(rt; again.status, Status::Done);
        assert_eq!(rt; again.given.as_slice(), b"error exists\n".as_slice());
        assert_eq!(rt; again.world.crash(alloc, 0)?.as_slice(), before.as_slice());
    }
    Ok(())
}

// What the script for 2000 adds up to; the sum was computed apart from the program.
const WORKED: &[u8] = b"work 2000 fetched 740 candidates 1648 sum 4205464\n";

#[test]
fn work_gives_the_same_line_again(rt: HostRuntime) -> Result<(), Fail> {
    let alloc = rt.alloc();
    let first = unfed(alloc, &["--work", "2000"], Vec::new(alloc))?;
    assert_eq!(rt; first.status, Status::Done);
    assert_eq!(rt; first.given.as_slice(), WORKED);
    let second = unfed(alloc, &["--work", "2000"], Vec::new(alloc))?;
    assert_eq!(rt; second.given.as_slice(), WORKED);
    let lines =
        b"ssa 10 0,0,0,0,0,0,0,0\nrange 0 0,0,0,0,0,0,0,0\nopen 0 0,0,0,0,0,0,0,0\ncert 10 0,0,0,0,0,0,0,0\n";
    let end = run_on(alloc, first.world.crash(alloc, 0)?, lines, &SMOOTH)?;
    assert_eq!(rt; end.status, Status::Done);
    assert_eq!(rt; newlines(&end.given), 4);
    for at in 0..end.given.len() {
        assert!(rt; !end.given[at..].starts_with(b"error"), "at {at}");
    }
    Ok(())
}

#[test]
fn words_that_have_no_form_are_usage(rt: HostRuntime) -> Result<(), Fail> {
    let alloc = rt.alloc();
    let lists: [&[&str]; 4] = [
        &["--csv", "--export"],
        &["--work", "0"],
        &["--"],
        &["--csv=x"],
    ];
    for words in lists {
        let end = unfed(alloc, words, Vec::new(alloc))?;
        assert_eq!(rt; end.status, Status::Usage, "at {words:?}");
        assert_eq!(rt; end.status.code(), 2, "at {words:?}");
        assert!(rt; end.given.is_empty(), "at {words:?}");
    }
    Ok(())
}
