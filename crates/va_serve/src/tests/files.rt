// Files that a run leaves, and that one finds.
use super::*;
use std::test::Fail;

#[test]
fn a_file_has_a_header_slots_marks_codes_and_vectors(rt: HostRuntime) -> Result<(), Fail> {
    let alloc = rt.alloc();
    // The header, the slots, the marks and codes of the first region, and the vectors.
    let mut want = vec![in alloc; 0u8; 104]?;
    assert!(rt; want.len() == 104);
    want[..16].copy_from_slice(&[0x56, 0x41, 0x46, 0x31, 0, 0, 0, 2, 0, 2, 0, 0, 0, 4, 0, 0]);
    want[32..40].copy_from_slice(&[0x47, 0, 0, 0, 0, 0, 0, 1]);
    want[64..76].copy_from_slice(&[0, 0, 0, 128, 1, 0, 0, 0, 0, 128, 1, 0]);
    want[96..98].copy_from_slice(&[10, 10]);
    let file = file_of(alloc, b"create 2 2 4\ninsert 1 10,10\n")?;
    assert_eq!(rt; file.as_slice(), want.as_slice());
    want[40..48].copy_from_slice(&[0x47, 0, 0, 0, 0, 0, 0, 2]);
    want[48..56].copy_from_slice(&[0x47, 0, 0, 0, 0, 0, 0, 3]);
    want[76..80].copy_from_slice(&[0, 0, 0xC0, 0]);
    want[98..102].copy_from_slice(&[120, 120, 200, 200]);
    assert_eq!(rt; file_of(alloc, THREE)?.as_slice(), want.as_slice());
    Ok(())
}

#[test]
fn a_later_run_finds_the_store_of_an_earlier_one(rt: HostRuntime) -> Result<(), Fail> {
    let alloc = rt.alloc();
    let file = file_of(alloc, b"create 2 2 4\ninsert 7 10,20\n")?;
    assert_eq!(rt; file.len(), 104);
    let end = run_on(
        alloc,
        file,
        b"stat\nmarks\nget 7\nknn 1 10,21\ncreate 2 2 4\n",
        &SMOOTH,
    )?;
    assert_eq!(rt; end.status, Status::Done);
    let mut replies = ONE_LIVE.to_vec(alloc)?;
    replies.extend_from_slice(b"marks 0,128,256 0,128,256\n")?;
    replies.extend_from_slice(
        b"vector 10,20\nnear 7:1 fetched 1 candidates 1 live 1\nerror exists\n",
    )?;
    assert_eq!(rt; end.given.as_slice(), replies.as_slice());
    Ok(())
}

#[test]
fn a_file_that_is_no_store_is_refused(rt: HostRuntime) -> Result<(), Fail> {
    let alloc = rt.alloc();
    // A byte that is changed, the length, and the text of the refusal.
    for ((at, byte), length, text) in [
        ((0, 0x56), 103, "store: length need 104 have 103"),
        ((1, 0), 104, "store: magic"),
        ((7, 0), 104, "store: shape dims"),
        ((71, 1), 104, "store: marks 1"),
        ((47, 1), 104, "store: same id 0 1"),
        ((76, 1), 104, "store: code 0"),
    ] {
        let mut image = file_of(alloc, THREE)?;
        assert!(rt; image.len() == 104);
        image[at] = byte;
        image.truncate(length);
        let end = run_on(alloc, image, b"stat\n", &SMOOTH)?;
        assert_eq!(rt; end.status.code(), 6);
        let said = format!(in alloc; "{}", end.status)?;
        assert_eq!(rt; said.as_str(), text);
        assert!(rt; end.given.is_empty());
    }
    Ok(())
}

/// The live ids of the test by size, in a store of ten times as many places.
const MANY: u16 = 200;

/// What is asked of such a store.
const MANY_ASKED: &[u8] =
    b"stat\nknn 2 7\nssa 2 7\nrange 3 9\nopen 0 7\nnext 0\nrequant\nconvert 150\nconvert 150\n";

/// What such a store tells of itself; the two nearest of all that are alike, by two searches, none within a radius that
/// is too small, and the first of a cursor; and its refitting.
const MANY_TOLD: &[u8] =
    b"stat dims 1 bits 1 capacity 2000 live 200 cursors 0 building no\nnear 1000:0 1001:0 fetched 2 candidates 200 live 200\nnear 1000:0 1001:0 fetched 2 live 200\nwithin fetched 200 live 200\nopened 200\nnext 1000:0 fetched 1\nbuilding 200\nmore 150 50\nswitched 50\n";

// The lines that make a store of 2,000 places and fill 200 of them, with the ids 1000 to 1199.
fn many_lines(alloc: Global) -> Result<Vec<u8>, Fail> {
    let mut lines = b"create 1 1 2000\n".to_vec(alloc)?;
    for number in 0..MANY {
        let digits = [number / 100 % 10, number / 10 % 10, number % 10];
        lines.extend_from_slice(b"insert 1")?;
        for digit in digits {
            lines.push(b'0' + (digit % 10) as u8)?;
        }
        lines.extend_from_slice(b" 7\n")?;
    }
    Ok(lines)
}

#[test]
fn a_store_of_thousands_of_places_is_filled_searched_and_opened_again(
    rt: HostRuntime,
) -> Result<(), Fail> {
    let alloc = rt.alloc();
    let lines = many_lines(alloc)?;
    let first = run_on(alloc, Vec::new(alloc), &lines, &SMOOTH)?;
    assert_eq!(rt; first.status, Status::Done);
    assert_eq!(rt; newlines(&first.given), 201);
    assert!(rt; first.given.ends_with(b"placed 198\nplaced 199\n"));
    let file = first.world.crash(alloc, 0)?;
    let again = run_on(alloc, file, MANY_ASKED, &SMOOTH)?;
    assert_eq!(rt; again.status, Status::Done);
    assert_eq!(rt; again.given.as_slice(), MANY_TOLD);
    Ok(())
}
