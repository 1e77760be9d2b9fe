// Certificates of searches over a tray.
ghost use Rattle.std.specs.Prelude.{◌≡◌, ◌≤◌, [], length, IfOk};
ghost use Rattle.va_ports.specs.Tray as trays;

use crate::build;
use std::alloc::Global;
use std::test::Fail;
use va_cert::to_text;
use va_core::Shape;
use va_dist::Query;
use va_marks::Marks;
use va_ports::{SearchFault, ShelfFault, Tray};

// Two dimensions, room for four cells, and none.
fn empty_tray(alloc: Global, bits: u16, fails: Vec<u64>) -> Result<Tray, Fail>
    ensures dims { IfOk result (λ t. (trays.contents t).shape.dims ≡ 2) }
    ensures capacity { IfOk result (λ t. (trays.contents t).shape.capacity ≡ 4) }
    ensures cells { IfOk result (λ t. (trays.contents t).cells ≡ []) }
{
    let shape = Shape::new(2, bits, 4)?;
    let marks = Marks::equal(alloc, shape)?;
    Ok(Tray::new(alloc, shape, &marks, fails)?)
}

// Ids 1 at (10, 10), 2 at (120, 120) and 3 at (200, 200), the last one first.
fn three_cells(alloc: Global, bits: u16, fails: Vec<u64>) -> Result<Tray, Fail>
    ensures dims { IfOk result (λ t. (trays.contents t).shape.dims ≡ 2) }
    ensures cells { IfOk result (λ t. length (trays.contents t).cells ≤ 4096) }
{
    let mut tray = empty_tray(alloc, bits, fails)?;
    tray.put(alloc, 0, 3, &[200, 200])?;
    tray.put(alloc, 1, 2, &[120, 120])?;
    tray.put(alloc, 2, 1, &[10, 10])?;
    Ok(tray)
}

// The text of the certificate of the nearest one.
fn text(alloc: Global, tray: &mut Tray, object: [u8; 2], weights: [u16; 2]) -> Result<String, Fail>
    requires dims { (trays.contents tray.old).shape.dims ≡ 2 }
    requires cells { length (trays.contents tray.old).cells ≤ 4096 }
{
    let query = Query::new(alloc, 2, &object, &weights)?;
    let cert = build(alloc, tray, &query, 1)?;
    Ok(to_text(alloc, &cert)?)
}

// The text that has this answer, these boxes, these entries and what was asked.
fn text_of(alloc: Global, lists: [&str; 3], asked: &str) -> Result<String, Fail> {
    let [answer, boxes, fetched] = lists;
    Ok(format!(in alloc;
        r#"{{"answer":{answer},"boxes":{boxes},"fetched":{fetched},"k":1,{asked}}}"#
    )?)
}

const HALVES: &str = "[[1,[0,0],[127,127]],[2,[0,0],[127,127]],[3,[128,128],[255,255]]]";

const POINTS: &str = "[[1,[10,10],[10,10]],[2,[120,120],[120,120]],[3,[200,200],[200,200]]]";

#[test]
fn what_was_read_stands_beside_its_substitutes(rt: HostRuntime) -> Result<(), Fail> {
    let alloc = rt.alloc();
    let equal = r#""objects":[[0,0]],"weights":[1,1]"#;
    let none = r#""objects":[[0,0]],"weights":[0,0]"#;
    for (bits, weights, answer, boxes, fetched, asked) in [
        (
            2,
            [1, 1],
            "[[1,200]]",
            HALVES,
            "[[1,[10,10],[0,0]],[2,[120,120],[0,0]]]",
            equal,
        ),
        (16, [1, 1], "[[1,200]]", POINTS, "[]", equal),
        (2, [0, 0], "[[1,0]]", HALVES, "[]", none),
    ] {
        let mut tray = three_cells(alloc, bits, Vec::new(alloc))?;
        let made = text(alloc, &mut tray, [0, 0], weights)?;
        let want = text_of(alloc, [answer, boxes, fetched], asked)?;
        assert_eq!(rt; made.as_str(), want.as_str());
    }
    let mut tray = empty_tray(alloc, 2, Vec::new(alloc))?;
    let made = text(alloc, &mut tray, [0, 0], [1, 1])?;
    let want = text_of(alloc, ["[]", "[]", "[]"], equal)?;
    assert_eq!(rt; made.as_str(), want.as_str());
    Ok(())
}

#[test]
fn of_equal_vectors_one_is_read(rt: HostRuntime) -> Result<(), Fail> {
    let alloc = rt.alloc();
    let mut tray = empty_tray(alloc, 2, Vec::new(alloc))?;
    tray.put(alloc, 0, 5, &[10, 10])?;
    tray.put(alloc, 1, 7, &[10, 10])?;
    let made = text(alloc, &mut tray, [10, 10], [1, 1])?;
    let boxes = "[[5,[0,0],[127,127]],[7,[0,0],[127,127]]]";
    let fetched = "[[5,[10,10],[127,127]]]";
    let asked = r#""objects":[[10,10]],"weights":[1,1]"#;
    let want = text_of(alloc, ["[[5,0]]", boxes, fetched], asked)?;
    assert_eq!(rt; made.as_str(), want.as_str());
    Ok(())
}

// Id 5 is read first, and id 3, which has its least distance, is as near.
#[test]
fn entries_ascend_by_their_ids(rt: HostRuntime) -> Result<(), Fail> {
    let alloc = rt.alloc();
    let mut tray = empty_tray(alloc, 2, Vec::new(alloc))?;
    tray.put(alloc, 0, 5, &[108, 0])?;
    tray.put(alloc, 1, 3, &[128, 0])?;
    let made = text(alloc, &mut tray, [118, 0], [1, 1])?;
    let boxes = "[[3,[128,0],[255,127]],[5,[0,0],[127,127]]]";
    let fetched = "[[3,[128,0],[255,127]],[5,[108,0],[118,0]]]";
    let asked = r#""objects":[[118,0]],"weights":[1,1]"#;
    let want = text_of(alloc, ["[[3,100]]", boxes, fetched], asked)?;
    assert_eq!(rt; made.as_str(), want.as_str());
    Ok(())
}

// The codes are taken by four calls for a next cell. Then the search makes four more, and two fetches.
#[test]
fn a_call_that_fails_ends_it(rt: HostRuntime) -> Result<(), Fail> {
    let alloc = rt.alloc();
    let query = Query::new(alloc, 2, &[0, 0], &[1, 1])?;
    for number in 0..11 {
        let mut tray = three_cells(alloc, 2, vec![in alloc; number]?)?;
        let fault = build(alloc, &mut tray, &query, 1).err();
        let failed = SearchFault::Shelf(ShelfFault);
        assert_eq!(rt;
            fault,
            if number < 10 { Some(failed) } else { None },
            "at {number}"
        );
    }
    Ok(())
}
