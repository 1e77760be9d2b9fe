// A tray, called through the bound.
ghost use Rattle.std.specs.Prelude.{◌≡◌, ◌<◌, length, IfOk};
ghost use Rattle.va_ports.specs.Tray as trays;

use crate::{Shelf, ShelfFault, Tray};
use std::alloc::Global;
use std::test::Fail;
use va_core::Shape;
use va_marks::Marks;

// Id 7 at (10, 200) in place 1 of four.
fn one_cell(alloc: Global, fails: Vec<u64>) -> Result<Tray, Fail>
    ensures dims { IfOk result (λ t. (trays.contents t).shape.dims ≡ 2) }
    ensures capacity { IfOk result (λ t. (trays.contents t).shape.capacity ≡ 4) }
{
    let shape = Shape::new(2, 2, 4)?;
    let marks = Marks::equal(alloc, shape)?;
    let mut tray = Tray::new(alloc, shape, &marks, fails)?;
    tray.put(alloc, 1, 7, &[10, 200])?;
    Ok(tray)
}

// What a scan of two cells and two fetches answer.
#[derive(Drop)]
struct Answers {
    live: u32,
    first: Result<Option<(u32, u32)>, ShelfFault>,
    code: [u8; 2],
    second: Result<Option<(u32, u32)>, ShelfFault>,
    fetches: [Result<(), ShelfFault>; 2],
    vectors: [[u8; 2]; 2],
}

fn ask<S: Shelf>(shelf: &mut S) -> Answers
    requires dims { (S.contents shelf.old).shape.dims ≡ 2 }
    requires capacity { (S.contents shelf.old).shape.capacity ≡ 4 }
{
    let mut code = [9; 2];
    let mut cell = [9; 2];
    let mut none = [9; 2];
    shelf.rewind();
    let first = shelf.next_cell(&mut code);
    let mut last = code;
    Answers {
        live: shelf.live(),
        first,
        code,
        second: shelf.next_cell(&mut last),
        fetches: [shelf.fetch(1, &mut cell), shelf.fetch(3, &mut none)],
        vectors: [cell, none],
    }
}

#[test]
fn a_tray_gives_its_cells_and_vectors(rt: HostRuntime) -> Result<(), Fail> {
    let alloc = rt.alloc();
    let mut tray = one_cell(alloc, Vec::new(alloc))?;
    let answers = ask(&mut tray);
    assert_eq!(rt; answers.live, 1);
    assert_eq!(rt; (answers.first, answers.code), (Ok(Some((1, 7))), [0, 1]));
    assert_eq!(rt; answers.second, Ok(None));
    assert_eq!(rt; answers.fetches, [Ok(()), Ok(())]);
    assert_eq!(rt; answers.vectors, [[10, 200], [0, 0]]);
    assert_eq!(rt;
        (tray.shape().dims(), tray.marks().count(0), tray.starved()),
        (2, 3, 0)
    );
    Ok(())
}

#[test]
fn the_calls_of_a_list_fail(rt: HostRuntime) -> Result<(), Fail> {
    let alloc = rt.alloc();
    for number in 0..4 {
        let mut tray = one_cell(alloc, vec![in alloc; number]?)?;
        let answers = ask(&mut tray);
        let failed = [
            answers.first.is_err(),
            answers.second.is_err(),
            answers.fetches[0].is_err(),
            answers.fetches[1].is_err(),
        ];
        assert_eq!(rt;
            failed,
            [number == 0, number == 1, number == 2, number == 3],
            "at {number}"
        );
    }
    Ok(())
}
