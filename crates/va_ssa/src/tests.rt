// The searches over a tray, and over a shelf whose vectors lie outside their cells.
ghost use Rattle.std.specs.Prelude.{◌≡◌, ◌<◌, ◌∷◌, [], ℕ, List, length, IfOk, IfSome, OnOk, OnErr};
ghost use Rattle.va_core.specs.Causes.{HasCause};
ghost use Rattle.va_core.specs.Cells.{NamesSlices};
ghost use Rattle.va_ports.specs.Shelves.{Gave};
ghost use Rattle.va_ports.specs.Tray as trays;
ghost use Rattle.va_ports.specs.TrayLaws as tray_laws;

use crate::{scan_nearest, within};
use std::alloc::Global;
use std::test::Fail;
use va_core::{Pair, Shape};
use va_dist::Query;
use va_marks::Marks;
use va_ports::{SearchFault, Shelf, ShelfFault, Tray};

// Two dimensions with two slices each, and no cell.
fn empty_tray(alloc: Global, fails: Vec<u64>) -> Result<Tray, Fail>
    ensures dims { IfOk result (λ t. (trays.contents t).shape.dims ≡ 2) }
    ensures capacity { IfOk result (λ t. (trays.contents t).shape.capacity ≡ 4) }
    ensures cells { IfOk result (λ t. (trays.contents t).cells ≡ []) }
{
    let shape = Shape::new(2, 2, 4)?;
    let marks = Marks::equal(alloc, shape)?;
    Ok(Tray::new(alloc, shape, &marks, fails)?)
}

// Ids 1 at (10, 10), 2 at (120, 120) and 3 at (200, 200), in this order of places.
fn ascending_tray(alloc: Global, fails: Vec<u64>) -> Result<Tray, Fail>
    ensures { IfOk result (λ t. (trays.contents t).shape.dims ≡ 2) }
{
    let mut tray = empty_tray(alloc, fails)?;
    tray.put(alloc, 0, 1, &[10, 10])?;
    tray.put(alloc, 1, 2, &[120, 120])?;
    tray.put(alloc, 2, 3, &[200, 200])?;
    Ok(tray)
}

// The same the other way round.
fn descending_tray(alloc: Global) -> Result<Tray, Fail>
    ensures { IfOk result (λ t. (trays.contents t).shape.dims ≡ 2) }
{
    let mut tray = empty_tray(alloc, Vec::new(alloc))?;
    tray.put(alloc, 0, 3, &[200, 200])?;
    tray.put(alloc, 1, 2, &[120, 120])?;
    tray.put(alloc, 2, 1, &[10, 10])?;
    Ok(tray)
}

// The distance from (0, 0).
fn origin(alloc: Global) -> Result<Query, Fail>
    ensures { IfOk result (λ query. length query.weights ≡ 2) }
{
    Ok(Query::new(alloc, 2, &[0, 0], &[1, 1])?)
}

const NEAREST: [Pair; 3] = [
    Pair { dist: 200, id: 1 },
    Pair {
        dist: 28_800,
        id: 2,
    },
    Pair {
        dist: 80_000,
        id: 3,
    },
];

#[test]
fn a_scan_reads_what_the_cells_before_leave_open(rt: HostRuntime) -> Result<(), Fail> {
    let alloc = rt.alloc();
    let query = origin(alloc)?;
    for (k, found, fetched) in [
        (1, 1, &[1, 2][..]),
        (2, 2, &[1, 2][..]),
        (9, 3, &[1, 2, 3][..]),
    ] {
        let mut tray = ascending_tray(alloc, Vec::new(alloc))?;
        let near = scan_nearest(alloc, &mut tray, &query, k)?;
        assert_eq!(rt; near.pairs.as_slice(), &NEAREST[..found], "at {k}");
        assert_eq!(rt; near.fetched.as_slice(), fetched, "at {k}");
        assert_eq!(rt; near.candidates as usize, fetched.len(), "at {k}");
    }
    let mut tray = descending_tray(alloc)?;
    let near = scan_nearest(alloc, &mut tray, &query, 1)?;
    assert_eq!(rt; near.pairs.as_slice(), &NEAREST[..1]);
    assert_eq!(rt; near.fetched.as_slice(), &[3, 2, 1][..]);
    Ok(())
}

#[test]
fn within_a_radius_the_edge_counts(rt: HostRuntime) -> Result<(), Fail> {
    let alloc = rt.alloc();
    let query = origin(alloc)?;
    for (radius, found, fetched) in [
        (200, 1, &[1, 2][..]),
        (199, 0, &[1, 2][..]),
        (80_000, 3, &[1, 2, 3][..]),
    ] {
        let mut tray = ascending_tray(alloc, Vec::new(alloc))?;
        let near = within(alloc, &mut tray, &query, radius)?;
        assert_eq!(rt; near.pairs.as_slice(), &NEAREST[..found], "at {radius}");
        assert_eq!(rt; near.fetched.as_slice(), fetched, "at {radius}");
        assert_eq!(rt; near.candidates as usize, fetched.len(), "at {radius}");
    }
    Ok(())
}

#[test]
fn of_no_cells_nothing_is_found(rt: HostRuntime) -> Result<(), Fail> {
    let alloc = rt.alloc();
    let query = origin(alloc)?;
    let mut tray = empty_tray(alloc, Vec::new(alloc))?;
    let near = scan_nearest(alloc, &mut tray, &query, 1)?;
    assert_eq!(rt; (near.pairs.len(), near.fetched.len()), (0, 0));
    let near = within(alloc, &mut tray, &query, u64::MAX)?;
    assert_eq!(rt; (near.pairs.len(), near.fetched.len()), (0, 0));
    Ok(())
}

// Each search makes four calls for a next cell and two or three fetches.
#[test]
fn a_call_that_fails_ends_the_search(rt: HostRuntime) -> Result<(), Fail> {
    let alloc = rt.alloc();
    let query = origin(alloc)?;
    for number in 0..8 {
        let fault = Some(SearchFault::Shelf(ShelfFault));
        let mut tray = ascending_tray(alloc, vec![in alloc; number]?)?;
        let near = scan_nearest(alloc, &mut tray, &query, 1).err();
        assert_eq!(rt; near, if number < 6 { fault } else { None }, "at {number}");
        let mut tray = ascending_tray(alloc, vec![in alloc; number]?)?;
        let near = within(alloc, &mut tray, &query, 80_000).err();
        assert_eq!(rt; near, if number < 7 { fault } else { None }, "at {number}");
    }
    Ok(())
}

// A tray which gives another vector for one place, and so tells nothing.
#[derive(Drop)]
struct Forged {
    tray: Tray,
    place: u32,
    vector: [u8; 2],
}

impl Shelf for Forged {
    ghost told = { ⊥ };

    ghost contents = { λ forged. trays.contents forged.tray };

    ghost left = { λ forged. trays.left forged.tray };

    ghost passes = { λ old places new. trays.Passes old.tray places new.tray };

    ghost faults = { λ forged. trays.faults forged.tray };

    fn shape(&self) -> Shape {
        self.tray.shape()
    }

    fn marks(&self) -> &Marks {
        self.tray.marks()
    }

    fn live(&self) -> u32 {
        self.tray.live()
    }

    fn rewind(&mut self) {
        self.tray.rewind();
    }

    fn next_cell(&mut self, code: &mut [u8]) -> Result<Option<(u32, u32)>, ShelfFault> {
        self.tray.next_cell(code)
    }

    fn fetch(&mut self, place: u32, out: &mut [u8]) -> Result<(), ShelfFault> {
        self.tray.fetch(place, out)?;
        if place == self.place && out.len() == 2 {
            out.copy_from_slice(&self.vector);
        }
        Ok(())
    }

    ghost sound = { λ forged. record { shape = forged.tray.is_shape; has_shape = forged.tray.has_shape; valid = forged.tray.valid; places = forged.tray.places; ids = forged.tray.ids } };

    ghost stands = { λ forged. tray_laws.stands forged.tray };

    ghost passes_none = { λ forged. tray_laws.passes_none forged.tray };

    ghost passes_both = { λ old mid new first second a b. tray_laws.passes_both old.tray mid.tray new.tray first second a b };
}

fn forged_tray(alloc: Global, place: u32) -> Result<Forged, Fail>
    ensures { IfOk result (λ forged. (trays.contents forged.tray).shape.dims ≡ 2) }
{
    Ok(Forged {
        tray: ascending_tray(alloc, Vec::new(alloc))?,
        place,
        vector: [255, 255],
    })
}

#[test]
fn a_vector_outside_its_cell_is_named(rt: HostRuntime) -> Result<(), Fail> {
    let alloc = rt.alloc();
    let query = origin(alloc)?;
    for place in 0..2 {
        let mismatch = Some(SearchFault::Mismatch {
            place,
            dist: 130_050,
            low: 0,
            high: 32_258,
        });
        let near = scan_nearest(alloc, &mut forged_tray(alloc, place)?, &query, 1).err();
        assert_eq!(rt; near, mismatch, "at {place}");
        let near = within(alloc, &mut forged_tray(alloc, place)?, &query, 199).err();
        assert_eq!(rt; near, mismatch, "at {place}");
    }
    Ok(())
}
