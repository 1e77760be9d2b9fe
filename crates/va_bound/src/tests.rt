// The table beside the plain program of the definition, which goes over all values of each slice.
ghost use Rattle.std.specs.Prelude.{◌≡◌, ◌≤◌, length, IfOk};
ghost use Rattle.va_core.specs.Marks.{row_at};

use crate::Bounds;
use std::alloc::Global;
use std::test::Fail;
use va_core::Shape;
use va_dist::Query;
use va_marks::{Marks, Tally};

// What is told of the cell of a vector: its bounds, and the first vectors at them.
#[derive(Clone, Copy, Debug, PartialEq, Eq)]
struct Told {
    low: u64,
    high: u64,
    least: [u8; 2],
    greatest: [u8; 2],
}

// By the table.
fn by_table(alloc: Global, marks: &Marks, query: &Query, vector: &[u8]) -> Result<Told, Fail>
    requires marks { length marks.now ≡ 2 }
    requires query { length query.now.weights ≡ 2 }
    requires vector { length vector.now ≡ 2 }
{
    let bounds = Bounds::of(alloc, marks, query)?;
    let mut codes = [0; 2];
    marks.cell(vector, &mut codes);
    let mut told = Told {
        low: bounds.low(&codes),
        high: bounds.high(&codes),
        least: [0; 2],
        greatest: [0; 2],
    };
    bounds.least_in(&codes, &mut told.least);
    bounds.greatest_in(&codes, &mut told.greatest);
    Ok(told)
}

// By the definition: all vectors of the cell, in lexicographic order.
fn by_definition(marks: &Marks, query: &Query, vector: [u8; 2]) -> Option<Told>
    requires marks { length marks.now ≡ 2 }
    requires query { length query.now.weights ≡ 2 }
{
    let [x, y] = vector;
    let mut told = None;
    for first in 0..=255 {
        for second in 0..=255 {
            if marks.slice_of(0, first) == marks.slice_of(0, x)
                && marks.slice_of(1, second) == marks.slice_of(1, y)
            {
                let distance = query.distance(&[first, second]);
                told = Some(with_vector(told, [first, second], distance));
            }
        }
    }
    told
}

fn with_vector(told: Option<Told>, vector: [u8; 2], distance: u64) -> Told {
    let Some(mut told) = told else {
        return Told {
            low: distance,
            high: distance,
            least: vector,
            greatest: vector,
        };
    };
    if distance < told.low {
        told.low = distance;
        told.least = vector;
    }
    if distance > told.high {
        told.high = distance;
        told.greatest = vector;
    }
    told
}

// Marks of so many bits for both dimensions together.
fn equal_marks(alloc: Global, bits: u16) -> Result<Marks, Fail>
    requires some { 1 ≤ bits }
    requires most { bits ≤ 16 }
    ensures { IfOk result (λ marks. length marks ≡ 2) }
{
    let shape = Shape::new(2, bits, 4)?;
    Ok(Marks::equal(alloc, shape)?)
}

// Two slices in both dimensions.
fn halves(alloc: Global) -> Result<Marks, Fail>
    ensures dims { IfOk result (λ marks. length marks ≡ 2) }
    ensures first { IfOk result (λ marks. length (row_at marks 0) ≡ 3) }
{
    Ok(Marks::equal(alloc, Shape::new(2, 2, 4)?)?)
}

// A query of so many objects, 1 to 16.
fn query_of(alloc: Global, objects: u8, weights: [u16; 2]) -> Result<Query, Fail>
    requires { objects ≤ 16 }
    ensures { IfOk result (λ query. length query.weights ≡ 2) }
{
    let mut query = Query::new(alloc, 2, &[100, 30], &weights)?;
    for number in 1..objects {
        query.add(&[number * 16, 255 - number * 9])?;
    }
    Ok(query)
}

#[test]
fn bounds_of_worked_examples(rt: HostRuntime) -> Result<(), Fail> {
    let alloc = rt.alloc();
    let marks = halves(alloc)?;
    let query = Query::new(alloc, 2, &[0, 0], &[1, 1])?;
    for (vector, low, high, least, greatest) in [
        ([10, 10], 0, 32_258, [0, 0], [127, 127]),
        ([120, 120], 0, 32_258, [0, 0], [127, 127]),
        ([200, 200], 32_768, 130_050, [128, 128], [255, 255]),
    ] {
        let want = Told {
            low,
            high,
            least,
            greatest,
        };
        assert_eq!(rt; by_table(alloc, &marks, &query, &vector)?, want);
    }
    Ok(())
}

#[test]
fn two_objects_count(rt: HostRuntime) -> Result<(), Fail> {
    let alloc = rt.alloc();
    let marks = halves(alloc)?;
    let mut query = Query::new(alloc, 2, &[0, 0], &[1, 1])?;
    query.add(&[20, 20])?;
    for vector in [[10, 10], [120, 120]] {
        assert_eq!(rt; by_table(alloc, &marks, &query, &vector)?.low, 400);
    }
    Ok(())
}

#[test]
fn the_table_tells_what_the_definition_does(rt: HostRuntime) -> Result<(), Fail> {
    let alloc = rt.alloc();
    // One slice in the second dimension; four and two slices; a slice for each value.
    for bits in [1, 3, 16] {
        let marks = equal_marks(alloc, bits)?;
        for (objects, weights) in [(1, [0, 0]), (16, [3, 65_535])] {
            let query = query_of(alloc, objects, weights)?;
            for vector in [[0, 255], [190, 64]] {
                let table = by_table(alloc, &marks, &query, &vector)?;
                assert_eq!(rt; Some(table), by_definition(&marks, &query, vector));
            }
        }
    }
    Ok(())
}

#[test]
fn empty_slices_have_no_say(rt: HostRuntime) -> Result<(), Fail> {
    let alloc = rt.alloc();
    let mut tally = Tally::new(alloc, Shape::new(2, 4, 4)?)?;
    tally.add(&[7, 0]);
    tally.add(&[7, 0]);
    tally.add(&[7, 255]);
    let marks = tally.marks(alloc)?;
    let query = query_of(alloc, 2, [2, 1])?;
    for vector in [[7, 0], [6, 255]] {
        let table = by_table(alloc, &marks, &query, &vector)?;
        assert_eq!(rt; Some(table), by_definition(&marks, &query, vector));
    }
    Ok(())
}

#[test]
fn entries_of_a_worked_example(rt: HostRuntime) -> Result<(), Fail> {
    let alloc = rt.alloc();
    let marks = halves(alloc)?;
    let query = Query::new(alloc, 2, &[0, 0], &[1, 1])?;
    let bounds = Bounds::of(alloc, &marks, &query)?;
    assert_eq!(rt; bounds.entry(0, 0), (0, 16_129));
    assert_eq!(rt; bounds.entry(0, 1), (16_384, 65_025));
    Ok(())
}
