// What a certificate tells of the distances in its boxes.
ghost use Rattle.std.specs.Prelude.{◌≡◌, ◌+◌, ◌<◌, ◌≤◌, ◌==◌, ℕ, None, Some, length, IfOk, map, not, true};
ghost use Rattle.std.specs.List.{filter};
ghost use Rattle.va_core.specs.Approximations.{pairs, paired};
ghost use Rattle.va_core.specs.Boxes.{box_between};
ghost use Rattle.va_core.specs.Kth.{is_beyond};
ghost use Rattle.va_cert.specs.Known.{box_at, dist_of, known_dist, known_list, is_known, first_unknown};
ghost use Rattle.va_cert.specs.Reasons as reasons;
ghost use Rattle.va_check.specs.Gathers.{known_pairs, lower};
ghost use Rattle.va_cert.specs.Forms.{IdsAscend, IsFormed, IsLevel};
ghost use Rattle.va_check.specs.Tables.{IsTable};

use crate::lookups::row_of;
use crate::table::{bounds, distance};
use std::alloc::{AllocError, Global};
use va_cert::{BoxRow, Certificate};
use va_core::{Pair, is_less};

// Whether the vector lies between the ends in each dimension.
fn lies(low: &[u8], high: &[u8], vector: &[u8]) -> bool
    requires low { length low.now ≡ length vector.now }
    requires high { length high.now ≡ length vector.now }
    ensures { result ≡ reasons.lies (box_between low.now high.now) vector.now }
{
    for dim in 0..vector.len() {
        if vector[dim] < low[dim] || vector[dim] > high[dim] {
            return false;
        }
    }
    true
}

/// Whether the vector lies in the box of the id.
pub(crate) fn is_in_box(boxes: &[BoxRow], id: u32, vector: &[u8]) -> bool
    requires level { IsLevel (length vector.now) boxes.now }
    requires ascend { IdsAscend (λ row. row.id) boxes.now }
    ensures { result ≡ reasons.lies (box_at boxes.now id) vector.now }
{
    match row_of(boxes, id) {
        Some(row) => lies(row.low.as_slice(), row.high.as_slice(), vector),
        None => vector.is_empty(),
    }
}

/// What is known of a box: a distance, or a least one.
#[derive(Clone, Copy)]
struct Told {
    is_known: bool,
    dist: u64,
}

fn tell(cert: &Certificate, table: &[u64], row: &BoxRow) -> Told
    requires formed { IsFormed cert.now }
    requires table { IsTable cert.now table.now }
    requires low { length row.now.low ≡ length cert.now.weights }
    requires high { length row.now.high ≡ length cert.now.weights }
    requires rises { reasons.rises row.now.low row.now.high ≡ true }
    ensures known { result.is_known ≡ is_known cert.now row.now }
    ensures dist { result.dist ≡ known_dist cert.now row.now }
{
    if let Some(taken) = row_of(cert.fetched.as_slice(), row.id) {
        return Told {
            is_known: true,
            dist: distance(cert, table, taken.vector.as_slice()),
        };
    }
    let reach = bounds(cert, table, row.low.as_slice(), row.high.as_slice());
    Told {
        is_known: !(reach.least < reach.greatest),
        dist: reach.least,
    }
}

// The lesser of two pairs, of which the first may be missing.
fn lower_of(least: Option<Pair>, pair: Pair) -> Option<Pair>
    ensures { result ≡ lower least pair }
{
    match least {
        Some(other) if is_less(other, pair) => Some(other),
        _ => Some(pair),
    }
}

/// The known pairs, and the least pair that an unknown box may have.
#[derive(Drop)]
pub(crate) struct Gathered {
    pub(crate) known: Vec<Pair>,
    pub(crate) least: Option<Pair>,
}

pub(crate) fn gather(
    alloc: Global,
    cert: &Certificate,
    table: &[u64],
) -> Result<Gathered, AllocError>
    requires formed { IsFormed cert.now }
    requires table { IsTable cert.now table.now }
    ensures known { IfOk result (λ gathered. gathered.known.items ≡ known_pairs cert.now cert.now.boxes) }
    ensures least { IfOk result (λ gathered. gathered.least ≡ first_unknown cert.now) }
{
    let boxes = cert.boxes.as_slice();
    let mut known = Vec::with_capacity(alloc, boxes.len())?;
    let mut least = None;
    for row in boxes {
        let told = tell(cert, table, row);
        let pair = Pair {
            dist: told.dist,
            id: row.id,
        };
        if told.is_known {
            known.push(pair)?;
        } else {
            least = lower_of(least, pair);
        }
    }
    Ok(Gathered { known, least })
}
