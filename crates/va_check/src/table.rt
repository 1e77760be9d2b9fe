// What each value of each dimension adds to the distance, told once for all boxes.
ghost use Rattle.std.specs.Prelude.{◌≡◌, ◌+◌, ◌-◌, ◌*◌, ◌^◌, ◌<◌, ◌≤◌, ℕ, length, IfOk, slice_index};
ghost use Rattle.va_core.specs.Boxes.{box_between, low_of, high_of};
ghost use Rattle.va_core.specs.Distance.{square_gap};
ghost use Rattle.va_core.specs.DistanceParts.{part_at};
ghost use Rattle.va_core.specs.Parts.{least_part, greatest_part};
ghost use Rattle.va_cert.specs.Known.{dist_of};
ghost use Rattle.va_cert.specs.Reasons.{rises};
ghost use Rattle.va_cert.specs.Forms.{HasShape};
ghost use Rattle.va_check.specs.Tables.{IsTable, HaveNumbers, in_table, part_number};

use std::alloc::{AllocError, Global};
use va_cert::Certificate;
use va_core::Bytes;

// The square of the difference.
fn square(value: u8, other: u8) -> u64
    ensures value { result ≡ square_gap value other }
    ensures small { result ≤ 65025 }
{
    let gap = if value < other {
        u64::from(other - value)
    } else {
        u64::from(value - other)
    };
    gap * gap
}

// The weighted square of the difference.
fn term(weight: u16, value: u8, other: u8) -> u64
    ensures value { result ≡ weight * square_gap value other }
    ensures small { result ≤ 65535 * 65025 }
{
    u64::from(weight) * square(value, other)
}

// What a value in a dimension adds to the distance.
fn part(objects: &[Bytes], weight: u16, dim: usize, value: u8) -> u64
    requires few { length objects.now ≤ 16 }
    requires inside { HaveNumbers dim objects.now }
    ensures value { result ≡ part_at weight dim objects.now value }
    ensures small { result ≤ 16 * (65535 * 65025) }
{
    let mut sum = 0;
    for object in objects {
        sum += term(weight, value, object.as_slice()[dim]);
    }
    sum
}

/// The parts of the distance, 256 for each dimension.
pub(crate) fn parts_of(alloc: Global, cert: &Certificate) -> Result<Vec<u64>, AllocError>
    requires { HasShape cert.now }
    ensures { IfOk result (λ table. IsTable cert.now table.items) }
{
    let weights = cert.weights.as_slice();
    let len = 256 * weights.len();
    let mut table = Vec::with_capacity(alloc, len)?;
    for at in 0..len {
        let value = (at % 256) as u8;
        let next = part(cert.objects.as_slice(), weights[at / 256], at / 256, value);
        table.push(next)?;
    }
    Ok(table)
}

/// The distance of a vector.
pub(crate) fn distance(cert: &Certificate, table: &[u64], vector: &[u8]) -> u64
    requires query { HasShape cert.now }
    requires table { IsTable cert.now table.now }
    requires len { length vector.now ≡ length cert.now.weights }
    ensures { result ≡ dist_of cert.now vector.now }
{
    let mut total = 0;
    for dim in 0..vector.len() {
        total += table[dim * 256 + usize::from(vector[dim])];
    }
    total
}

/// The least and the greatest of some numbers.
#[derive(Clone, Copy)]
pub(crate) struct Reach {
    pub(crate) least: u64,
    pub(crate) greatest: u64,
}

// The least and the greatest part of a dimension over the values of an interval.
fn extremes(table: &[u64], dim: usize, low: u8, high: u8) -> Reach
    requires rises { low ≤ high }
    requires inside { dim * 256 + 256 ≤ length table.now }
    requires small { (at : ℕ) → at < length table.now → slice_index table.now at ≤ 16 * (65535 * 65025) }
    ensures least_small { result.least ≤ 16 * (65535 * 65025) }
    ensures greatest_small { result.greatest ≤ 16 * (65535 * 65025) }
    ensures least { result.least ≡ least_part (in_table table.now dim) low (high - low) }
    ensures greatest { result.greatest ≡ greatest_part (in_table table.now dim) low (high - low) }
{
    let mut at = high;
    let mut least = table[dim * 256 + usize::from(at)];
    let mut greatest = least;
    while at > low {
        at -= 1;
        let next = table[dim * 256 + usize::from(at)];
        if next < least {
            least = next;
        }
        if greatest < next {
            greatest = next;
        }
    }
    Reach { least, greatest }
}

/// The least and the greatest distance over all vectors of a box.
pub(crate) fn bounds(cert: &Certificate, table: &[u64], low: &[u8], high: &[u8]) -> Reach
    requires query { HasShape cert.now }
    requires table { IsTable cert.now table.now }
    requires low { length low.now ≡ length cert.now.weights }
    requires high { length high.now ≡ length cert.now.weights }
    requires rises { (k : ℕ) → k < length low.now → slice_index low.now k ≤ slice_index high.now k }
    ensures least { result.least ≡ low_of (dist_of cert.now) (box_between low.now high.now) }
    ensures greatest { result.greatest ≡ high_of (dist_of cert.now) (box_between low.now high.now) }
{
    let mut least = 0;
    let mut greatest = 0;
    for dim in 0..low.len() {
        let part = extremes(table, dim, low[dim], high[dim]);
        least += part.least;
        greatest += part.greatest;
    }
    Reach { least, greatest }
}
