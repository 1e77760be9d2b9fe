// Whether a certificate is well formed.
ghost use Rattle.std.specs.Prelude.{◌≡◌, ◌+◌, ◌<◌, ◌≤◌, ℕ, None, Some, length};
ghost use Rattle.std.specs.Option.{option_map};
ghost use Rattle.va_cert.specs.Forms.{IdsAscend};
ghost use Rattle.va_cert.specs.Known as known;
ghost use Rattle.va_cert.specs.Reasons as reasons;
ghost use Rattle.va_check.specs.Says.{part_reason};

use crate::Part;
use crate::lookups::row_of;
use va_cert::{BoxRow, Certificate, Taken};
use va_core::Bytes;

// Whether no low end is above its high end.
fn rises(low: &[u8], high: &[u8]) -> bool
    requires { length low.now ≡ length high.now }
    ensures { result ≡ reasons.rises low.now high.now }
{
    for dim in 0..low.len() {
        if low[dim] > high[dim] {
            return false;
        }
    }
    true
}

// Whether an id is above the one before, if there is one.
fn is_above(before: Option<u32>, id: u32) -> bool
    ensures { result ≡ reasons.is_above before id }
{
    match before {
        Some(last) => last < id,
        None => true,
    }
}

fn is_box(dims: usize, before: Option<u32>, position: u32, row: &BoxRow) -> bool
    ensures { result ≡ reasons.is_box dims before position row.now }
{
    if position >= 4096 || row.low.len() != dims || row.high.len() != dims {
        return false;
    }
    rises(row.low.as_slice(), row.high.as_slice()) && is_above(before, row.id)
}

/// The position of the first box that isn't well formed.
pub(crate) fn first_bad_box(dims: usize, boxes: &[BoxRow]) -> Option<u32>
    ensures { result ≡ reasons.first_bad_box dims None 0 boxes.now }
{
    let mut before = None;
    let mut position = 0;
    for row in boxes {
        if !is_box(dims, before, position, row) {
            return Some(position);
        }
        before = Some(row.id);
        position += 1;
    }
    None
}

fn has_box(boxes: &[BoxRow], id: u32) -> bool
    requires { IdsAscend (λ row. row.id) boxes.now }
    ensures { result ≡ known.has_box boxes.now id }
{
    row_of(boxes, id).is_some()
}

fn is_entry(dims: usize, boxes: &[BoxRow], before: Option<u32>, taken: &Taken) -> bool
    requires { IdsAscend (λ row. row.id) boxes.now }
    ensures { result ≡ reasons.is_entry dims boxes.now before taken.now }
{
    is_above(before, taken.id)
        && has_box(boxes, taken.id)
        && taken.vector.len() == dims
        && taken.other.len() == dims
}

fn have_length(dims: usize, vectors: &[Bytes]) -> bool
    ensures { result ≡ reasons.have_length dims vectors.now }
{
    for vector in vectors {
        if vector.len() != dims {
            return false;
        }
    }
    true
}

/// The position of the first entry that isn't well formed.
#[tactic(auto, using(crate::proofs::Counted::counted_few, crate::proofs::Counted::counted_more))]
pub(crate) fn first_bad_entry(dims: usize, boxes: &[BoxRow], fetched: &[Taken]) -> Option<u32>
    requires few { length boxes.now ≤ 4096 }
    requires ascend { IdsAscend (λ row. row.id) boxes.now }
    ensures { result ≡ reasons.first_bad_entry dims boxes.now None 0 fetched.now }
{
    let mut before = None;
    let mut position = 0;
    for taken in fetched {
        if !is_entry(dims, boxes, before, taken) {
            return Some(position);
        }
        before = Some(taken.id);
        position += 1;
    }
    None
}

/// The first part of a certificate that isn't well formed.
#[tactic(auto, using(crate::proofs::Counted::few_boxes))]
pub(crate) fn form_fault(cert: &Certificate) -> Option<Part>
    ensures { option_map part_reason result ≡ reasons.first_of (reasons.form_rows cert.now) }
{
    let dims = cert.weights.len();
    if cert.k < 1 || cert.k > 4096 {
        return Some(Part::K);
    }
    if dims < 1 || dims > 256 {
        return Some(Part::Weights);
    }
    let objects = cert.objects.as_slice();
    if objects.is_empty() || objects.len() > 16 || !have_length(dims, objects) {
        return Some(Part::Objects);
    }
    if let Some(position) = first_bad_box(dims, cert.boxes.as_slice()) {
        return Some(Part::Boxes(position));
    }
    if let Some(position) = first_bad_entry(dims, cert.boxes.as_slice(), cert.fetched.as_slice()) {
        return Some(Part::Fetched(position));
    }
    None
}
