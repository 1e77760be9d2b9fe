// The rule of the marks of one dimension.
ghost use Rattle.std.specs.Prelude.{◌≡◌, ℕ, ◌+◌, ◌^◌, ◌<◌, ◌≤◌, length, sum, IfOk, []};
ghost use Rattle.va_core.specs.Marks.{row_of};
ghost use Rattle.va_marks.specs.Rule.{IsFirstOver, row_by, up_to};

use std::alloc::{AllocError, Global};

// How many slices a dimension of so many bits has.
pub fn slice_count(bits: u8) -> u16
    requires { bits ≤ 8 }
    ensures slices { result ≡ 2 ^ bits }
    ensures some { 0 < result }
    ensures most { result ≤ 256 }
{
    1 << bits
}

// How many marks cut them: one more.
pub fn mark_count(bits: u8) -> usize
    requires { bits ≤ 8 }
    ensures count { result ≡ 2 ^ bits + 1 }
    ensures two { 2 ≤ result }
    ensures most { result ≤ 257 }
{
    usize::from(slice_count(bits)) + 1
}

// The marks over no coordinates: slices of equal width.
pub fn equal_widths(alloc: Global, bits: u8) -> Result<Vec<u16>, AllocError>
    requires { bits ≤ 8 }
    ensures { IfOk result (λ marks. marks.items ≡ row_of bits []) }
{
    let slices = slice_count(bits);
    let width = slice_count(8 - bits);
    let mut marks = Vec::with_capacity(alloc, mark_count(bits))?;
    for t in 0..slices + 1 {
        marks.push(t * width)?;
    }
    Ok(marks)
}

// The marks over some coordinates, from how often each value stands among them. Ranks rise with t, so that
// one walk through the counts finds them all.
pub fn quantiles(
    alloc: Global,
    bits: u8,
    counts: &[u32],
    added: u32,
) -> Result<Vec<u16>, AllocError>
    requires bits { bits ≤ 8 }
    requires counts { length counts.now ≡ 256 }
    requires added { sum counts.now ≡ added }
    requires some { 0 < added }
    ensures { IfOk result (λ marks. marks.items ≡ row_by bits added counts.now) }
{
    let slices = slice_count(bits);
    let mut marks = Vec::with_capacity(alloc, mark_count(bits))?;
    marks.push(0)?;
    let mut value = 0;
    let mut found = u64::from(counts[0]);
    for t in 1..slices {
        let rank = (u64::from(t) * u64::from(added)) >> bits;
        (value, found) = first_over(counts, value, found, rank);
        marks.push(value as u16)?;
    }
    marks.push(256)?;
    Ok(marks)
}

// The first value, from `value` on, up to which there are more than `rank` coordinates, and how many
// there are. `found` are those up to the value that the search begins with.
fn first_over(counts: &[u32], mut value: usize, mut found: u64, rank: u64) -> (usize, u64)
    requires counts { length counts.now ≡ 256 }
    requires fits { sum counts.now < 2 ^ 32 }
    requires value { value < 256 }
    requires found { found ≡ up_to value counts.now }
    requires below { (v : ℕ) → v < value → up_to v counts.now ≤ rank }
    requires some { rank < sum counts.now }
    ensures first { IsFirstOver counts.now rank result.0 }
    ensures found { result.1 ≡ up_to result.0 counts.now }
{
    while found <= rank {
        value += 1;
        found += u64::from(counts[value]);
    }
    (value, found)
}
