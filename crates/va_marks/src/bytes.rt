// The marks of one dimension as bytes: each mark in two of them, the greater first.
ghost use Rattle.std.specs.Prelude.{◌≡◌, ◌+◌, ◌*◌, ◌≤◌, ◌↔◌, ◌++◌, take, length, IsTrue, IfOk};
ghost use Rattle.va_core.specs.MarkBytes.{row_in, row_bytes};
ghost use Rattle.va_core.specs.Marks.{IsRow};

use std::alloc::{AllocError, Global};

// So many marks that stand from an offset on.
pub fn read_row(
    alloc: Global,
    bytes: &[u8],
    at: usize,
    count: usize,
) -> Result<Vec<u16>, AllocError>
    requires { at + 2 * count ≤ length bytes.now }
    ensures { IfOk result (λ marks. marks.items ≡ row_in bytes.now at count) }
{
    let mut marks = Vec::with_capacity(alloc, count)?;
    for t in 0..count {
        let place = at + 2 * t;
        marks.push(u16::from(bytes[place]) * 256 + u16::from(bytes[place + 1]))?;
    }
    Ok(marks)
}

// Whether the marks begin with 0, rise weakly and end with 256.
pub fn is_row(marks: &[u16]) -> bool
    requires { 2 ≤ length marks.now }
    ensures { IsTrue result ↔ IsRow marks.now }
{
    if marks[0] != 0 || marks[marks.len() - 1] != 256 {
        return false;
    }
    for t in 0..marks.len() - 1 {
        if marks[t] > marks[t + 1] {
            return false;
        }
    }
    true
}

// Writes the marks from an offset on, and answers the offset behind them.
pub fn write_row(marks: &[u16], mut at: usize, out: &mut [u8]) -> usize
    requires { at + 2 * length marks.now ≤ length out.old }
    ensures end { result ≡ at + 2 * length marks.now }
    ensures written { take result out.new ≡ take at out.old ++ row_bytes marks.now }
{
    for mark in marks {
        out[at] = (*mark / 256) as u8;
        out[at + 1] = (*mark % 256) as u8;
        at += 2;
    }
    at
}
