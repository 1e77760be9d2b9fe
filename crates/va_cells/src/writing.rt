// Marks and packed codes are written.
ghost use Rattle.std.specs.Prelude.{◌≡◌, ◌+◌, ◌*◌, ◌<◌, ◌≤◌, List, ℕ, [], ◌∷◌, length, OnOk, IfOk};
ghost use Rattle.va_core.specs.Codes.{AreSlices, packed};
ghost use Rattle.va_core.specs.MarkBytes.{row_bytes};
ghost use Rattle.va_core.specs.Marks.{HasShape, row_at};
ghost use Rattle.va_disk.specs.Crashes.{Follows};
ghost use Rattle.va_disk.specs.Frames.{DiskFails, OnlyWrites};
ghost use Rattle.va_layout.specs.Fields.{code_in, code_range, marks_in, marks_range};
ghost use Rattle.va_layout.specs.Layout.{layout_len};
ghost use Rattle.va_layout.specs.Parts.{KeepsRest, part};

use va_disk::{Disk, DiskFault};
use va_layout::{Layout, Region, write_part};
use va_marks::Marks;
use va_pack::pack;

/// Packs the slices of a cell, and writes the code of a place in a region. Nothing is stable yet.
///
/// `codes` has a slice for each dimension, as `pack` takes them. After a fault the code may be anything, and all
/// other bytes are as they were.
pub fn put_code<D: Disk>(
    disk: &mut D,
    layout: &Layout,
    region: Region,
    place: u32,
    codes: &[u8],
) -> Result<(), DiskFault>
    requires fits { layout_len layout.now ≤ D.size disk.old }
    requires place { place < layout.now.capacity }
    requires slices { AreSlices layout.now codes.now }
    ensures code { OnOk result (D.told → code_in layout.now region place (D.image disk.new) ≡ packed layout.now codes.now) }
    ensures rest { D.told → KeepsRest (code_range layout.now region place) (D.image disk.old) (D.image disk.new) }
    ensures crash { D.honest → Follows (KeepsRest (code_range layout.now region place)) (D.may_leave disk.old) (D.may_leave disk.new) }
    ensures frame { OnlyWrites D.Storage disk.old disk.new (D.may_leave disk.new) }
    ensures size { D.size disk.new ≡ D.size disk.old }
    ensures cause { DiskFails D.Storage disk.old disk.new result }
{
    let shape = layout.shape();
    let mut buffer = [0; 256];
    let code = &mut buffer[..shape.code_bytes()];
    pack(shape, codes, code);
    write_part(disk, layout.code_at(region, place), code)
}

/// Writes the marks of a region, a dimension at a time. Nothing is stable yet.
///
/// After a fault the region's marks may be anything, and all other bytes are as they were.
pub fn put_marks<D: Disk>(
    disk: &mut D,
    layout: &Layout,
    region: Region,
    marks: &Marks,
) -> Result<(), DiskFault>
    requires fits { layout_len layout.now ≤ D.size disk.old }
    requires shape { HasShape layout.now marks.now }
    ensures marks { OnOk result (D.told → marks_in layout.now region (D.image disk.new) ≡ marks.now) }
    ensures rest { D.told → KeepsRest (marks_range layout.now region) (D.image disk.old) (D.image disk.new) }
    ensures crash { D.honest → Follows (KeepsRest (marks_range layout.now region)) (D.may_leave disk.old) (D.may_leave disk.new) }
    // At each moment a crash leaves what it might have left at the start, but for the region's marks.
    ensures frame { OnlyWrites D.Storage disk.old disk.new (λ c. (d : List ℕ) × D.may_leave disk.old d × KeepsRest (marks_range layout.now region) d c) }
    ensures size { D.size disk.new ≡ D.size disk.old }
    ensures cause { DiskFails D.Storage disk.old disk.new result }
{
    let dims = layout.shape().dims();
    // A look at the marks shows that they are valid.
    let _count = marks.count(0);
    let mut at = layout.marks_at(region);
    for dim in 0..dims {
        at = put_row(disk, at, marks, dim)?;
    }
    Ok(())
}

// Writes the marks of a dimension, and answers the offset behind them.
fn put_row<D: Disk>(disk: &mut D, at: u64, marks: &Marks, dim: u16) -> Result<u64, DiskFault>
    requires dim { dim < length marks.now }
    requires inside { at + 2 * length (row_at marks.now dim) ≤ D.size disk.old }
    ensures end { IfOk result (λ end. end ≡ at + 2 * length (row_at marks.now dim)) }
    ensures written { OnOk result (D.told → part at (2 * length (row_at marks.now dim)) (D.image disk.new) ≡ row_bytes (row_at marks.now dim)) }
    ensures rest { D.told → KeepsRest ((at, 2 * length (row_at marks.now dim)) ∷ []) (D.image disk.old) (D.image disk.new) }
    ensures crash { D.honest → Follows (KeepsRest ((at, 2 * length (row_at marks.now dim)) ∷ [])) (D.may_leave disk.old) (D.may_leave disk.new) }
    ensures frame { OnlyWrites D.Storage disk.old disk.new (D.may_leave disk.new) }
    ensures size { D.size disk.new ≡ D.size disk.old }
    ensures cause { DiskFails D.Storage disk.old disk.new result }
{
    let len = 2 * usize::from(marks.count(dim));
    let mut buffer = [0; 514];
    let bytes = &mut buffer[..len];
    marks.row_to_bytes(dim, bytes);
    write_part(disk, at, bytes)?;
    Ok(at + len as u64)
}
