// Marks are read.
ghost use Rattle.std.specs.Prelude.{◌≡◌, ◌+◌, ◌≤◌, length, IfOk, IfErr, OnOk};
ghost use Rattle.va_cells.specs.Faults.{IfMarks, IsFirstInvalidIn};
ghost use Rattle.va_cells.specs.Reads.{ReadsFront, ReadsWhole};
ghost use Rattle.va_core.specs.MarkBytes.{marks_len};
ghost use Rattle.va_core.specs.Marks.{AreValid, HasShape};
ghost use Rattle.va_disk.specs.Frames.{DiskFails, DiskFailsAs, OnlyReads};
ghost use Rattle.va_layout.specs.Fields.{marks_in};
ghost use Rattle.va_layout.specs.Layout.{layout_len, marks_at};
ghost use Rattle.va_layout.specs.Parts.{part};

use crate::CellsFault;
use std::alloc::Global;
use va_disk::{Disk, DiskFault};
use va_layout::{Layout, Region};
use va_marks::Marks;

/// The most bytes of one read.
const PIECE: usize = 4096;

/// Reads the marks of a region, in pieces of at most 4,096 bytes, each once.
///
/// `Marks` names the first dimension whose marks aren't valid.
pub fn read_marks<D: Disk>(
    alloc: Global,
    disk: &mut D,
    layout: &Layout,
    region: Region,
) -> Result<Marks, CellsFault>
    requires fits { layout_len layout.now ≤ D.size disk.old }
    ensures marks { IfOk result (λ marks. D.told → marks ≡ marks_in layout.now region (D.image disk.old)) }
    ensures shape { IfOk result (HasShape layout.now) }
    ensures valid { IfOk result AreValid }
    // Valid marks that stand there are read, if the disk works and memory is found.
    ensures first { D.told → IfErr result (λ fault. IfMarks fault (IsFirstInvalidIn layout.now region (D.image disk.old))) }
    ensures whole { IfOk result (λ _. ReadsWhole D.Storage (marks_at layout.now region) (marks_len layout.now) disk.old disk.new) }
    ensures reads { ReadsFront D.Storage (marks_at layout.now region) (marks_len layout.now) disk.old disk.new }
    ensures frame { OnlyReads D.Storage disk.old disk.new }
    ensures cause { DiskFailsAs D.Storage CellsFault.Disk disk.old disk.new result }
{
    let mut bytes = vec![in alloc; 0u8; layout.marks_len() as usize]?;
    read_range(disk, layout.marks_at(region), &mut bytes)?;
    let marks = Marks::from_bytes(alloc, layout.shape(), &bytes)?;
    Ok(marks)
}

// Reads a range in pieces.
fn read_range<D: Disk>(disk: &mut D, at: u64, out: &mut [u8]) -> Result<(), DiskFault>
    requires inside { at + length out.old ≤ D.size disk.old }
    ensures filled { OnOk result (D.told → out.new ≡ part at (length out.old) (D.image disk.old)) }
    ensures length { length out.new ≡ length out.old }
    ensures whole { OnOk result (ReadsWhole D.Storage at (length out.old) disk.old disk.new) }
    ensures reads { ReadsFront D.Storage at (length out.old) disk.old disk.new }
    ensures frame { OnlyReads D.Storage disk.old disk.new }
    ensures cause { DiskFails D.Storage disk.old disk.new result }
{
    let mut done = 0;
    while done < out.len() {
        let count = (out.len() - done).min(PIECE);
        disk.read(at + done as u64, &mut out[done..done + count])?;
        done += count;
    }
    Ok(())
}
