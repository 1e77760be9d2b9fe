// A blank file becomes that of an empty store.
ghost use Rattle.std.specs.Prelude.{◌≡◌, ◌+◌, ◌-◌, ◌<◌, ◌≤◌, List, ℕ, [], length, max, OnOk};
ghost use Rattle.va_core.specs.Marks.{AreValid, HasShape, marks_of};
ghost use Rattle.va_disk.specs.Crashes.{Follows};
ghost use Rattle.va_disk.specs.Frames.{DiskFails, IsStable, OnlyWrites};
ghost use Rattle.va_layout.specs.Header.{header_bytes, header_of};
ghost use Rattle.va_layout.specs.Layout.{layout_len};
ghost use Rattle.va_layout.specs.Parts.{KeepsRest};
ghost use Rattle.va_layout.specs.Stands.{IsBlank, Stands, selected_in};
ghost use Rattle.va_layout.specs.declared.region.Region.TheVariants.{A};
ghost use Rattle.va_store.specs.Empty.{HasHeader, IsLaidBare, IsMade, IsShut, StaysBlank, behind_gate, empty_kept, first_header, head_gate, layout_range};

use va_cells::put_marks;
use va_disk::{Disk, DiskFault};
use va_gate::{commit, fill};
use va_layout::{Header, Layout, Region, write_part};
use va_marks::Marks;

/// The bytes of a header.
const HEADER: u64 = 32;

/// Writes the file of a store that holds nothing over a blank one, and makes it stable.
///
/// The gate of the header is opened last, so a crash inside leaves a blank file or the whole of an empty store.
pub(crate) fn write_empty<D: Disk>(
    disk: &mut D,
    layout: &Layout,
    marks: &Marks,
) -> Result<(), DiskFault>
    requires blank { D.told → IsBlank (D.image disk.old) }
    requires equal { marks.now ≡ marks_of layout.now [] }
    requires fit { HasShape layout.now marks.now }
    requires valid { AreValid marks.now }
    ensures stands { OnOk result (D.told → Stands (empty_kept layout.now) (D.image disk.new)) }
    ensures selected { OnOk result (D.told → selected_in (D.image disk.new) ≡ A) }
    ensures durable { OnOk result (IsStable D.Storage disk.new) }
    ensures frame { OnlyWrites D.Storage disk.old disk.new (λ c. D.told → IsMade layout.now (D.image disk.old) c) }
    ensures rest { D.told → KeepsRest (layout_range layout.now) (D.image disk.old) (D.image disk.new) }
    ensures size { OnOk result (layout_len layout.now ≤ D.size disk.new) }
    ensures no_shorter { D.size disk.old ≤ D.size disk.new }
    ensures cause { DiskFails D.Storage disk.old disk.new result }
{
    let header = new_header(layout);
    shut_gate(disk)?;
    lay_behind_gate(disk, layout, &header, marks)?;
    commit(disk, 0, header[0])
}

fn new_header(layout: &Layout) -> [u8; 32]
    ensures bytes { result ≡ header_bytes (first_header layout.now) }
    ensures read { header_of result ≡ Ok (first_header layout.now) }
{
    let mut bytes = [0; 32];
    Header {
        shape: layout.shape(),
        region: Region::A,
    }
    .write(&mut bytes);
    bytes
}

// Makes a blank file stable that has a gate, which isn't open.
fn shut_gate<D: Disk>(disk: &mut D) -> Result<(), DiskFault>
    requires blank { D.told → IsBlank (D.image disk.old) }
    ensures shut { OnOk result (D.told → IsShut (D.image disk.new)) }
    ensures some { OnOk result (1 ≤ D.size disk.new) }
    ensures durable { OnOk result (IsStable D.Storage disk.new) }
    ensures frame { OnlyWrites D.Storage disk.old disk.new (λ c. D.told → StaysBlank (D.image disk.old) c) }
    ensures rest { D.told → KeepsRest head_gate (D.image disk.old) (D.image disk.new) }
    ensures no_shorter { D.size disk.old ≤ D.size disk.new }
    ensures cause { DiskFails D.Storage disk.old disk.new result }
{
    disk.sync()?;
    if disk.len() < HEADER {
        return clear_gate(disk);
    }
    Ok(())
}

// The first byte of a short file may be anything. With fewer than 32 bytes it is blank all the same, so this
// write has to be stable before the file grows.
fn clear_gate<D: Disk>(disk: &mut D) -> Result<(), DiskFault>
    requires short { D.size disk.old < 32 }
    requires stable { IsStable D.Storage disk.old }
    ensures shut { OnOk result (D.told → IsShut (D.image disk.new)) }
    ensures some { OnOk result (1 ≤ D.size disk.new) }
    ensures durable { OnOk result (IsStable D.Storage disk.new) }
    ensures frame { OnlyWrites D.Storage disk.old disk.new (λ c. D.told → StaysBlank (D.image disk.old) c) }
    ensures rest { D.told → KeepsRest head_gate (D.image disk.old) (D.image disk.new) }
    ensures no_shorter { D.size disk.old ≤ D.size disk.new }
    ensures short { D.size disk.new < 32 }
    ensures cause { DiskFails D.Storage disk.old disk.new result }
{
    disk.write(0, &[0])?;
    disk.sync()
}

// Writes all but the gate: 0 everywhere, and over it the header and the marks.
fn lay_behind_gate<D: Disk>(
    disk: &mut D,
    layout: &Layout,
    header: &[u8; 32],
    marks: &Marks,
) -> Result<(), DiskFault>
    requires some { 1 ≤ D.size disk.old }
    requires header { header.now ≡ header_bytes (first_header layout.now) }
    requires equal { marks.now ≡ marks_of layout.now [] }
    requires fit { HasShape layout.now marks.now }
    ensures laid { OnOk result (D.told → IsLaidBare layout.now (D.image disk.new)) }
    ensures rest { D.told → KeepsRest (behind_gate layout.now) (D.image disk.old) (D.image disk.new) }
    // At each moment a crash leaves what it might have left at the start, but for what is laid.
    ensures frame { OnlyWrites D.Storage disk.old disk.new (λ c. (d : List ℕ) × D.may_leave disk.old d × KeepsRest (behind_gate layout.now) d c) }
    ensures size { OnOk result (layout_len layout.now ≤ D.size disk.new) }
    ensures no_shorter { D.size disk.old ≤ D.size disk.new }
    ensures cause { DiskFails D.Storage disk.old disk.new result }
{
    lay_header(disk, layout, header)?;
    put_marks(disk, layout, Region::A, marks)
}

// Writes 0 everywhere but over the gate, and over it the header.
fn lay_header<D: Disk>(disk: &mut D, layout: &Layout, header: &[u8; 32]) -> Result<(), DiskFault>
    requires some { 1 ≤ D.size disk.old }
    requires header { header.now ≡ header_bytes (first_header layout.now) }
    ensures laid { OnOk result (D.told → HasHeader layout.now (D.image disk.new)) }
    ensures rest { D.told → KeepsRest (behind_gate layout.now) (D.image disk.old) (D.image disk.new) }
    ensures crash { D.honest → Follows (KeepsRest (behind_gate layout.now)) (D.may_leave disk.old) (D.may_leave disk.new) }
    // At each moment a crash leaves what it might have left at the start, but for what is laid.
    ensures frame { OnlyWrites D.Storage disk.old disk.new (λ c. (d : List ℕ) × D.may_leave disk.old d × KeepsRest (behind_gate layout.now) d c) }
    ensures size { OnOk result (layout_len layout.now ≤ D.size disk.new) }
    ensures no_shorter { D.size disk.old ≤ D.size disk.new }
    ensures cause { DiskFails D.Storage disk.old disk.new result }
{
    fill(disk, 1, layout.len() - 1, 0)?;
    write_part(disk, 1, &header[1..])
}
