// A place is laid, opened and shut.
ghost use Rattle.std.specs.Prelude.{◌≡◌, ◌<◌, ◌≤◌, List, ℕ, length, OnOk};
ghost use Rattle.va_disk.specs.Crashes.{Follows};
ghost use Rattle.va_disk.specs.Frames.{DiskFails, IsStable, OnlyWrites};
ghost use Rattle.va_layout.specs.Parts.{KeepsRest};
ghost use Rattle.va_layout.specs.Layout.{layout_len};
ghost use Rattle.va_layout.specs.Fields.{IsLaid, gate_in, gate_range, laid_ranges};

use crate::slot::{OPEN, behind_gate};
use va_disk::{Disk, DiskFault};
use va_gate::commit;
use va_layout::{Layout, write_part};

const SHUT: u8 = 0x00;

/// Writes the id and the vector of a closed place, of `dims` bytes, and never its gate. Nothing is stable yet.
///
/// After a fault the place is still closed, and all other bytes are as they were.
pub fn lay<D: Disk>(
    disk: &mut D,
    layout: &Layout,
    place: u32,
    id: u32,
    vector: &[u8],
) -> Result<(), DiskFault>
    requires fits { layout_len layout.now ≤ D.size disk.old }
    requires place { place < layout.now.capacity }
    requires length { length vector.now ≡ layout.now.dims }
    requires closed { D.told → gate_in place (D.image disk.old) ≡ 71 → ⊥ }
    ensures closed { D.told → gate_in place (D.image disk.new) ≡ 71 → ⊥ }
    ensures laid { OnOk result (D.told → IsLaid layout.now place (record { id = id; vector = vector.now }) (D.image disk.new)) }
    ensures rest { D.told → KeepsRest (laid_ranges layout.now place) (D.image disk.old) (D.image disk.new) }
    ensures crash { D.honest → Follows (KeepsRest (laid_ranges layout.now place)) (D.may_leave disk.old) (D.may_leave disk.new) }
    // At each moment a crash leaves what it might have left at the start, but for the bytes that are laid.
    ensures frame { OnlyWrites D.Storage disk.old disk.new (λ c. (d : List ℕ) × D.may_leave disk.old d × KeepsRest (laid_ranges layout.now place) d c) }
    ensures size { D.size disk.new ≡ D.size disk.old }
    ensures cause { DiskFails D.Storage disk.old disk.new result }
{
    write_part(disk, layout.slot_at(place) + 1, &behind_gate(id))?;
    write_part(disk, layout.vector_at(place), vector)
}

/// Opens the gate of a closed place, and makes it stable with all that was written before.
///
/// A crash inside finds the gate open or closed, and all else as it was read at the start.
pub fn open<D: Disk>(disk: &mut D, layout: &Layout, place: u32) -> Result<(), DiskFault>
    requires fits { layout_len layout.now ≤ D.size disk.old }
    requires place { place < layout.now.capacity }
    requires closed { D.told → gate_in place (D.image disk.old) ≡ 71 → ⊥ }
    ensures gate { OnOk result (D.told → gate_in place (D.image disk.new) ≡ 71) }
    ensures rest { D.told → KeepsRest (gate_range place) (D.image disk.old) (D.image disk.new) }
    ensures durable { OnOk result (IsStable D.Storage disk.new) }
    ensures frame { OnlyWrites D.Storage disk.old disk.new (λ c. D.told → KeepsRest (gate_range place) (D.image disk.old) c) }
    ensures size { D.size disk.new ≡ D.size disk.old }
    ensures cause { DiskFails D.Storage disk.old disk.new result }
{
    set_gate(disk, layout, place, OPEN)
}

/// Closes the gate of an open place, and makes it stable with all that was written before.
///
/// A crash inside finds the gate open or closed, and all else as it was read at the start.
pub fn shut<D: Disk>(disk: &mut D, layout: &Layout, place: u32) -> Result<(), DiskFault>
    requires fits { layout_len layout.now ≤ D.size disk.old }
    requires place { place < layout.now.capacity }
    requires open { D.told → gate_in place (D.image disk.old) ≡ 71 }
    ensures gate { OnOk result (D.told → gate_in place (D.image disk.new) ≡ 0) }
    ensures rest { D.told → KeepsRest (gate_range place) (D.image disk.old) (D.image disk.new) }
    ensures durable { OnOk result (IsStable D.Storage disk.new) }
    ensures frame { OnlyWrites D.Storage disk.old disk.new (λ c. D.told → KeepsRest (gate_range place) (D.image disk.old) c) }
    ensures size { D.size disk.new ≡ D.size disk.old }
    ensures cause { DiskFails D.Storage disk.old disk.new result }
{
    set_gate(disk, layout, place, SHUT)
}

fn set_gate<D: Disk>(disk: &mut D, layout: &Layout, place: u32, value: u8) -> Result<(), DiskFault>
    requires fits { layout_len layout.now ≤ D.size disk.old }
    requires place { place < layout.now.capacity }
    ensures gate { OnOk result (D.told → gate_in place (D.image disk.new) ≡ value) }
    ensures rest { D.told → KeepsRest (gate_range place) (D.image disk.old) (D.image disk.new) }
    ensures durable { OnOk result (IsStable D.Storage disk.new) }
    ensures frame { OnlyWrites D.Storage disk.old disk.new (λ c. D.told → KeepsRest (gate_range place) (D.image disk.old) c) }
    ensures size { D.size disk.new ≡ D.size disk.old }
    ensures cause { DiskFails D.Storage disk.old disk.new result }
{
    commit(disk, layout.slot_at(place), value)
}
