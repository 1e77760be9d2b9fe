// A region is selected.
ghost use Rattle.std.specs.Prelude.{◌≡◌, ◌≤◌, slice_set, OnOk};
ghost use Rattle.va_cells.specs.Selecting.{selection_of};
ghost use Rattle.va_disk.specs.Frames.{DiskFails, IsStable, OnlyWrites};
ghost use Rattle.va_layout.specs.Fields.{selection_range};
ghost use Rattle.va_layout.specs.Layout.{other_region};
ghost use Rattle.va_layout.specs.Parts.{KeepsRest};
ghost use Rattle.va_layout.specs.Stands.{selected_in};

use va_disk::{Disk, DiskFault};
use va_gate::commit;
use va_layout::Region;

/// The place of the selection byte in the header.
const SELECTION: u64 = 16;

/// Selects a region, where the other one is selected, and makes it stable with all that was written before.
///
/// A crash inside finds one of the two selected, and all else as it was read at the start.
pub fn select<D: Disk>(disk: &mut D, region: Region) -> Result<(), DiskFault>
    requires long { 32 ≤ D.size disk.old }
    requires other { D.told → selected_in (D.image disk.old) ≡ other_region region }
    ensures selected { OnOk result (D.told → selected_in (D.image disk.new) ≡ region) }
    ensures written { OnOk result (D.told → D.image disk.new ≡ slice_set (D.image disk.old) 16 (selection_of region)) }
    ensures rest { D.told → KeepsRest selection_range (D.image disk.old) (D.image disk.new) }
    ensures durable { OnOk result (IsStable D.Storage disk.new) }
    ensures frame { OnlyWrites D.Storage disk.old disk.new (λ c. D.told → KeepsRest selection_range (D.image disk.old) c) }
    ensures size { D.size disk.new ≡ D.size disk.old }
    ensures cause { DiskFails D.Storage disk.old disk.new result }
{
    commit(disk, SELECTION, selection_byte(region))
}

fn selection_byte(region: Region) -> u8
    ensures { result ≡ selection_of region }
{
    match region {
        Region::A => b'A',
        Region::B => b'B',
    }
}
