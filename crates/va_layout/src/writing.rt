// A write in the words of parts: what stands there then, and what it leaves.
ghost use Rattle.std.specs.Prelude.{◌≡◌, ◌+◌, ◌≤◌, [], ◌∷◌, length, OnOk};
ghost use Rattle.va_disk.specs.Crashes.{Follows};
ghost use Rattle.va_disk.specs.Frames.{DiskFails, OnlyWrites};
ghost use Rattle.va_layout.specs.Parts.{KeepsRest, part};

use va_disk::{Disk, DiskFault};

/// Writes bytes inside the length.
///
/// After a fault the part may hold anything, and all else is as it was.
pub fn write_part<D: Disk>(disk: &mut D, at: u64, bytes: &[u8]) -> Result<(), DiskFault>
    requires { at + length bytes.now ≤ D.size disk.old }
    ensures written { OnOk result (D.told → part at (length bytes.now) (D.image disk.new) ≡ bytes.now) }
    ensures rest { D.told → KeepsRest ((at, length bytes.now) ∷ []) (D.image disk.old) (D.image disk.new) }
    ensures crash { D.honest → Follows (KeepsRest ((at, length bytes.now) ∷ [])) (D.may_leave disk.old) (D.may_leave disk.new) }
    ensures frame { OnlyWrites D.Storage disk.old disk.new (D.may_leave disk.new) }
    ensures size { D.size disk.new ≡ D.size disk.old }
    ensures cause { DiskFails D.Storage disk.old disk.new result }
{
    disk.write(at, bytes)
}
