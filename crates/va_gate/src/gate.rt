// A change of one byte that a crash leaves done or not done.
ghost use Rattle.std.specs.Prelude.{◌≡◌, ◌<◌, slice_set, OnOk};
ghost use Rattle.va_disk.specs.Crashes.{Torn};
ghost use Rattle.va_disk.specs.Frames.{DiskFails, IsStable, OnlyWrites};

use va_disk::{Disk, DiskFault};

/// Sets the byte at `at`, and makes it stable. What was written before is stable before it.
///
/// After a fault the byte may hold any value, and all other bytes are as they were.
pub fn commit<D: Disk>(disk: &mut D, at: u64, value: u8) -> Result<(), DiskFault>
    requires { at < D.size disk.old }
    ensures written { OnOk result (D.told → D.image disk.new ≡ slice_set (D.image disk.old) at value) }
    ensures torn { D.told → Torn at 1 (D.image disk.old) (D.image disk.new) }
    ensures durable { OnOk result (IsStable D.Storage disk.new) }
    // A crash leaves what it might have left at the start, or all other bytes as they were read then.
    ensures frame { OnlyWrites D.Storage disk.old disk.new (λ c. D.told → Torn at 1 (D.image disk.old) c) }
    ensures size { D.size disk.new ≡ D.size disk.old }
    ensures cause { DiskFails D.Storage disk.old disk.new result }
{
    disk.sync()?;
    disk.write(at, &[value])?;
    disk.sync()
}
