// A disk by what a read gives, what was read, and what a crash may leave.
ghost use Rattle.std.specs.Prelude.{◌≡◌, ◌↔◌, ◌+◌, ◌<◌, ◌≤◌, ◌^◌, ◌++◌, [], ◌∷◌, List, ℕ, length, take, drop, max, OnOk, OnErr};
ghost use Rattle.va_disk.specs.Crashes.{Only, Follows, Torn, Holds};
ghost use Rattle.va_disk.specs.Frames.{DiskFails, Goes, OnlyReads, OnlyWrites, ReadsOnce};

use crate::Storage;

/// The disk failed in a call.
#[derive(Clone, Copy, Debug, PartialEq, Eq)]
pub struct DiskFault;

/// A file of bytes that survives crashes.
///
/// Between two syncs that succeed, each written range and the part past the old end may hold any bytes after
/// a crash, and the length lies between the least and the greatest since the last sync. Bytes outside stay.
/// After a sync that succeeds a crash leaves what a read gives.
pub trait Disk: Storage {
    /// The length in bytes.
    fn len(&self) -> u64
        ensures { result ≡ Self.size self.now };

    /// Fills `out` with the bytes from `at` on.
    fn read(&mut self, at: u64, out: &mut [u8]) -> Result<(), DiskFault>
        requires { at + length out.old ≤ Self.size self.old }
        ensures filled { OnOk result (Self.told → out.new ≡ take (length out.old) (drop at (Self.image self.old))) }
        ensures reads { ReadsOnce Self.Storage self.old self.new at (length out.old) result }
        ensures frame { OnlyReads Self.Storage self.old self.new }
        ensures time { Goes Self.Storage self.old self.new }
        ensures cause { DiskFails Self.Storage self.old self.new result };

    /// Writes `bytes` from `at` on, past the end too. After a fault the range may hold anything.
    fn write(&mut self, at: u64, bytes: &[u8]) -> Result<(), DiskFault>
        requires inside { at ≤ Self.size self.old }
        requires end { at + length bytes.now < 2 ^ 63 }
        ensures written { OnOk result (Self.told → Holds (Self.image self.old) at bytes.now (Self.image self.new)) }
        ensures torn { OnErr result (Self.told → Torn at (length bytes.now) (Self.image self.old) (Self.image self.new)) }
        ensures size { OnOk result (Self.size self.new ≡ max (Self.size self.old) (at + length bytes.now)) }
        ensures size_err { OnErr result ((Self.size self.old ≤ Self.size self.new) × (Self.size self.new ≤ max (Self.size self.old) (at + length bytes.now))) }
        ensures frame { OnlyWrites Self.Storage self.old self.new (Self.may_leave self.new) }
        // One that failed counts as written.
        ensures crash { Self.honest → Follows (Torn at (length bytes.now)) (Self.may_leave self.old) (Self.may_leave self.new) }
        ensures time { Goes Self.Storage self.old self.new }
        ensures cause { DiskFails Self.Storage self.old self.new result };

    /// Makes what was written stable. After a fault nothing new is stable.
    fn sync(&mut self) -> Result<(), DiskFault>
        ensures durable { OnOk result (Self.honest → Self.told → Only (Self.image self.old) (Self.may_leave self.new)) }
        ensures frame { OnlyReads Self.Storage self.old self.new }
        ensures reads { Self.reads self.new ≡ Self.reads self.old }
        ensures crash_err { OnErr result (Self.honest → (c : List ℕ) → Self.may_leave self.old c → Self.may_leave self.new c) }
        ensures time { Goes Self.Storage self.old self.new }
        ensures cause { DiskFails Self.Storage self.old self.new result };

    /// A file's length fits a signed number.
    ghost bounded: { (disk : Self) → Self.size disk < 2 ^ 63 };

    /// As many bytes as the length.
    ghost length_told: { (disk : Self) → Self.told → length (Self.image disk) ≡ Self.size disk };

    /// What a read gives is one of the outcomes.
    ghost is_outcome: { (disk : Self) → Self.told → Self.honest → Self.may_leave disk (Self.image disk) };

    /// This moment is one of those since an earlier one.
    ghost counts_now: { (disk : Self) (t : ℕ) (c : List ℕ) → Self.honest → t ≤ Self.clock disk → Self.may_leave disk c → Self.left_since disk t c (Self.given disk) };

    /// Since this moment there is no other.
    ghost only_now: { (disk : Self) (c g : List ℕ) → Self.honest → Self.left_since disk (Self.clock disk) c g → Self.may_leave disk c × (g ≡ Self.given disk) };
}
