// A range that is filled with one byte.
ghost use Rattle.std.specs.Prelude.{◌≡◌, ◌+◌, ◌<◌, ◌≤◌, ◌^◌, List, ℕ, length, max, replicate, OnOk, OnErr};
ghost use Rattle.va_disk.specs.Crashes.{Follows, Holds, Torn};
ghost use Rattle.va_disk.specs.Frames.{DiskFails, OnlyWrites};

use va_disk::{Disk, DiskFault};

/// The most bytes of one write.
const PIECE: u64 = 4096;

/// Writes `byte` over the `len` bytes from `at` on, past the end too, in pieces of at most 4,096 bytes.
///
/// After a fault the range may hold anything, and all other bytes are as they were.
pub fn fill<D: Disk>(disk: &mut D, at: u64, len: u64, byte: u8) -> Result<(), DiskFault>
    requires inside { at ≤ D.size disk.old }
    requires end { at + len < 2 ^ 63 }
    ensures written { OnOk result (D.told → Holds (D.image disk.old) at (replicate len byte) (D.image disk.new)) }
    ensures torn { D.told → Torn at len (D.image disk.old) (D.image disk.new) }
    ensures size { OnOk result (D.size disk.new ≡ max (D.size disk.old) (at + len)) }
    ensures size_err { OnErr result ((D.size disk.old ≤ D.size disk.new) × (D.size disk.new ≤ max (D.size disk.old) (at + len))) }
    ensures crash { D.honest → Follows (Torn at len) (D.may_leave disk.old) (D.may_leave disk.new) }
    // At each moment a crash leaves what it might have left at the start, with the range torn.
    ensures frame { OnlyWrites D.Storage disk.old disk.new (λ c. (d : List ℕ) × D.may_leave disk.old d × Torn at len d c) }
    ensures cause { DiskFails D.Storage disk.old disk.new result }
{
    let mut done: u64 = 0;
    while done < len {
        let count = (len - done).min(PIECE);
        fill_piece(disk, at + done, count, byte)?;
        done += count;
    }
    Ok(())
}

fn fill_piece<D: Disk>(disk: &mut D, at: u64, len: u64, byte: u8) -> Result<(), DiskFault>
    requires inside { at ≤ D.size disk.old }
    requires end { at + len < 2 ^ 63 }
    requires short { len ≤ 4096 }
    ensures written { OnOk result (D.told → Holds (D.image disk.old) at (replicate len byte) (D.image disk.new)) }
    ensures torn { OnErr result (D.told → Torn at len (D.image disk.old) (D.image disk.new)) }
    ensures size { OnOk result (D.size disk.new ≡ max (D.size disk.old) (at + len)) }
    ensures size_err { OnErr result ((D.size disk.old ≤ D.size disk.new) × (D.size disk.new ≤ max (D.size disk.old) (at + len))) }
    ensures crash { D.honest → Follows (Torn at len) (D.may_leave disk.old) (D.may_leave disk.new) }
    ensures frame { OnlyWrites D.Storage disk.old disk.new (D.may_leave disk.new) }
    ensures cause { DiskFails D.Storage disk.old disk.new result }
{
    let piece = [byte; 4096];
    disk.write(at, first_of(&piece, len))
}

// The first bytes of a piece. A slice of an array literal in a clause would spell out the whole array.
fn first_of(piece: &[u8], len: u64) -> &[u8]
    requires { len ≤ length piece.now }
    ensures len { length result.now ≡ len }
    ensures same { (byte : ℕ) → piece.now ≡ replicate 4096 byte → result.now ≡ replicate len byte }
{
    &piece[..len as usize]
}
