// Slots and vectors are read.
ghost use Rattle.std.specs.Prelude.{◌≡◌, ◌+◌, ◌*◌, ◌<◌, ◌≤◌, ℕ, length, get_or, OnOk};
ghost use Rattle.va_disk.specs.Frames.{DiskFails, OnlyReads, ReadsOnce};
ghost use Rattle.va_layout.specs.Parts.{part};
ghost use Rattle.va_layout.specs.Layout.{layout_len, slot_at, vector_at};
ghost use Rattle.va_layout.specs.Fields.{vector_in};
ghost use Rattle.va_rows.specs.Slots.{HoldsSlots, ReadsSlots, slot_of};
ghost use Rattle.va_rows.specs.declared.slot.Slot.{Slot};

use crate::Slot;
use crate::slot::{SLOT, unpack};
use va_disk::{Disk, DiskFault};
use va_layout::Layout;

/// The slots of one read.
const PIECE: u32 = 512;

/// Reads the slots of all places, in pieces of at most 4,096 bytes.
///
/// After a fault the first slots may have been read.
pub fn read_slots<D: Disk>(disk: &mut D, layout: &Layout, out: &mut [Slot]) -> Result<(), DiskFault>
    requires fits { layout_len layout.now ≤ D.size disk.old }
    requires all { length out.old ≡ layout.now.capacity }
    ensures slots { OnOk result (D.told → HoldsSlots layout.now.capacity (D.image disk.old) out.new) }
    ensures reads { D.told → ReadsSlots layout.now.capacity (D.reads disk.old) (D.reads disk.new) }
    ensures frame { OnlyReads D.Storage disk.old disk.new }
    ensures cause { DiskFails D.Storage disk.old disk.new result }
{
    let capacity = layout.shape().capacity();
    let mut buffer = [0; 4096];
    let mut done = 0;
    while done < capacity {
        let count = (capacity - done).min(PIECE);
        let bytes = &mut buffer[..SLOT * count as usize];
        read_piece(
            disk,
            layout,
            done,
            bytes,
            &mut out[done as usize..(done + count) as usize],
        )?;
        done += count;
    }
    Ok(())
}

// Reads as many slots as `out` has, from a place on.
fn read_piece<D: Disk>(
    disk: &mut D,
    layout: &Layout,
    first: u32,
    bytes: &mut [u8],
    out: &mut [Slot],
) -> Result<(), DiskFault>
    requires fits { layout_len layout.now ≤ D.size disk.old }
    requires inside { first + length out.old ≤ layout.now.capacity }
    requires some { 0 < length out.old }
    requires buffer { length bytes.old ≡ 8 * length out.old }
    ensures slots { OnOk result (D.told → (k : ℕ) (other : Slot) → k < length out.old → get_or out.new k other ≡ slot_of (first + k) (D.image disk.old)) }
    ensures reads { ReadsOnce D.Storage disk.old disk.new (slot_at first) (8 * length out.old) result }
    ensures frame { OnlyReads D.Storage disk.old disk.new }
    ensures cause { DiskFails D.Storage disk.old disk.new result }
{
    disk.read(layout.slot_at(first), bytes)?;
    unpack(bytes, out);
    Ok(())
}

/// Reads the vector of a place, of `dims` bytes, whatever its gate is.
pub fn fetch<D: Disk>(
    disk: &mut D,
    layout: &Layout,
    place: u32,
    out: &mut [u8],
) -> Result<(), DiskFault>
    requires fits { layout_len layout.now ≤ D.size disk.old }
    requires place { place < layout.now.capacity }
    requires length { length out.old ≡ layout.now.dims }
    ensures vector { OnOk result (D.told → out.new ≡ vector_in layout.now place (D.image disk.old)) }
    ensures reads { ReadsOnce D.Storage disk.old disk.new (vector_at layout.now place) layout.now.dims result }
    ensures frame { OnlyReads D.Storage disk.old disk.new }
    ensures cause { DiskFails D.Storage disk.old disk.new result }
{
    disk.read(layout.vector_at(place), out)
}
