// The scan of a shelf: the live places with the slices of their codes.
ghost use Rattle.std.specs.Prelude.{◌≡◌, ◌+◌, ◌<◌, ◌≤◌, List, ℕ, None, Some, length, IfOk, IfSome, OnErr};
ghost use Rattle.va_cells.specs.Scans.{Agrees};
ghost use Rattle.va_cells.specs.Slices.{slices_of};
ghost use Rattle.va_core.specs.Cells.{NamesSlices};
ghost use Rattle.va_core.specs.Shape.{code_bytes};
ghost use Rattle.va_disk.specs.Frames.{DiskFails};
ghost use Rattle.va_layout.specs.Fields.{code_in};
ghost use Rattle.va_layout.specs.Layout.{layout_len};
ghost use Rattle.va_ports.specs.Shelves.{Gave, id_of, place_of};
ghost use Rattle.va_store.specs.Ids.{LivesAt};
ghost use Rattle.va_store.specs.Shelved.{IsCode, IsMet, KeepsChanged, ScansOn, left_of};

use crate::Store;
use va_disk::{Disk, DiskFault};

/// The next live place with its id, and the slices of its code. Where the code names no cell the place is noted, and the
/// slices of the vector of zeros are given.
///
/// After a fault no live place was passed.
pub(crate) fn next_cell<D: Disk>(
    store: &mut Store,
    disk: &mut D,
    slices: &mut [u8],
) -> Result<Option<(u32, u32)>, DiskFault>
    requires fits { layout_len store.old.shape ≤ D.size disk.old }
    requires room { length slices.old ≡ store.old.shape.dims }
    ensures gave { IfOk result (λ next. Gave next (left_of store.old) (left_of store.new)) }
    ensures left { OnErr result (left_of store.new ≡ left_of store.old) }
    ensures all { IfOk result (λ next. next ≡ None → store.new.scan.end ≡ store.old.shape.capacity) }
    ensures met { IfOk result (λ next. IfSome next (IsMet D.Storage store.old disk.old store.new slices.new)) }
    ensures names { IfOk result (λ next. IfSome next (λ cell. NamesSlices store.old.marks slices.new)) }
    ensures scan { ScansOn D.Storage store.old disk.old store.new disk.new }
    ensures changed { KeepsChanged store.old store.new }
    ensures end { IfOk result (λ next. next ≡ None → store.new.changed ≡ store.old.changed) }
    ensures failed { OnErr result (store.new.changed ≡ store.old.changed) }
    ensures length { length slices.new ≡ length slices.old }
    ensures cause { DiskFails D.Storage disk.old disk.new result }
{
    let mut buffer = [0; 256];
    let code = &mut buffer[..store.shape().code_bytes()];
    let Some((place, id)) = next_live(store, disk, code)? else {
        return Ok(None);
    };
    store.take_code(place, code, slices);
    Ok(Some((place, id)))
}

// The next live place with its id, and its packed code.
fn next_live<D: Disk>(
    store: &mut Store,
    disk: &mut D,
    code: &mut [u8],
) -> Result<Option<(u32, u32)>, DiskFault>
    requires fits { layout_len store.old.shape ≤ D.size disk.old }
    requires room { length code.old ≡ code_bytes store.old.shape }
    ensures gave { IfOk result (λ next. Gave next (left_of store.old) (left_of store.new)) }
    ensures left { OnErr result (left_of store.new ≡ left_of store.old) }
    ensures all { IfOk result (λ next. next ≡ None → store.new.scan.end ≡ store.old.shape.capacity) }
    ensures lives { IfOk result (λ next. IfSome next (λ cell. LivesAt (id_of cell) (place_of cell) store.old.ids)) }
    ensures inside { IfOk result (λ next. IfSome next (λ cell. place_of cell < store.old.shape.capacity)) }
    ensures code { IfOk result (λ next. IfSome next (λ cell. IsCode D.Storage store.old disk.old (place_of cell) code.new)) }
    ensures scan { ScansOn D.Storage store.old disk.old store.new disk.new }
    ensures changed { store.new.changed ≡ store.old.changed }
    ensures length { length code.new ≡ length code.old }
    ensures cause { DiskFails D.Storage disk.old disk.new result }
{
    while let Some(place) = next_place(store, disk, code)? {
        if let Some(id) = store.id_at(place) {
            return Ok(Some((place, id)));
        }
    }
    Ok(None)
}

// The next place, live or not, and its packed code.
fn next_place<D: Disk>(
    store: &mut Store,
    disk: &mut D,
    code: &mut [u8],
) -> Result<Option<u32>, DiskFault>
    requires fits { layout_len store.old.shape ≤ D.size disk.old }
    requires room { length code.old ≡ code_bytes store.old.shape }
    ensures place { IfOk result (λ next. IfSome next (λ place. (place ≡ store.old.scan.place) × (store.new.scan.place ≡ place + 1))) }
    ensures inside { IfOk result (λ next. IfSome next (λ place. place < store.old.shape.capacity)) }
    ensures end { IfOk result (λ next. next ≡ None → store.old.scan.place ≡ store.old.shape.capacity) }
    ensures all { IfOk result (λ next. next ≡ None → store.new.scan.end ≡ store.old.shape.capacity) }
    ensures none { IfOk result (λ next. next ≡ None → store.new ≡ store.old) }
    ensures stands { OnErr result (store.new ≡ store.old) }
    ensures ids { length store.old.ids ≡ store.old.shape.capacity }
    ensures code { IfOk result (λ next. IfSome next (λ place. IsCode D.Storage store.old disk.old place code.new)) }
    ensures scan { ScansOn D.Storage store.old disk.old store.new disk.new }
    ensures changed { store.new.changed ≡ store.old.changed }
    ensures length { length code.new ≡ length code.old }
    ensures cause { DiskFails D.Storage disk.old disk.new result }
{
    store.pages.next(disk, code)
}
