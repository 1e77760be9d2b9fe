// Marks are made of the live vectors.
ghost use Rattle.std.specs.Prelude.{◌≡◌, ◌⊎◌, List, ℕ, None, Some, true, false, length, map, IfOk, IsErrOf, OnOk};
ghost use Rattle.va_core.specs.Marks.{HasShape, marks_of};
ghost use Rattle.va_core.specs.Places.{Item};
ghost use Rattle.va_disk.specs.Frames.{DiskFails, DiskFailsAs, OnlyReads, ReadsOnce};
ghost use Rattle.va_layout.specs.Fields.{marks_range};
ghost use Rattle.va_layout.specs.Layout.{other_region, vector_at};
ghost use Rattle.va_layout.specs.Parts.{KeepsRest};
ghost use Rattle.va_layout.specs.Stands.{Kept, Opens};
ghost use Rattle.va_marks.specs.Counts.{Tallies};
ghost use Rattle.va_requant.specs.Refitting.{all_live, vectors_of};
ghost use Rattle.va_store.specs.ShelfReads.{read_of_id};
ghost use Rattle.va_store.specs.Builds.{marks_of_building};
ghost use Rattle.va_store.specs.Ids.{NextBegins};
ghost use Rattle.va_store.specs.Known.{Becomes, Fits, IsOf, Keeps, broken, is_live_id, place_of_id};
ghost use Rattle.va_store.specs.Refits.{GivesNothing, ReadsThese, StaysIn, begun, same_kept};

use std::alloc::Global;
use va_disk::{Disk, DiskFault};
use va_marks::Tally;
use va_store::Store;

/// Why a refitting isn't begun.
#[derive(Clone, Copy, Debug, PartialEq, Eq)]
pub enum BeginFault {
    /// No memory was found. Vectors may have been read, and nothing was written.
    Memory,
    /// A call of the disk failed. Where it was a write the store is broken.
    Disk,
}

/// Begins to build the marks of the live vectors: reads each once, in the order of their ids, writes the marks into the region
/// that isn't selected, and answers how many there are. Nothing is stable yet.
///
/// What the file stands for stays, and so does what a crash leaves.
pub fn begin<D: Disk>(alloc: Global, disk: &mut D, store: &mut Store) -> Result<u32, BeginFault>
    requires fits { Fits D.Storage store.old disk.old }
    requires whole { store.old.broken ≡ false }
    requires idle { store.old.building ≡ None }
    ensures fits { Fits D.Storage store.new disk.new }
    ensures live { IfOk result (λ count. count ≡ length (all_live store.old)) }
    ensures ok { OnOk result (store.new ≡ begun (marks_of_building store.new.building) store.old) }
    // The marks are those of the live vectors.
    ensures marks { OnOk result (D.told → (kept : Kept) → IsOf store.old kept → Opens kept (D.image disk.old)
        → marks_of_building store.new.building ≡ marks_of store.old.shape (vectors_of store.old kept (all_live store.old))) }
    ensures memory { IsErrOf result BeginFault.Memory → (store.new ≡ store.old) × OnlyReads D.Storage disk.old disk.new }
    ensures disk { IsErrOf result BeginFault.Disk → ((store.new ≡ store.old) × OnlyReads D.Storage disk.old disk.new) ⊎ (store.new ≡ broken store.old) }
    ensures stands { Becomes D.Storage store.old same_kept disk.old disk.new }
    // At each moment a crash leaves what stands for what is kept, and selects the store's region.
    ensures outcomes { D.honest → (c : List ℕ) → D.may_leave disk.new c → StaysIn D.Storage store.old disk.old c }
    ensures frame { GivesNothing D.Storage disk.old disk.new (StaysIn D.Storage store.old disk.old) }
    ensures rest { D.told → KeepsRest (marks_range store.old.shape (other_region store.old.region)) (D.image disk.old) (D.image disk.new) }
    // It reads each live vector once, ascending by id, or the first of them where it fails.
    ensures reads { ReadsThese D.Storage (map (read_of_id store.old) (all_live store.old)) disk.old disk.new result }
    ensures size { D.size disk.new ≡ D.size disk.old }
    ensures cause { DiskFailsAs D.Storage BeginFault.Disk disk.old disk.new result }
{
    let live = store.live_above(None);
    let tally = tally_live(alloc, disk, store, live)?;
    let Ok(marks) = tally.marks(alloc) else {
        return Err(BeginFault::Memory);
    };
    match store.begin(disk, marks) {
        Ok(()) => Ok(live),
        Err(_) => Err(BeginFault::Disk),
    }
}

// Reads the live vectors in the order of their ids, and counts their coordinates.
fn tally_live<D: Disk>(
    alloc: Global,
    disk: &mut D,
    store: &mut Store,
    live: u32,
) -> Result<Tally, BeginFault>
    requires fits { Fits D.Storage store.old disk.old }
    requires live { live ≡ length (all_live store.old) }
    requires law { NextBegins store.old.ids }
    ensures fits { Fits D.Storage store.new disk.new }
    ensures store { store.new ≡ store.old }
    ensures shape { IfOk result (λ tally. tally.shape ≡ store.old.shape) }
    ensures tallied { IfOk result (λ tally. D.told → (kept : Kept) → IsOf store.old kept → Opens kept (D.image disk.old)
        → Tallies tally (vectors_of store.old kept (all_live store.old))) }
    ensures frame { OnlyReads D.Storage disk.old disk.new }
    ensures reads { ReadsThese D.Storage (map (read_of_id store.old) (all_live store.old)) disk.old disk.new result }
    ensures cause { DiskFailsAs D.Storage BeginFault.Disk disk.old disk.new result }
{
    let Ok(mut tally) = Tally::new(alloc, store.shape()) else {
        return Err(BeginFault::Memory);
    };
    let mut buffer = [0; 256];
    let vector = &mut buffer[..usize::from(store.shape().dims())];
    let mut after = None;
    for _ in 0..live {
        let id = store.next_live(after).unwrap();
        let Ok(()) = read_live(disk, store, id, vector) else {
            return Err(BeginFault::Disk);
        };
        tally.add(vector);
        after = Some(id);
    }
    Ok(tally)
}

// Reads the vector of an id that is live. After a fault the bytes may be anything.
fn read_live<D: Disk>(
    disk: &mut D,
    store: &mut Store,
    id: u32,
    vector: &mut [u8],
) -> Result<(), DiskFault>
    requires fits { Fits D.Storage store.old disk.old }
    requires live { is_live_id id store.old.ids ≡ true }
    requires length { length vector.old ≡ store.old.shape.dims }
    ensures fits { Fits D.Storage store.new disk.new }
    ensures store { store.new ≡ store.old }
    ensures vector { OnOk result (Keeps D.Storage store.old disk.old (place_of_id id store.old.ids) (record { id = id; vector = vector.new })) }
    ensures length { length vector.new ≡ length vector.old }
    ensures reads { ReadsOnce D.Storage disk.old disk.new (vector_at store.old.shape (place_of_id id store.old.ids)) store.old.shape.dims result }
    ensures frame { OnlyReads D.Storage disk.old disk.new }
    ensures cause { DiskFails D.Storage disk.old disk.new result }
{
    match store.get(disk, id, vector) {
        Ok(()) => Ok(()),
        Err(_) => Err(DiskFault),
    }
}
