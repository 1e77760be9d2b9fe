// A closed place is laid with its codes.
ghost use Rattle.va_layout.specs.Stands.{Building};
ghost use Rattle.std.specs.Prelude.{◌≡◌, ◌<◌, ◌≤◌, List, ℕ, None, Some, length, OnOk};
ghost use Rattle.va_core.specs.Marks.{HasShape};
ghost use Rattle.va_core.specs.Places.{Item};
ghost use Rattle.va_disk.specs.Crashes.{Follows};
ghost use Rattle.va_disk.specs.Frames.{DiskFails, OnlyWrites};
ghost use Rattle.va_layout.specs.Fields.{HasCode, IsLaid, code_range, gate_in, gated_ranges};
ghost use Rattle.va_layout.specs.Layout.{layout_len, other_region};
ghost use Rattle.va_layout.specs.Parts.{KeepsRest};
ghost use Rattle.va_store.specs.Builds.{IsFor, KeepsOther};

use crate::Store;
use va_cells::put_code;
use va_disk::{Disk, DiskFault};
use va_layout::{Layout, Region};
use va_marks::Marks;
use va_rows::lay;

impl Store {
    // Writes the id, the vector and the codes of a closed place, and never its gate. Nothing is stable yet.
    pub(crate) fn lay_place<D: Disk>(
        &self,
        disk: &mut D,
        place: u32,
        id: u32,
        vector: &[u8],
    ) -> Result<(), DiskFault>
        requires fits { layout_len self.now.shape ≤ D.size disk.old }
        requires place { place < self.now.shape.capacity }
        requires length { length vector.now ≡ self.now.shape.dims }
        requires closed { D.told → gate_in place (D.image disk.old) ≡ 71 → ⊥ }
        ensures closed { D.told → gate_in place (D.image disk.new) ≡ 71 → ⊥ }
        ensures laid { OnOk result (D.told → IsLaid self.now.shape place (record { id = id; vector = vector.now }) (D.image disk.new)) }
        ensures code { OnOk result (D.told → HasCode self.now.shape self.now.region self.now.marks place (record { id = id; vector = vector.now }) (D.image disk.new)) }
        ensures next { OnOk result (D.told → (b : Building) → self.now.building ≡ Some b → HasCode self.now.shape (other_region self.now.region) b.marks place (record { id = id; vector = vector.now }) (D.image disk.new)) }
        ensures rest { D.told → KeepsRest (gated_ranges self.now.shape place) (D.image disk.old) (D.image disk.new) }
        ensures aside { self.now.building ≡ None → D.told → KeepsOther self.now.shape self.now.region place (D.image disk.old) (D.image disk.new) }
        // At each moment a crash leaves what it might have left at the start, but for what is written of the place.
        ensures frame { OnlyWrites D.Storage disk.old disk.new (λ c. (d : List ℕ) × D.may_leave disk.old d × KeepsRest (gated_ranges self.now.shape place) d c) }
        ensures size { D.size disk.new ≡ D.size disk.old }
        ensures cause { DiskFails D.Storage disk.old disk.new result }
    {
        lay(disk, &self.layout, place, id, vector)?;
        put_cell(disk, &self.layout, self.region, &self.marks, place, vector)?;
        self.put_next(disk, place, vector)
    }

    // Writes the code under the marks that are being built, where any are. Nothing is stable yet.
    pub(crate) fn put_next<D: Disk>(
        &self,
        disk: &mut D,
        place: u32,
        vector: &[u8],
    ) -> Result<(), DiskFault>
        requires fits { layout_len self.now.shape ≤ D.size disk.old }
        requires place { place < self.now.shape.capacity }
        requires length { length vector.now ≡ self.now.shape.dims }
        ensures code { OnOk result (D.told → (id : ℕ) (b : Building) → self.now.building ≡ Some b → HasCode self.now.shape (other_region self.now.region) b.marks place (record { id = id; vector = vector.now }) (D.image disk.new)) }
        ensures fit { (b : Building) → self.now.building ≡ Some b → IsFor self.now.shape b }
        ensures idle { self.now.building ≡ None → disk.new ≡ disk.old }
        ensures rest { D.told → KeepsRest (code_range self.now.shape (other_region self.now.region) place) (D.image disk.old) (D.image disk.new) }
        ensures crash { D.honest → Follows (KeepsRest (code_range self.now.shape (other_region self.now.region) place)) (D.may_leave disk.old) (D.may_leave disk.new) }
        ensures frame { OnlyWrites D.Storage disk.old disk.new (D.may_leave disk.new) }
        ensures size { D.size disk.new ≡ D.size disk.old }
        ensures cause { DiskFails D.Storage disk.old disk.new result }
    {
        match &self.building {
            None => Ok(()),
            Some(building) => put_cell(
                disk,
                &self.layout,
                self.region.other(),
                &building.marks,
                place,
                vector,
            ),
        }
    }
}

// Writes the code of a vector's cell in a place of a region. Nothing is stable yet.
fn put_cell<D: Disk>(
    disk: &mut D,
    layout: &Layout,
    region: Region,
    marks: &Marks,
    place: u32,
    vector: &[u8],
) -> Result<(), DiskFault>
    requires fits { layout_len layout.now ≤ D.size disk.old }
    requires marks { HasShape layout.now marks.now }
    requires place { place < layout.now.capacity }
    requires length { length vector.now ≡ layout.now.dims }
    ensures code { OnOk result (D.told → (id : ℕ) → HasCode layout.now region marks.now place (record { id = id; vector = vector.now }) (D.image disk.new)) }
    ensures rest { D.told → KeepsRest (code_range layout.now region place) (D.image disk.old) (D.image disk.new) }
    ensures crash { D.honest → Follows (KeepsRest (code_range layout.now region place)) (D.may_leave disk.old) (D.may_leave disk.new) }
    ensures frame { OnlyWrites D.Storage disk.old disk.new (D.may_leave disk.new) }
    ensures size { D.size disk.new ≡ D.size disk.old }
    ensures cause { DiskFails D.Storage disk.old disk.new result }
{
    let mut buffer = [0; 256];
    let slices = &mut buffer[..usize::from(layout.shape().dims())];
    marks.cell(vector, slices);
    put_code(disk, layout, region, place, slices)
}
