// Other marks are built beside the selected ones, and take their place.
ghost use Rattle.va_layout.specs.Stands.{progress_of};
ghost use Rattle.std.specs.Prelude.{◌≡◌, ◌<◌, ◌∷◌, [], List, ℕ, Some, None, length, true, false, is_some, slice_set, OnOk, OnErr};
ghost use Rattle.va_cells.specs.Selecting.{selection_of};
ghost use Rattle.va_core.specs.Marks.{AreValid, HasShape};
ghost use Rattle.va_disk.specs.Frames.{DiskFails, IsStable, OnlyWrites};
ghost use Rattle.va_layout.specs.Fields.{code_range, marks_range, selection_range};
ghost use Rattle.va_layout.specs.Layout.{other_region, vector_at};
ghost use Rattle.va_layout.specs.Parts.{KeepsRest};
ghost use Rattle.va_store.specs.Builds.{last_of, reaching};
ghost use Rattle.va_store.specs.Ids.{IsNextLive, LivesAt};
ghost use Rattle.va_store.specs.Known.{Becomes, BeforeOrAfter, Fits, broken, place_of_id};
ghost use Rattle.va_store.specs.Refits.{GivesNothing, ReadsThese, StaysIn, begun, converted, refitted, same_kept, switched};

use crate::Store;
use crate::building::Building;
use std::mem::swap;
use va_cells::{put_marks, select};
use va_disk::{Disk, DiskFault};
use va_marks::Marks;
use va_rows::fetch;

impl Store {
    /// The last id that was converted, or `None` inside where none was yet; and `None` where no marks are being built.
    pub fn building(&self) -> Option<Option<u32>>
        ensures last { result ≡ progress_of self.now.building }
        ensures runs { is_some result ≡ is_some self.now.building }
    {
        match &self.building {
            None => None,
            Some(building) => Some(building.last),
        }
    }

    /// Begins to build marks: writes them into the region that isn't selected. Nothing is stable yet.
    ///
    /// What the file stands for stays, and so does what a crash leaves.
    pub fn begin<D: Disk>(&mut self, disk: &mut D, marks: Marks) -> Result<(), DiskFault>
        requires fits { Fits D.Storage self.old disk.old }
        requires whole { self.old.broken ≡ false }
        requires idle { self.old.building ≡ None }
        requires shape { HasShape self.old.shape marks }
        ensures fits { Fits D.Storage self.new disk.new }
        ensures ok { OnOk result (self.new ≡ begun marks self.old) }
        ensures err { OnErr result (self.new ≡ broken self.old) }
        ensures stands { Becomes D.Storage self.old same_kept disk.old disk.new }
        // At each moment a crash leaves what stands for what is kept, and selects the store's region.
        ensures outcomes { D.honest → (c : List ℕ) → D.may_leave disk.new c → StaysIn D.Storage self.old disk.old c }
        ensures frame { OnlyWrites D.Storage disk.old disk.new (StaysIn D.Storage self.old disk.old) }
        ensures rest { D.told → KeepsRest (marks_range self.old.shape (other_region self.old.region)) (D.image disk.old) (D.image disk.new) }
        ensures size { D.size disk.new ≡ D.size disk.old }
        ensures cause { DiskFails D.Storage disk.old disk.new result }
    {
        // If the call fails, the other region may hold anything.
        self.broken = true;
        let building = Building::new(self.layout.shape(), marks);
        put_marks(disk, &self.layout, self.region.other(), &building.marks)?;
        self.building = Some(building);
        self.broken = false;
        Ok(())
    }

    /// Converts the next live id above the last one that was converted: reads its vector, and writes its code under the marks
    /// that are being built. Nothing is stable yet.
    pub fn convert_one<D: Disk>(&mut self, disk: &mut D, id: u32) -> Result<(), DiskFault>
        requires fits { Fits D.Storage self.old disk.old }
        requires whole { self.old.broken ≡ false }
        requires runs { is_some self.old.building ≡ true }
        requires next { IsNextLive (last_of self.old.building) self.old.ids (Some id) }
        ensures fits { Fits D.Storage self.new disk.new }
        ensures ok { OnOk result (self.new ≡ converted id self.old) }
        ensures err { OnErr result (self.new ≡ broken self.old) }
        ensures stands { Becomes D.Storage self.old same_kept disk.old disk.new }
        // At each moment a crash leaves what stands for what is kept, and selects the store's region.
        ensures outcomes { D.honest → (c : List ℕ) → D.may_leave disk.new c → StaysIn D.Storage self.old disk.old c }
        ensures frame { GivesNothing D.Storage disk.old disk.new (StaysIn D.Storage self.old disk.old) }
        ensures rest { D.told → KeepsRest (code_range self.old.shape (other_region self.old.region) (place_of_id id self.old.ids)) (D.image disk.old) (D.image disk.new) }
        ensures inside { place_of_id id self.old.ids < self.old.shape.capacity }
        // It reads this vector once.
        ensures reads { ReadsThese D.Storage ((vector_at self.old.shape (place_of_id id self.old.ids), self.old.shape.dims) ∷ []) disk.old disk.new result }
        ensures size { D.size disk.new ≡ D.size disk.old }
        ensures cause { DiskFails D.Storage disk.old disk.new result }
    {
        let place = self.place_of(id).unwrap();
        self.convert_place(disk, place, id)
    }

    // Converts the next live id, which lives in this place.
    fn convert_place<D: Disk>(&mut self, disk: &mut D, place: u32, id: u32) -> Result<(), DiskFault>
        requires fits { Fits D.Storage self.old disk.old }
        requires whole { self.old.broken ≡ false }
        requires runs { is_some self.old.building ≡ true }
        requires next { IsNextLive (last_of self.old.building) self.old.ids (Some id) }
        requires place { place < self.old.shape.capacity }
        requires lives { LivesAt id place self.old.ids }
        requires one { (q : ℕ) → LivesAt id q self.old.ids → q ≡ place }
        ensures fits { Fits D.Storage self.new disk.new }
        ensures ok { OnOk result (self.new ≡ converted id self.old) }
        ensures err { OnErr result (self.new ≡ broken self.old) }
        ensures stands { Becomes D.Storage self.old same_kept disk.old disk.new }
        ensures outcomes { D.honest → (c : List ℕ) → D.may_leave disk.new c → StaysIn D.Storage self.old disk.old c }
        ensures frame { GivesNothing D.Storage disk.old disk.new (StaysIn D.Storage self.old disk.old) }
        ensures rest { D.told → KeepsRest (code_range self.old.shape (other_region self.old.region) place) (D.image disk.old) (D.image disk.new) }
        ensures reads { ReadsThese D.Storage ((vector_at self.old.shape place, self.old.shape.dims) ∷ []) disk.old disk.new result }
        ensures size { D.size disk.new ≡ D.size disk.old }
        ensures cause { DiskFails D.Storage disk.old disk.new result }
    {
        // If a call fails, the other region may hold anything.
        self.broken = true;
        let mut buffer = [0; 256];
        let vector = &mut buffer[..usize::from(self.layout.shape().dims())];
        fetch(disk, &self.layout, place, vector)?;
        self.put_next(disk, place, vector)?;
        self.reach(id);
        self.broken = false;
        Ok(())
    }

    // An id is the last one that was converted.
    fn reach(&mut self, id: u32)
        ensures { self.new ≡ converted id self.old }
    {
        if let Some(building) = self.building.take() {
            self.building = Some(Building {
                marks: building.marks,
                last: Some(id),
            });
        }
    }

    /// Selects the region that was built, once it has the own code of each live id, and ends the building.
    ///
    /// A crash inside leaves the old marks or the new ones, each with the own code of each live id.
    pub fn switch<D: Disk>(&mut self, disk: &mut D) -> Result<(), DiskFault>
        requires fits { Fits D.Storage self.old disk.old }
        requires whole { self.old.broken ≡ false }
        requires runs { is_some self.old.building ≡ true }
        requires all { IsNextLive (last_of self.old.building) self.old.ids None }
        ensures fits { Fits D.Storage self.new disk.new }
        ensures ok { OnOk result (self.new ≡ switched self.old) }
        ensures err { OnErr result (self.new ≡ broken self.old) }
        ensures stands { OnOk result (Becomes D.Storage self.old (refitted self.old) disk.old disk.new) }
        ensures durable { OnOk result (IsStable D.Storage disk.new) }
        // A crash inside leaves what was kept before, or after.
        ensures frame { OnlyWrites D.Storage disk.old disk.new (BeforeOrAfter D.Storage self.old (refitted self.old) disk.old) }
        // All bytes stay but the one that selects: `A` or `B`.
        ensures rest { D.told → KeepsRest selection_range (D.image disk.old) (D.image disk.new) }
        ensures written { OnOk result (D.told → D.image disk.new ≡ slice_set (D.image disk.old) 16 (selection_of (other_region self.old.region))) }
        ensures size { D.size disk.new ≡ D.size disk.old }
        ensures cause { DiskFails D.Storage disk.old disk.new result }
    {
        // If the call fails, either region may be selected.
        self.broken = true;
        select(disk, self.region.other())?;
        self.settle();
        self.broken = false;
        Ok(())
    }

    // The marks that were being built are the selected ones.
    fn settle(&mut self)
        requires { is_some self.old.building ≡ true }
        ensures { self.new ≡ switched self.old }
    {
        let Some(building) = self.building.take() else {
            return;
        };
        self.marks = building.marks;
        self.region = self.region.other();
        swap(&mut self.pages, &mut self.other_pages);
        self.pages.rewind();
    }
}
