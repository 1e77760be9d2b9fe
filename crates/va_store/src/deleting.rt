// An id goes, and its place is empty.
ghost use Rattle.std.specs.Prelude.{◌≡◌, ◌<◌, ◌≤◌, List, ℕ, Option, Some, None, false, Err, OnOk, OnErr, IfOk, IfErr};
ghost use Rattle.va_core.specs.Places.{Item};
ghost use Rattle.va_disk.specs.Frames.{DiskFails, DiskFailsAs, IsStable, OnlyWrites};
ghost use Rattle.va_layout.specs.Fields.{gate_range};
ghost use Rattle.va_layout.specs.Parts.{KeepsRest};
ghost use Rattle.va_layout.specs.Stands.{with_place};
ghost use Rattle.va_store.specs.Known.{Becomes, BeforeOrAfter, Fits, broken, deleted, known_with, place_of_id};
ghost use Rattle.va_store.specs.Ids.{LivesAt};
ghost use Rattle.va_store.specs.Refusals.{delete_refusal};

use crate::{DeleteFault, Store};
use va_disk::{Disk, DiskFault};
use va_rows::shut;

impl Store {
    /// Empties the place in which an id lives, and answers the place.
    ///
    /// A crash inside leaves the file as it was before or as it is after.
    pub fn delete<D: Disk>(&mut self, disk: &mut D, id: u32) -> Result<u32, DeleteFault>
        requires fits { Fits D.Storage self.old disk.old }
        ensures fits { Fits D.Storage self.new disk.new }
        ensures shape { self.new.shape ≡ self.old.shape }
        // Refused by the first reason that holds, and then nothing has changed.
        ensures refused { (why : DeleteFault) → delete_refusal self.old id ≡ Some why → (result ≡ Err why) × (self.new ≡ self.old) × (disk.new ≡ disk.old) }
        ensures ok { IfOk result (λ p. (delete_refusal self.old id ≡ None) × (p ≡ place_of_id id self.old.ids) × (self.new ≡ known_with p None self.old)) }
        ensures err { delete_refusal self.old id ≡ None → IfErr result (λ why. (why ≡ DeleteFault.Disk) × (self.new ≡ broken self.old)) }
        ensures stands { OnOk result (Becomes D.Storage self.old (deleted self.old id) disk.old disk.new) }
        ensures durable { OnOk result (IsStable D.Storage disk.new) }
        // A crash inside leaves what was kept before, or after.
        ensures frame { OnlyWrites D.Storage disk.old disk.new (BeforeOrAfter D.Storage self.old (deleted self.old id) disk.old) }
        // All bytes stay but the place's gate.
        ensures rest { D.told → KeepsRest (gate_range (place_of_id id self.old.ids)) (D.image disk.old) (D.image disk.new) }
        ensures size { D.size disk.new ≡ D.size disk.old }
        ensures cause { DiskFailsAs D.Storage DeleteFault.Disk disk.old disk.new result }
    {
        if self.broken {
            return Err(DeleteFault::Broken);
        }
        let Some(place) = self.place_of(id) else {
            return Err(DeleteFault::Unknown);
        };
        match self.empty_place(disk, place, id) {
            Ok(()) => Ok(place),
            Err(_) => Err(DeleteFault::Disk),
        }
    }

    // Closes the place in which an id lives.
    fn empty_place<D: Disk>(&mut self, disk: &mut D, place: u32, id: u32) -> Result<(), DiskFault>
        requires fits { Fits D.Storage self.old disk.old }
        requires place { place < self.old.shape.capacity }
        requires lives { LivesAt id place self.old.ids }
        requires whole { self.old.broken ≡ false }
        ensures fits { Fits D.Storage self.new disk.new }
        ensures ok { OnOk result (self.new ≡ known_with place None self.old) }
        ensures err { OnErr result (self.new ≡ broken self.old) }
        ensures stands { OnOk result (Becomes D.Storage self.old (with_place place None) disk.old disk.new) }
        ensures durable { OnOk result (IsStable D.Storage disk.new) }
        ensures frame { OnlyWrites D.Storage disk.old disk.new (BeforeOrAfter D.Storage self.old (with_place place None) disk.old) }
        ensures rest { D.told → KeepsRest (gate_range place) (D.image disk.old) (D.image disk.new) }
        ensures size { D.size disk.new ≡ D.size disk.old }
        ensures cause { DiskFails D.Storage disk.old disk.new result }
    {
        // If the call fails, the file may hold either state.
        self.broken = true;
        shut(disk, &self.layout, place)?;
        self.index.clear(place, id);
        self.broken = false;
        Ok(())
    }
}
