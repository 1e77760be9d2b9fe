// A vector comes to live in a place.
ghost use Rattle.std.specs.Prelude.{◌≡◌, ◌<◌, ◌≤◌, ◌++◌, List, ℕ, Option, Some, None, get_or, length, false, Err, OnOk, OnErr, IfOk, IfErr};
ghost use Rattle.va_core.specs.Places.{Item};
ghost use Rattle.va_disk.specs.Frames.{DiskFails, DiskFailsAs, IsStable, OnlyWrites};
ghost use Rattle.va_layout.specs.Fields.{HasCode, place_ranges};
ghost use Rattle.va_layout.specs.Layout.{other_region};
ghost use Rattle.va_layout.specs.Parts.{KeepsRest};
ghost use Rattle.va_layout.specs.Stands.{with_place, Building};
ghost use Rattle.va_store.specs.Builds.{KeepsOther};
ghost use Rattle.va_store.specs.Known.{Becomes, BeforeOrAfter, Fits, HeldStay, broken, first_free, inserted, known_with};
ghost use Rattle.va_store.specs.Ids.{LivesNowhere};
ghost use Rattle.va_store.specs.Refusals.{insert_refusal};

use crate::{InsertFault, Store};
use va_disk::{Disk, DiskFault};
use va_rows::open;

impl Store {
    /// Stores a vector in the least place that is neither live nor held, and answers the place. A place is held
    /// where its number in `held` is above 0.
    ///
    /// A crash inside leaves the file as it was before or as it is after.
    pub fn insert<D: Disk>(
        &mut self,
        disk: &mut D,
        id: u32,
        vector: &[u8],
        held: &[u8],
    ) -> Result<u32, InsertFault>
        requires fits { Fits D.Storage self.old disk.old }
        requires held { length held.now ≡ self.old.shape.capacity }
        ensures fits { Fits D.Storage self.new disk.new }
        ensures shape { self.new.shape ≡ self.old.shape }
        // Refused by the first reason that holds, and then nothing has changed.
        ensures refused { (why : InsertFault) → insert_refusal self.old id vector.now held.now ≡ Some why → (result ≡ Err why) × (self.new ≡ self.old) × (disk.new ≡ disk.old) }
        ensures ok { IfOk result (λ p. (insert_refusal self.old id vector.now held.now ≡ None) × (p ≡ first_free self.old.ids held.now) × (self.new ≡ known_with p (Some id) self.old)) }
        ensures err { insert_refusal self.old id vector.now held.now ≡ None → IfErr result (λ why. (why ≡ InsertFault.Disk) × (self.new ≡ broken self.old)) }
        ensures stands { OnOk result (Becomes D.Storage self.old (inserted self.old id vector.now held.now) disk.old disk.new) }
        ensures durable { OnOk result (IsStable D.Storage disk.new) }
        // A crash inside leaves what was kept before, or after.
        ensures frame { OnlyWrites D.Storage disk.old disk.new (BeforeOrAfter D.Storage self.old (inserted self.old id vector.now held.now) disk.old) }
        // All bytes stay but those of the place: its slot, its vector and its codes. And the place isn't held.
        ensures rest { D.told → KeepsRest (place_ranges self.old.shape (first_free self.old.ids held.now)) (D.image disk.old) (D.image disk.new) }
        ensures unheld { IfOk result (λ p. get_or held.now p 0 ≡ 0) }
        // While other marks are being built the place has its own code under them too, and else the other region stays as it was.
        ensures next { IfOk result (λ p. D.told → (b : Building) → self.old.building ≡ Some b → HasCode self.old.shape (other_region self.old.region) b.marks p (record { id = id; vector = vector.now }) (D.image disk.new)) }
        ensures aside { self.old.building ≡ None → D.told → KeepsOther self.old.shape self.old.region (first_free self.old.ids held.now) (D.image disk.old) (D.image disk.new) }
        ensures held { D.told → HeldStay self.old.shape held.now (D.image disk.old) (D.image disk.new) }
        ensures size { D.size disk.new ≡ D.size disk.old }
        ensures cause { DiskFailsAs D.Storage InsertFault.Disk disk.old disk.new result }
    {
        if self.broken {
            return Err(InsertFault::Broken);
        }
        if vector.len() != usize::from(self.layout.shape().dims()) {
            return Err(InsertFault::Length);
        }
        if let Some(place) = self.place_of(id) {
            return Err(InsertFault::Duplicate(place));
        }
        let Some(place) = self.first_free(held) else {
            return Err(InsertFault::Full);
        };
        match self.fill_place(disk, place, id, vector) {
            Ok(()) => Ok(place),
            Err(_) => Err(InsertFault::Disk),
        }
    }

    // Lays a vector with its code in a place that is empty, and opens it.
    fn fill_place<D: Disk>(
        &mut self,
        disk: &mut D,
        place: u32,
        id: u32,
        vector: &[u8],
    ) -> Result<(), DiskFault>
        requires fits { Fits D.Storage self.old disk.old }
        requires place { place < self.old.shape.capacity }
        requires empty { get_or self.old.ids place None ≡ None }
        requires new { LivesNowhere id self.old.ids }
        requires length { length vector.now ≡ self.old.shape.dims }
        requires whole { self.old.broken ≡ false }
        ensures fits { Fits D.Storage self.new disk.new }
        ensures ok { OnOk result (self.new ≡ known_with place (Some id) self.old) }
        ensures err { OnErr result (self.new ≡ broken self.old) }
        ensures stands { OnOk result (Becomes D.Storage self.old (with_place place (Some (record { id = id; vector = vector.now }))) disk.old disk.new) }
        ensures durable { OnOk result (IsStable D.Storage disk.new) }
        ensures frame { OnlyWrites D.Storage disk.old disk.new (BeforeOrAfter D.Storage self.old (with_place place (Some (record { id = id; vector = vector.now }))) disk.old) }
        ensures rest { D.told → KeepsRest (place_ranges self.old.shape place) (D.image disk.old) (D.image disk.new) }
        ensures next { OnOk result (D.told → (b : Building) → self.old.building ≡ Some b → HasCode self.old.shape (other_region self.old.region) b.marks place (record { id = id; vector = vector.now }) (D.image disk.new)) }
        ensures aside { self.old.building ≡ None → D.told → KeepsOther self.old.shape self.old.region place (D.image disk.old) (D.image disk.new) }
        ensures size { D.size disk.new ≡ D.size disk.old }
        ensures cause { DiskFails D.Storage disk.old disk.new result }
    {
        // Whichever call fails, the file may hold either state.
        self.broken = true;
        self.lay_place(disk, place, id, vector)?;
        open(disk, &self.layout, place)?;
        self.index.fill(place, id);
        self.broken = false;
        Ok(())
    }
}
