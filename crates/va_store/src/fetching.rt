// Vectors are read.
ghost use Rattle.std.specs.Prelude.{◌≡◌, ◌↔◌, ◌<◌, ◌≤◌, ◌++◌, [], ◌∷◌, List, ℕ, Option, Some, None, get_or, length, is_some, true, false, Err, OnOk, OnErr, IfErr, IsErrOf};
ghost use Rattle.va_core.specs.Places.{Item};
ghost use Rattle.va_disk.specs.Frames.{DiskFails, DiskFailsAs, OnlyReads, ReadsOnce};
ghost use Rattle.va_layout.specs.Layout.{vector_at};
ghost use Rattle.va_store.specs.Known.{Fits, Keeps, is_live_id, place_of_id};
ghost use Rattle.va_store.specs.Ids.{LivesAt};

use crate::{GetFault, Store};
use va_disk::{Disk, DiskFault};
use va_rows::fetch;

impl Store {
    /// Reads the vector of an id into `out`, of `dims` bytes. After a fault these may be anything.
    pub fn get<D: Disk>(&mut self, disk: &mut D, id: u32, out: &mut [u8]) -> Result<(), GetFault>
        requires fits { Fits D.Storage self.old disk.old }
        requires length { length out.old ≡ self.old.shape.dims }
        ensures fits { Fits D.Storage self.new disk.new }
        ensures unknown { is_live_id id self.old.ids ≡ false → (result ≡ Err GetFault.Unknown) × (out.new ≡ out.old) × (disk.new ≡ disk.old) }
        ensures ok { OnOk result (is_live_id id self.old.ids ≡ true) }
        ensures err { is_live_id id self.old.ids ≡ true → IfErr result (λ why. why ≡ GetFault.Disk) }
        ensures vector { OnOk result (Keeps D.Storage self.old disk.old (place_of_id id self.old.ids) (record { id = id; vector = out.new })) }
        ensures length { length out.new ≡ length out.old }
        ensures reads { ReadsOnce D.Storage disk.old disk.new (vector_at self.old.shape (place_of_id id self.old.ids)) self.old.shape.dims result }
        ensures store { self.new ≡ self.old }
        ensures frame { OnlyReads D.Storage disk.old disk.new }
        ensures cause { DiskFailsAs D.Storage GetFault.Disk disk.old disk.new result }
    {
        let Some(place) = self.place_of(id) else {
            return Err(GetFault::Unknown);
        };
        match self.fetch_live(disk, place, out) {
            Ok(()) => Ok(()),
            Err(_) => Err(GetFault::Disk),
        }
    }

    // Reads the vector of a place that is live. After a fault the bytes may be anything.
    fn fetch_live<D: Disk>(&self, disk: &mut D, place: u32, out: &mut [u8]) -> Result<(), DiskFault>
        requires fits { Fits D.Storage self.now disk.old }
        requires place { place < self.now.shape.capacity }
        requires live { is_some (get_or self.now.ids place None) ≡ true }
        requires length { length out.old ≡ self.now.shape.dims }
        ensures fits { Fits D.Storage self.now disk.new }
        ensures vector { OnOk result ((id : ℕ) → LivesAt id place self.now.ids → Keeps D.Storage self.now disk.old place (record { id = id; vector = out.new })) }
        ensures length { length out.new ≡ length out.old }
        ensures reads { ReadsOnce D.Storage disk.old disk.new (vector_at self.now.shape place) self.now.shape.dims result }
        ensures frame { OnlyReads D.Storage disk.old disk.new }
        ensures cause { DiskFails D.Storage disk.old disk.new result }
    {
        fetch(disk, &self.layout, place, out)
    }
}
