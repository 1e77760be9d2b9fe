// The store: what it holds in memory, and the calls that read it.
ghost use Rattle.std.specs.Prelude.{◌≡◌, ◌↔◌, ◌⊎◌, ◌<◌, ◌≤◌, List, ℕ, Option, Some, None, Err, get_or, length, is_some, false, IfSome, IfOk, IfErr, OnOk, IsErrAnd, IsErrOf};
ghost use Rattle.va_disk.specs.Frames.{DiskFailsAs, IsStable, OnlyReads, OnlyWrites};
ghost use Rattle.va_layout.specs.Parts.{KeepsRest};
ghost use Rattle.va_layout.specs.Stands.{IsBlank, Kept, Opens, Stands};
ghost use Rattle.va_store.specs.Empty.{IsMade, empty_kept, layout_range};
ghost use Rattle.va_core.specs.Above.{live_above};
ghost use Rattle.va_store.specs.Known as known;
ghost use Rattle.va_store.specs.Known.{Fits, IsOf, first_free, is_live_id, place_of_id};
ghost use Rattle.va_store.specs.Image.{IsFault, front_of};
ghost use Rattle.va_store.specs.Openings.{Answers, IsReadFrom, IsTooShort, ReadsUpTo, Refuses};
ghost use Rattle.va_store.specs.Ids.{IsNextLive, LivesAt, NextBegins, live_count};

#[cfg(test)]
mod tests;

use crate::building::Building;
use crate::creating::write_empty;
use crate::index::Index;
use crate::opening::{Opened, read_store};
use crate::{CreateFault, OpenFault};
use std::alloc::Global;
use std::marker::Model;
use va_cells::Pages;
use va_core::{Memory, Shape};
use va_disk::Disk;
use va_layout::{Layout, Region};
use va_marks::Marks;

/// A map from ids to vectors in a file, by its shape, the id of each place that is live, and the selected region with its
/// marks. It keeps no disk: each call is handed the one that it fits. Of the packed codes it keeps none.
///
/// A writing call that fails leaves the store broken, since its file may hold either state. It is then opened
/// anew.
#[derive(Drop)]
pub struct Store {
    pub(crate) layout: Layout,
    pub(crate) index: Index,
    pub(crate) broken: bool,
    pub(crate) region: Region,
    pub(crate) marks: Marks,
    // The scans of the codes, in the selected region and in the other one.
    pub(crate) pages: Pages,
    pub(crate) other_pages: Pages,
    // The first live place whose code a scan of a shelf found changed.
    pub(crate) changed: Option<u32>,
    // The marks that are being built in the other region.
    pub(crate) building: Option<Building>,
}

impl Model for Store {
    ghost use Rattle.va_store.specs.Known as known;

    ghost Value = { known.Known };

    ghost view = { λ store. record { shape = store.layout; ids = store.index; broken = store.broken; region = store.region; marks = store.marks; scan = store.pages; changed = store.changed; building = store.building } };

    ghost invariant = { λ store. known.IsKnown (record { shape = store.layout; ids = store.index; broken = store.broken; region = store.region; marks = store.marks; scan = store.pages; changed = store.changed; building = store.building }) store.other_pages };
}

impl Store {
    /// Writes the file of a store that holds nothing over a blank one, and makes it stable.
    ///
    /// A crash inside leaves a blank file or the whole of the empty store. Memory is taken before the disk is called.
    pub fn create<D: Disk>(alloc: Global, disk: &mut D, shape: Shape) -> Result<Store, CreateFault>
        requires blank { D.told → IsBlank (D.image disk.old) }
        ensures ok { IfOk result (λ store. store ≡ known.empty shape) }
        ensures fits { IfOk result (λ store. Fits D.Storage store disk.new) }
        ensures stands { OnOk result (D.told → Stands (empty_kept shape) (D.image disk.new)) }
        ensures durable { OnOk result (IsStable D.Storage disk.new) }
        ensures memory { IsErrOf result CreateFault.Memory → disk.new ≡ disk.old }
        // A crash inside leaves a blank file or the empty store, and each byte behind the layout as it was.
        ensures frame { OnlyWrites D.Storage disk.old disk.new (λ c. D.told → IsMade shape (D.image disk.old) c) }
        ensures rest { D.told → KeepsRest (layout_range shape) (D.image disk.old) (D.image disk.new) }
        ensures no_shorter { D.size disk.old ≤ D.size disk.new }
        ensures cause { DiskFailsAs D.Storage CreateFault.Disk disk.old disk.new result }
    {
        let Ok(store) = Store::empty(alloc, shape) else {
            return Err(CreateFault::Memory);
        };
        match write_empty(disk, &store.layout, &store.marks) {
            Ok(()) => Ok(store),
            Err(_) => Err(CreateFault::Disk),
        }
    }

    // The store of an empty file. All memory is taken here.
    fn empty(alloc: Global, shape: Shape) -> Result<Store, Memory>
        ensures { IfOk result (λ store. store ≡ known.empty shape) }
    {
        let index = Index::new(alloc, shape.capacity())?;
        let marks = Marks::equal(alloc, shape)?;
        let layout = Layout::of(shape);
        let pages = Pages::new(alloc, &layout, Region::A)?;
        let other_pages = Pages::new(alloc, &layout, Region::B)?;
        Ok(Store {
            layout,
            index,
            broken: false,
            region: Region::A,
            marks,
            pages,
            other_pages,
            changed: None,
            building: None,
        })
    }

    /// Reads the store that a file keeps. It begins with a sync, and reads nothing of the vectors.
    ///
    /// A file that stands for a store is refused only where a call failed or memory was wanting.
    #[tactic(auto, using(crate::proofs::Refused::answers_blank, crate::proofs::Refused::blank_answer, crate::proofs::Refused::blank_faults))]
    pub fn open<D: Disk>(alloc: Global, disk: &mut D) -> Result<Store, OpenFault>
        ensures fits { IfOk result (λ store. Fits D.Storage store disk.new) }
        ensures whole { IfOk result (λ store. store.broken ≡ false) }
        ensures unchanged { IfOk result (λ store. store.changed ≡ None) }
        ensures idle { IfOk result (λ store. store.building ≡ None) }
        ensures read { IfOk result (λ store. D.told → IsReadFrom (D.image disk.old) store) }
        // Refused for the first fault of the image and for no other, unless a call failed or memory was wanting.
        ensures opens { D.told → OnOk result ((why : OpenFault) → IsFault (D.image disk.old) why → ⊥) }
        ensures refused { D.told → IfErr result (Answers (D.image disk.old)) }
        ensures refuses { D.told → (why : OpenFault) → IsFault (D.image disk.old) why → IsErrAnd result (Refuses (λ other. other ≡ why)) }
        ensures too_short { IfErr result (IsTooShort (D.size disk.old)) }
        ensures blank { D.told → IfErr result (λ why. why ≡ OpenFault.Blank → IsBlank (D.image disk.old)) }
        ensures refuses_blank { D.told → IsBlank (D.image disk.old) → IsErrAnd result (λ why. (why ≡ OpenFault.Disk) ⊎ (why ≡ OpenFault.Blank)) }
        ensures faultless { D.told → (kept : Kept) → Opens kept (D.image disk.old) → (why : OpenFault) → IsFault (D.image disk.old) why → ⊥ }
        ensures stands { IfOk result (λ store. D.told → (kept : Kept) → Opens kept (D.image disk.old) → IsOf store kept) }
        ensures durable { (IsErrOf result OpenFault.Disk → ⊥) → IsStable D.Storage disk.new }
        ensures frame { OnlyReads D.Storage disk.old disk.new }
        ensures reads { D.told → ReadsUpTo (front_of (D.image disk.old)) (D.reads disk.old) (D.reads disk.new) }
        ensures cause { DiskFailsAs D.Storage OpenFault.Disk disk.old disk.new result }
    {
        let Opened {
            layout,
            index,
            region,
            marks,
            pages,
            other_pages,
        } = read_store(alloc, disk)?;
        Ok(Store {
            layout,
            index,
            broken: false,
            region,
            marks,
            pages,
            other_pages,
            changed: None,
            building: None,
        })
    }

    /// The shape.
    pub fn shape(&self) -> Shape
        ensures { result ≡ self.now.shape }
    {
        self.layout.shape()
    }

    /// The marks of the selected region.
    pub fn marks(&self) -> &Marks
        ensures { result.now ≡ self.now.marks }
    {
        &self.marks
    }

    /// Whether a writing call has failed.
    pub fn broken(&self) -> bool
        ensures { result ≡ self.now.broken }
    {
        self.broken
    }

    /// How many ids are live.
    pub fn live(&self) -> u32
        ensures { result ≡ live_count self.now.ids }
    {
        self.index.live()
    }

    /// The place in which an id lives.
    pub fn place_of(&self, id: u32) -> Option<u32>
        ensures lives { (place : ℕ) → (result ≡ Some place) ↔ LivesAt id place self.now.ids }
        ensures live { is_some result ≡ is_live_id id self.now.ids }
        ensures place { IfSome result (λ p. (p ≡ place_of_id id self.now.ids) × (p < self.now.shape.capacity)) }
    {
        self.index.place_of(id)
    }

    /// The id that lives in a place.
    pub fn id_at(&self, place: u32) -> Option<u32>
        requires { place < self.now.shape.capacity }
        ensures { result ≡ get_or self.now.ids place None }
    {
        self.index.id_at(place)
    }

    /// The least live id above `after`, and the least of all after none.
    pub fn next_live(&self, after: Option<u32>) -> Option<u32>
        ensures { IsNextLive after self.now.ids result }
    {
        self.index.next_live(after)
    }

    /// How many ids above `after` are live, and how many are live at all after none.
    pub fn live_above(&self, after: Option<u32>) -> u32
        ensures count { result ≡ length (live_above after self.now.ids) }
        // They are the next one, and those above it.
        ensures next { NextBegins self.now.ids }
    {
        self.index.lists_once();
        self.index.live_above(after)
    }

    // The least place that is neither live nor held.
    pub(crate) fn first_free(&mut self, held: &[u8]) -> Option<u32>
        requires held { length held.now ≡ self.old.shape.capacity }
        ensures some { IfSome result (λ p. (p ≡ first_free self.old.ids held.now) × (p < self.old.shape.capacity) × (get_or self.old.ids p None ≡ None) × (get_or held.now p 0 ≡ 0)) }
        ensures none { result ≡ None → first_free self.old.ids held.now ≡ length self.old.ids }
        ensures store { self.new ≡ self.old }
    {
        self.index.first_free(held)
    }
}
