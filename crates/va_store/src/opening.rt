// What a file keeps is read: its shape, and its ids by place.
ghost use Rattle.std.specs.Prelude.{◌≡◌, ◌⊎◌, ◌+◌, ◌<◌, ◌≤◌, ◌^◌, List, ℕ, Option, None, Some, length, get_or, map, slice_set, IfOk, IfErr, OnOk, IsErrOf};
ghost use Rattle.va_disk.specs.Frames.{DiskFailsAs, IsStable, OnlyReads};
ghost use Rattle.va_cells.specs.Scans.{from_start};
ghost use Rattle.va_core.specs.Marks.{AreValid, HasShape};
ghost use Rattle.va_layout.specs.Fields.{head_in, marks_in};
ghost use Rattle.va_layout.specs.Header.{header_of};
ghost use Rattle.va_layout.specs.Layout.{layout_len, vector_at};
ghost use Rattle.va_layout.specs.Stands.{SaysShape, selected_in};
ghost use Rattle.va_rows.specs.Slots.{ReadsSlots};
ghost use Rattle.va_store.specs.Image.{IsCodeFault, IsPlaceFault, IsRegionFault, front_of, head_fault, ids_in, repeat_fault};
ghost use Rattle.va_store.specs.Known.{AreNamed, IsKnown};
ghost use Rattle.va_store.specs.Openings.{Answers, HoldsPlaces, IsReadFrom, IsTooShort, ReadsUpTo, Refuses, known_of, slot_id};

use crate::OpenFault;
use crate::index::Index;
use crate::scanning::first_unnamed;
use std::alloc::Global;
use va_cells::{Pages, read_marks};
use va_core::Memory;
use va_disk::Disk;
use va_layout::{Header, Layout, Region};
use va_marks::Marks;
use va_rows::{Slot, read_slots};

/// The bytes of a header.
const HEADER: u64 = 32;

const CLOSED: Slot = Slot { live: false, id: 0 };

/// What was read of a file.
#[derive(Drop)]
pub(crate) struct Opened {
    pub(crate) layout: Layout,
    pub(crate) index: Index,
    pub(crate) region: Region,
    pub(crate) marks: Marks,
    pub(crate) pages: Pages,
    pub(crate) other_pages: Pages,
}

// What a header says of a file that is long enough.
#[derive(Drop)]
struct Headed {
    layout: Layout,
    region: Region,
}

/// Reads the shape, the marks and the ids that a file keeps, and tests its codes. It begins with a sync, and reads nothing of
/// the vectors.
pub(crate) fn read_store<D: Disk>(alloc: Global, disk: &mut D) -> Result<Opened, OpenFault>
    ensures opened { IfOk result (λ opened. D.told → IsReadFrom (D.image disk.old) (known_of opened)) }
    ensures whole { IfOk result (λ opened. IsKnown (known_of opened) opened.other_pages) }
    ensures fits { IfOk result (λ opened. layout_len opened.layout ≤ D.size disk.new) }
    ensures refused { D.told → IfErr result (Answers (D.image disk.old)) }
    ensures too_short { IfErr result (IsTooShort (D.size disk.old)) }
    ensures durable { (IsErrOf result OpenFault.Disk → ⊥) → IsStable D.Storage disk.new }
    ensures frame { OnlyReads D.Storage disk.old disk.new }
    ensures reads { D.told → ReadsUpTo (front_of (D.image disk.old)) (D.reads disk.old) (D.reads disk.new) }
    ensures cause { DiskFailsAs D.Storage OpenFault.Disk disk.old disk.new result }
{
    disk.sync()?;
    read_parts(alloc, disk)
}

// Reads a file of which a crash leaves what a read gives.
fn read_parts<D: Disk>(alloc: Global, disk: &mut D) -> Result<Opened, OpenFault>
    ensures opened { IfOk result (λ opened. D.told → IsReadFrom (D.image disk.old) (known_of opened)) }
    ensures whole { IfOk result (λ opened. IsKnown (known_of opened) opened.other_pages) }
    ensures fits { IfOk result (λ opened. layout_len opened.layout ≤ D.size disk.new) }
    ensures refused { D.told → IfErr result (Answers (D.image disk.old)) }
    ensures too_short { IfErr result (IsTooShort (D.size disk.old)) }
    ensures reads { D.told → ReadsUpTo (front_of (D.image disk.old)) (D.reads disk.old) (D.reads disk.new) }
    ensures frame { OnlyReads D.Storage disk.old disk.new }
    ensures cause { DiskFailsAs D.Storage OpenFault.Disk disk.old disk.new result }
{
    let head = read_layout(disk)?;
    read_behind(alloc, disk, head)
}

// Reads what stands behind the header of a file that is long enough.
fn read_behind<D: Disk>(alloc: Global, disk: &mut D, head: Headed) -> Result<Opened, OpenFault>
    requires fits { layout_len head.layout ≤ D.size disk.old }
    ensures head { IfOk result (λ opened. (opened.layout ≡ head.layout) × (opened.region ≡ head.region)) }
    ensures whole { IfOk result (λ opened. IsKnown (known_of opened) opened.other_pages) }
    ensures marks { IfOk result (λ opened. D.told → opened.marks ≡ marks_in head.layout head.region (D.image disk.old)) }
    ensures places { IfOk result (λ opened. D.told → HoldsPlaces head.layout head.region opened.marks (D.image disk.old) opened.index) }
    ensures refused { IfErr result (Refuses (λ why. D.told → IsRegionFault head.layout head.region (D.image disk.old) why)) }
    ensures too_short { (size : ℕ) → IfErr result (IsTooShort size) }
    ensures reads { D.told → ReadsUpTo (vector_at head.layout 0) (D.reads disk.old) (D.reads disk.new) }
    ensures frame { OnlyReads D.Storage disk.old disk.new }
    ensures cause { DiskFailsAs D.Storage OpenFault.Disk disk.old disk.new result }
{
    let marks = read_marks(alloc, disk, &head.layout, head.region)?;
    read_places(alloc, disk, head, marks)
}

// Reads the ids of the places, and tests their codes.
fn read_places<D: Disk>(
    alloc: Global,
    disk: &mut D,
    head: Headed,
    marks: Marks,
) -> Result<Opened, OpenFault>
    requires fits { layout_len head.layout ≤ D.size disk.old }
    requires fit { HasShape head.layout marks }
    requires valid { AreValid marks }
    ensures head { IfOk result (λ opened. (opened.layout ≡ head.layout) × (opened.region ≡ head.region) × (opened.marks ≡ marks)) }
    ensures whole { IfOk result (λ opened. IsKnown (known_of opened) opened.other_pages) }
    ensures places { IfOk result (λ opened. D.told → HoldsPlaces head.layout head.region marks (D.image disk.old) opened.index) }
    ensures refused { IfErr result (Refuses (λ why. D.told → IsPlaceFault head.layout head.region marks (ids_in head.layout.capacity (D.image disk.old)) (D.image disk.old) why)) }
    ensures too_short { (size : ℕ) → IfErr result (IsTooShort size) }
    ensures reads { D.told → ReadsUpTo (vector_at head.layout 0) (D.reads disk.old) (D.reads disk.new) }
    ensures frame { OnlyReads D.Storage disk.old disk.new }
    ensures cause { DiskFailsAs D.Storage OpenFault.Disk disk.old disk.new result }
{
    let Headed { layout, region } = head;
    let index = read_index(alloc, disk, &layout)?;
    let pages = read_codes(alloc, disk, &layout, region, &marks, &index)?;
    let other_pages = Pages::new(alloc, &layout, region.other())?;
    Ok(Opened {
        layout,
        index,
        region,
        marks,
        pages,
        other_pages,
    })
}

// Tests the codes of the live places by one scan, and gives the scan, which stands at the beginning again.
fn read_codes<D: Disk>(
    alloc: Global,
    disk: &mut D,
    layout: &Layout,
    region: Region,
    marks: &Marks,
    index: &Index,
) -> Result<Pages, OpenFault>
    requires fits { layout_len layout.now ≤ D.size disk.old }
    requires fit { HasShape layout.now marks.now }
    requires ids { length index.now ≡ layout.now.capacity }
    ensures pages { IfOk result (λ pages. pages ≡ from_start layout.now region) }
    ensures named { OnOk result (D.told → AreNamed layout.now region marks.now index.now (D.image disk.old)) }
    ensures refused { IfErr result (Refuses (λ why. D.told → IsCodeFault layout.now region marks.now index.now (D.image disk.old) why)) }
    ensures too_short { (size : ℕ) → IfErr result (IsTooShort size) }
    ensures reads { D.told → ReadsUpTo (vector_at layout.now 0) (D.reads disk.old) (D.reads disk.new) }
    ensures frame { OnlyReads D.Storage disk.old disk.new }
    ensures cause { DiskFailsAs D.Storage OpenFault.Disk disk.old disk.new result }
{
    let mut pages = Pages::new(alloc, layout, region)?;
    match first_unnamed(disk, &mut pages, layout.shape(), marks, index)? {
        Some(place) => Err(OpenFault::Code(place)),
        None => {
            pages.rewind();
            Ok(pages)
        }
    }
}

fn read_layout<D: Disk>(disk: &mut D) -> Result<Headed, OpenFault>
    ensures shape { IfOk result (λ head. D.told → SaysShape head.layout (D.image disk.old)) }
    ensures region { IfOk result (λ head. D.told → head.region ≡ selected_in (D.image disk.old)) }
    ensures fits { IfOk result (λ head. layout_len head.layout ≤ D.size disk.new) }
    ensures refused { IfErr result (λ why. (why ≡ OpenFault.Disk) ⊎ (D.told → head_fault (D.image disk.old) ≡ Some why)) }
    ensures too_short { IfErr result (IsTooShort (D.size disk.old)) }
    ensures reads { D.told → ReadsUpTo 32 (D.reads disk.old) (D.reads disk.new) }
    ensures frame { OnlyReads D.Storage disk.old disk.new }
    ensures cause { DiskFailsAs D.Storage OpenFault.Disk disk.old disk.new result }
{
    let header = read_header(disk)?;
    let layout = Layout::of(header.shape);
    let need = layout.len();
    let have = disk.len();
    if have < need {
        return Err(OpenFault::Length { need, have });
    }
    Ok(Headed {
        layout,
        region: header.region,
    })
}

fn read_header<D: Disk>(disk: &mut D) -> Result<Header, OpenFault>
    ensures header { IfOk result (λ header. D.told → header_of (head_in (D.image disk.old)) ≡ Ok header) }
    ensures refused { IfErr result (λ why. (why ≡ OpenFault.Disk) ⊎ (D.told → head_fault (D.image disk.old) ≡ Some why)) }
    ensures too_short { IfErr result (IsTooShort (D.size disk.old)) }
    ensures reads { D.told → ReadsUpTo 32 (D.reads disk.old) (D.reads disk.new) }
    ensures frame { OnlyReads D.Storage disk.old disk.new }
    ensures cause { DiskFailsAs D.Storage OpenFault.Disk disk.old disk.new result }
{
    if disk.len() < HEADER {
        return Err(OpenFault::Blank);
    }
    let mut bytes = [0; 32];
    disk.read(0, &mut bytes)?;
    let header = Header::read(&bytes)?;
    Ok(header)
}

fn read_index<D: Disk>(alloc: Global, disk: &mut D, layout: &Layout) -> Result<Index, OpenFault>
    requires fits { layout_len layout.now ≤ D.size disk.old }
    ensures ids { IfOk result (λ index. D.told → (repeat_fault (ids_in layout.now.capacity (D.image disk.old)) ≡ None) × (index ≡ ids_in layout.now.capacity (D.image disk.old))) }
    ensures length { IfOk result (λ index. length index ≡ layout.now.capacity) }
    ensures refused { IfErr result (Refuses (λ why. D.told → repeat_fault (ids_in layout.now.capacity (D.image disk.old)) ≡ Some why)) }
    ensures too_short { (size : ℕ) → IfErr result (IsTooShort size) }
    ensures reads { D.told → ReadsSlots layout.now.capacity (D.reads disk.old) (D.reads disk.new) }
    ensures frame { OnlyReads D.Storage disk.old disk.new }
    ensures cause { DiskFailsAs D.Storage OpenFault.Disk disk.old disk.new result }
{
    let capacity = layout.shape().capacity();
    let Ok(mut slots) = vec![in alloc; CLOSED; capacity as usize] else {
        return Err(OpenFault::Memory);
    };
    read_slots(disk, layout, &mut slots)?;
    index_of(alloc, &slots)
}

// The ids of some slots, or the first that stands twice.
fn index_of(alloc: Global, slots: &[Slot]) -> Result<Index, OpenFault>
    requires { length slots.now < 2 ^ 32 }
    ensures ids { IfOk result (λ index. (repeat_fault (map slot_id slots.now) ≡ None) × (index ≡ map slot_id slots.now)) }
    ensures refused { IfErr result (λ why. (why ≡ OpenFault.Memory) ⊎ (repeat_fault (map slot_id slots.now) ≡ Some why)) }
    ensures too_short { (size : ℕ) → IfErr result (IsTooShort size) }
    ensures calls { IsErrOf result OpenFault.Disk → ⊥ }
{
    let ids = ids_of(alloc, slots)?;
    Index::of(alloc, ids)
}

fn ids_of(alloc: Global, slots: &[Slot]) -> Result<Vec<Option<u32>>, Memory>
    ensures { IfOk result (λ ids. ids.items ≡ map slot_id slots.now) }
{
    let Ok(mut ids) = Vec::with_capacity(alloc, slots.len()) else {
        return Err(Memory);
    };
    for slot in slots {
        let id = if slot.live { Some(slot.id) } else { None };
        let Ok(()) = ids.push(id) else {
            return Err(Memory);
        };
    }
    Ok(ids)
}
