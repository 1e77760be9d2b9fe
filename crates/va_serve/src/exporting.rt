// The export of the store: a CSV record for each live id, ascending.
ghost use Rattle.std.specs.Prelude.{◌≡◌, ◌∷◌, [], IfErr, List, ℕ, None, OnOk, length, true};
ghost use Rattle.va_core.specs.Above.{live_above};
ghost use Rattle.va_disk.specs.Frames.{OnlyGives};
ghost use Rattle.va_disk.specs.Told.{Gives, GivesPart};
ghost use Rattle.va_model.specs.Exporting.{GivesRows, ReadsAndGives, exported_ids};
ghost use Rattle.va_serve.specs.ExportRun.{RanExport};
ghost use Rattle.va_serve.specs.Exporting.{
  ExportCaused,
  ExportLasts,
  Exports,
  GivesFirstRows,
  OfEachKept,
  RowsTo,
  StopsBy,
};
ghost use Rattle.va_serve.specs.Failing.{CountsStay, Later, Rises};
ghost use Rattle.va_serve.specs.Session.{FitsSession, over_store, sitting_in};
ghost use Rattle.va_store.specs.Ids.{NextBegins};
ghost use Rattle.va_store.specs.Known.{is_live_id};

use crate::Status;
use crate::opening::open;
use crate::workspace::Workspace;
use std::alloc::Global;
use va_csv::row;
use va_disk::{Desk, give_all};
use va_store::Store;

/// Opens the store of the desk, and exports it.
pub fn run_export<D: Desk>(alloc: Global, desk: &mut D) -> Status
    ensures { RanExport D.Storage desk.old desk.new result }
{
    match open(alloc, desk) {
        Ok(mut work) => export(&mut work, alloc, desk),
        Err(status) => status,
    }
}

/// Gives the record of each live id, ascending, and nothing where there is no store. Only what is given changes.
pub fn export<D: Desk>(work: &mut Option<Workspace>, alloc: Global, desk: &mut D) -> Status
    requires fits { FitsSession D.Storage (sitting_in work.old) desk.old }
    // On every image that opens: the records that were given, and the vectors that were read for them.
    ensures rows { OfEachKept D.Storage (sitting_in work.old).store desk.old
        (λ kept. RowsTo D.Storage result kept (exported_ids kept) desk.old desk.new) }
    // So in each state that is held, and a crash leaves what stands for it.
    ensures exported { Exports D.Storage result (sitting_in work.old) desk.old desk.new }
    ensures moments { ExportLasts D.Storage (sitting_in work.old) desk.old desk.new }
    ensures frame { ReadsAndGives D.Storage desk.old desk.new
        (GivesFirstRows D.Storage (sitting_in work.old).store exported_ids desk.old) }
    ensures nothing { work.old ≡ None → (result ≡ Status.Done) × (desk.new ≡ desk.old) }
    // A fault only where the count of what failed rose, and no fault is passed over.
    ensures cause { ExportCaused D.Storage result desk.old desk.new }
    ensures later { Later D.Storage desk.old desk.new }
    ensures sitting { sitting_in work.new ≡ sitting_in work.old }
{
    match work {
        None => Status::Done,
        Some(work) => export_all(&mut work.store, &mut work.vector, alloc, desk),
    }
}

// Gives the records of a store.
fn export_all<D: Desk>(store: &mut Store, room: &mut [u8], alloc: Global, desk: &mut D) -> Status
    requires fits { FitsSession D.Storage (over_store store.old) desk.old }
    requires room { length room.old ≡ 256 }
    ensures rows { OfEachKept D.Storage (Some store.old) desk.old
        (λ kept. RowsTo D.Storage result kept (live_above None store.old.ids) desk.old desk.new) }
    ensures frame { ReadsAndGives D.Storage desk.old desk.new
        (GivesFirstRows D.Storage (Some store.old) (λ kept. live_above None store.old.ids) desk.old) }
    ensures cause { ExportCaused D.Storage result desk.old desk.new }
    ensures later { Later D.Storage desk.old desk.new }
    ensures store { store.new ≡ store.old }
{
    let dims = usize::from(store.shape().dims());
    let live = store.live_above(None);
    match export_rows(store, &mut room[..dims], alloc, desk, live) {
        Ok(()) => Status::Done,
        Err(status) => status,
    }
}

// Gives the records of so many live ids, which are all.
fn export_rows<D: Desk>(
    store: &mut Store,
    vector: &mut [u8],
    alloc: Global,
    desk: &mut D,
    live: u32,
) -> Result<(), Status>
    requires fits { FitsSession D.Storage (over_store store.old) desk.old }
    requires length { length vector.old ≡ store.old.shape.dims }
    requires live { live ≡ length (live_above None store.old.ids) }
    requires law { NextBegins store.old.ids }
    ensures rows { OnOk result (OfEachKept D.Storage (Some store.old) desk.old
        (λ kept. GivesRows D.Storage kept (live_above None store.old.ids) desk.old desk.new)) }
    ensures stopped { IfErr result (λ status. OfEachKept D.Storage (Some store.old) desk.old
        (λ kept. StopsBy D.Storage status kept (live_above None store.old.ids) desk.old desk.new)) }
    ensures frame { ReadsAndGives D.Storage desk.old desk.new
        (GivesFirstRows D.Storage (Some store.old) (λ kept. live_above None store.old.ids) desk.old) }
    ensures stayed { OnOk result (CountsStay D.Storage desk.old desk.new) }
    ensures cause { IfErr result (λ status. ExportCaused D.Storage status desk.old desk.new) }
    ensures later { Later D.Storage desk.old desk.new }
    ensures store { store.new ≡ store.old }
{
    let mut after = None;
    for _ in 0..live {
        // As many are left as the loop has turns, so there is a next one.
        let id = store.next_live(after).unwrap();
        export_row(store, vector, alloc, desk, id)?;
        after = Some(id);
    }
    Ok(())
}

// Reads the vector of an id that is live, and gives its record.
fn export_row<D: Desk>(
    store: &mut Store,
    vector: &mut [u8],
    alloc: Global,
    desk: &mut D,
    id: u32,
) -> Result<(), Status>
    requires fits { FitsSession D.Storage (over_store store.old) desk.old }
    requires length { length vector.old ≡ store.old.shape.dims }
    requires live { is_live_id id store.old.ids ≡ true }
    ensures rows { OnOk result (OfEachKept D.Storage (Some store.old) desk.old
        (λ kept. GivesRows D.Storage kept (id ∷ []) desk.old desk.new)) }
    ensures stopped { IfErr result (λ status. OfEachKept D.Storage (Some store.old) desk.old
        (λ kept. StopsBy D.Storage status kept (id ∷ []) desk.old desk.new)) }
    ensures frame { ReadsAndGives D.Storage desk.old desk.new
        (GivesFirstRows D.Storage (Some store.old) (λ kept. id ∷ []) desk.old) }
    ensures stayed { OnOk result (CountsStay D.Storage desk.old desk.new) }
    ensures cause { IfErr result (λ status. ExportCaused D.Storage status desk.old desk.new) }
    ensures later { Later D.Storage desk.old desk.new }
    ensures store { store.new ≡ store.old }
{
    let Ok(()) = store.get(desk, id, vector) else {
        return Err(Status::DiskFault);
    };
    let Ok(text) = row(alloc, id, vector) else {
        return Err(Status::Memory);
    };
    give_row(desk, text.as_slice())
}

// Gives a record.
fn give_row<D: Desk>(desk: &mut D, text: &[u8]) -> Result<(), Status>
    ensures given { OnOk result (Gives D.told (D.given desk.old) text.now (D.given desk.new)) }
    ensures part { IfErr result (λ status. (status ≡ Status.WriteFault)
        × GivesPart D.told (D.given desk.old) text.now (D.given desk.new)) }
    ensures frame { OnlyGives D.Storage text.now desk.old desk.new }
    ensures stayed { OnOk result (CountsStay D.Storage desk.old desk.new) }
    ensures cause { IfErr result (λ status. Rises D.Storage Status.WriteFault desk.old desk.new) }
    ensures later { Later D.Storage desk.old desk.new }
{
    match give_all(desk, text) {
        Ok(()) => Ok(()),
        Err(_) => Err(Status::WriteFault),
    }
}
