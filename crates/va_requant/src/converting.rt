// Live ids are converted, and the marks that were built are selected.
ghost use Rattle.std.specs.Prelude.{◌≡◌, ◌-◌, ◌≤◌, ◌<◌, ◌++◌, [], List, ℕ, Option, None, Some, true, false, is_some, length, map, take, drop, get_or, nat_lt, IfOk, OnOk, OnErr};
ghost use Rattle.va_disk.specs.Frames.{DiskFails, IsStable};
ghost use Rattle.va_layout.specs.Fields.{selection_range};
ghost use Rattle.va_layout.specs.Parts.{KeepsRest};
ghost use Rattle.va_requant.specs.Refitting.{SameOrChanged, advanced, kept_after, other_range, progress, waiting};
ghost use Rattle.va_store.specs.ShelfReads.{read_of_id};
ghost use Rattle.va_store.specs.Builds.{last_of, marks_of_building};
ghost use Rattle.va_store.specs.Ids.{NextBegins};
ghost use Rattle.va_store.specs.Known.{Becomes, Fits};
ghost use Rattle.va_store.specs.Refits.{GivesNothing, ReadsThese, StaysIn, converted, refitted, same_kept, switched};

use crate::Progress;
use va_disk::{Disk, DiskFault};
use va_store::Store;

/// Converts the next `n` live ids above the last that was converted, or as many as there are, and says how many. Where none is
/// left it selects the new marks, which ends the refitting. `n` is at least 1.
///
/// It reads the vector of each once and writes its code, and makes nothing stable but the selection.
pub fn convert<D: Disk>(disk: &mut D, store: &mut Store, n: u32) -> Result<Progress, DiskFault>
    requires fits { Fits D.Storage store.old disk.old }
    requires whole { store.old.broken ≡ false }
    requires runs { is_some store.old.building ≡ true }
    requires some { 1 ≤ n }
    ensures fits { Fits D.Storage store.new disk.new }
    ensures progress { IfOk result (λ answer. answer ≡ progress n (length (waiting store.old))) }
    ensures ok { OnOk result (store.new ≡ advanced n store.old) }
    ensures err { OnErr result (store.new ≡ record store.old { broken = true; building = store.new.building }) }
    ensures stands { OnOk result (Becomes D.Storage store.old (kept_after n store.old) disk.old disk.new) }
    // A switch makes all stable. Before it each outcome goes on standing for what is kept, and selecting the store's region.
    ensures durable { OnOk result (length (waiting store.old) ≤ n → IsStable D.Storage disk.new) }
    ensures outcomes { OnOk result (n < length (waiting store.old) → D.honest → (c : List ℕ) → D.may_leave disk.new c → StaysIn D.Storage store.old disk.old c) }
    // A crash inside leaves what was kept before, or after.
    ensures frame { GivesNothing D.Storage disk.old disk.new (SameOrChanged D.Storage store.old (kept_after n store.old) disk.old) }
    ensures rest { D.told → KeepsRest (other_range store.old ++ selection_range) (D.image disk.old) (D.image disk.new) }
    // It reads the vectors of these ids once, ascending, or the first of them where it fails.
    ensures reads { ReadsThese D.Storage (map (read_of_id store.old) (take n (waiting store.old))) disk.old disk.new result }
    ensures size { D.size disk.new ≡ D.size disk.old }
    ensures cause { DiskFails D.Storage disk.old disk.new result }
{
    let last = store.building().unwrap();
    let waiting = store.live_above(last);
    if n < waiting {
        convert_next(disk, store, last, n)?;
        return Ok(Progress::More {
            done: n,
            left: waiting - n,
        });
    }
    convert_rest(disk, store, last, waiting)?;
    Ok(Progress::Switched { done: waiting })
}

// Converts all that are waiting, and selects the new marks.
fn convert_rest<D: Disk>(
    disk: &mut D,
    store: &mut Store,
    last: Option<u32>,
    count: u32,
) -> Result<(), DiskFault>
    requires fits { Fits D.Storage store.old disk.old }
    requires whole { store.old.broken ≡ false }
    requires runs { is_some store.old.building ≡ true }
    requires last { last ≡ last_of store.old.building }
    requires waiting { count ≡ length (waiting store.old) }
    requires law { NextBegins store.old.ids }
    ensures fits { Fits D.Storage store.new disk.new }
    ensures ok { OnOk result (store.new ≡ switched store.old) }
    ensures err { OnErr result (store.new ≡ record store.old { broken = true; building = store.new.building }) }
    ensures stands { OnOk result (Becomes D.Storage store.old (refitted store.old) disk.old disk.new) }
    ensures durable { OnOk result (IsStable D.Storage disk.new) }
    ensures frame { GivesNothing D.Storage disk.old disk.new (SameOrChanged D.Storage store.old (refitted store.old) disk.old) }
    ensures rest { D.told → KeepsRest (other_range store.old ++ selection_range) (D.image disk.old) (D.image disk.new) }
    ensures reads { ReadsThese D.Storage (map (read_of_id store.old) (waiting store.old)) disk.old disk.new result }
    ensures size { D.size disk.new ≡ D.size disk.old }
    ensures cause { DiskFails D.Storage disk.old disk.new result }
{
    convert_next(disk, store, last, count)?;
    store.switch(disk)
}

// Converts the next ids, as many as that, above the last that was converted.
fn convert_next<D: Disk>(
    disk: &mut D,
    store: &mut Store,
    last: Option<u32>,
    count: u32,
) -> Result<(), DiskFault>
    requires fits { Fits D.Storage store.old disk.old }
    requires whole { store.old.broken ≡ false }
    requires runs { is_some store.old.building ≡ true }
    requires last { last ≡ last_of store.old.building }
    requires waiting { count ≤ length (waiting store.old) }
    requires law { NextBegins store.old.ids }
    ensures fits { Fits D.Storage store.new disk.new }
    ensures same { OnOk result (store.new ≡ record store.old { building = store.new.building }) }
    ensures runs { OnOk result (is_some store.new.building ≡ true) }
    ensures marks { OnOk result (marks_of_building store.new.building ≡ marks_of_building store.old.building) }
    ensures none { OnOk result (count ≡ 0 → store.new ≡ store.old) }
    ensures ok { OnOk result (1 ≤ count → store.new ≡ converted (get_or (waiting store.old) (count - 1) 0) store.old) }
    ensures left { OnOk result (waiting store.new ≡ drop count (waiting store.old)) }
    ensures err { OnErr result (store.new ≡ record store.old { broken = true; building = store.new.building }) }
    ensures stands { Becomes D.Storage store.old same_kept disk.old disk.new }
    ensures outcomes { D.honest → (c : List ℕ) → D.may_leave disk.new c → StaysIn D.Storage store.old disk.old c }
    ensures frame { GivesNothing D.Storage disk.old disk.new (StaysIn D.Storage store.old disk.old) }
    ensures rest { D.told → KeepsRest (other_range store.old) (D.image disk.old) (D.image disk.new) }
    ensures reads { ReadsThese D.Storage (map (read_of_id store.old) (take count (waiting store.old))) disk.old disk.new result }
    ensures size { D.size disk.new ≡ D.size disk.old }
    ensures cause { DiskFails D.Storage disk.old disk.new result }
{
    let mut after = last;
    for _ in 0..count {
        let id = store.next_live(after).unwrap();
        store.convert_one(disk, id)?;
        after = Some(id);
    }
    Ok(())
}
