// The commands of cursors, which give the pairs of a snapshot one by one.
ghost use Rattle.std.specs.Prelude.{
  ◌≡◌,
  ◌+◌,
  ◌<◌,
  ◌≤◌,
  ◌∷◌,
  [],
  ℕ,
  List,
  Option,
  None,
  Some,
  false,
  get_or,
  length,
  slice_set,
  OnOk,
};
ghost use Rattle.va_disk.specs.Frames.{DiskFailsAs, OnlyReads};
ghost use Rattle.va_lang.specs.Command as asked;
ghost use Rattle.va_lang.specs.SaidCommand.{query_in};
ghost use Rattle.va_model.specs.Rows.{first_reason};
ghost use Rattle.va_serve.specs.Answers as answers;
ghost use Rattle.va_serve.specs.Answers.{Closes};
ghost use Rattle.va_serve.specs.Bounds.{KeepsHeldBounds, ReadsNoMore, UnlessBroken};
ghost use Rattle.va_serve.specs.Held.{AreCounts, HaveShape, is_open_at, times};
ghost use Rattle.va_serve.specs.Owing.{Owes};
ghost use Rattle.va_serve.specs.Promises.{Obeys, asked_by};
ghost use Rattle.va_serve.specs.Session.{FitsSession, Lent, lent_by, sitting_of, with_store};

use crate::answer::{Answer, CommandFault};
use crate::query::query_unless;
use crate::searching::unanswered;
use crate::workspace::Workspace;
use std::alloc::Global;
use va_core::Pair;
use va_cursor::Cursor;
use va_disk::Disk;
use va_lang::{Room, Why};
use va_search::{StoreSearchFault, next_pair, open_cursor};
use va_store::Store;

impl Workspace {
    /// Opens a cursor over the vectors that are live. Their places are held back while it is open.
    pub fn open<D: Disk>(
        &mut self,
        alloc: Global,
        disk: &mut D,
        name: u8,
        room: &Room,
    ) -> Result<Answer, CommandFault>
        requires fits { FitsSession D.Storage (sitting_of self.old) disk.old }
        ensures owes { Owes D.Storage (asked_by (asked.«open» name (query_in room.now))) (lent_by self.new)
            (sitting_of self.old) (sitting_of self.new) disk.old disk.new result }
        ensures fits { OnOk result (FitsSession D.Storage (sitting_of self.new) disk.new) }
        ensures frame { OnlyReads D.Storage disk.old disk.new }
        ensures cause { DiskFailsAs D.Storage CommandFault.Disk disk.old disk.new result }
    {
        open(
            alloc,
            &mut self.store,
            &mut self.cursors,
            &mut self.held,
            disk,
            name,
            room,
        )
    }

    /// Gives the next pair of a cursor, with the least reads.
    pub fn next<D: Disk>(&mut self, disk: &mut D, name: u8) -> Result<Answer, CommandFault>
        requires fits { FitsSession D.Storage (sitting_of self.old) disk.old }
        ensures owes { Owes D.Storage (asked_by (asked.next name)) (lent_by self.new) (sitting_of self.old)
            (sitting_of self.new) disk.old disk.new result }
        ensures fits { OnOk result (FitsSession D.Storage (sitting_of self.new) disk.new) }
        ensures frame { OnlyReads D.Storage disk.old disk.new }
        ensures cause { DiskFailsAs D.Storage CommandFault.Disk disk.old disk.new result }
    {
        next(&mut self.store, &mut self.cursors, disk, name)
    }

    /// Closes a cursor, whose places are no longer held back for it.
    pub fn close(&mut self, name: u8) -> Answer
        ensures store { self.new.store ≡ self.old.store }
        ensures vector { self.new.vector ≡ self.old.vector }
        ensures closes { (lent : Lent) → Closes name lent self.old.cursors self.new.cursors result }
    {
        close(&mut self.cursors, &mut self.held, name)
    }
}

fn open<D: Disk>(
    alloc: Global,
    store: &mut Store,
    cursors: &mut [Option<Cursor>],
    held: &mut [u8],
    disk: &mut D,
    name: u8,
    room: &Room,
) -> Result<Answer, CommandFault>
    requires fits { FitsSession D.Storage (with_store cursors.old store.old) disk.old }
    requires shapes { HaveShape store.old.shape cursors.old }
    requires counts { AreCounts cursors.old held.old }
    requires names { length cursors.old ≡ 64 }
    ensures obeys { (lent : Lent) → Obeys D.Storage (asked_by (asked.«open» name (query_in room.now))) lent
        (with_store cursors.old store.old) (with_store cursors.new store.new) disk.old disk.new result }
    ensures others { ReadsNoMore D.Storage (asked_by (asked.«open» name (query_in room.now)))
        (with_store cursors.old store.old) disk.old disk.new }
    ensures fits { OnOk result (FitsSession D.Storage (with_store cursors.new store.new) disk.new) }
    ensures shape { store.new.shape ≡ store.old.shape }
    ensures shapes { HaveShape store.new.shape cursors.new }
    ensures counts { AreCounts cursors.new held.new }
    ensures names { length cursors.new ≡ 64 }
    ensures held { length held.new ≡ length held.old }
    ensures frame { OnlyReads D.Storage disk.old disk.new }
    ensures cause { DiskFailsAs D.Storage CommandFault.Disk disk.old disk.new result }
{
    let query = match query_unless(alloc, store, name_refusal(cursors, name), room) {
        Ok(query) => query,
        Err(why) => return Ok(Answer::Refused(why)),
    };
    match open_cursor(alloc, store, disk, query) {
        Ok(cursor) => {
            keep(cursors, held, name, cursor);
            Ok(Answer::Opened(store.live()))
        }
        Err(fault) => unanswered(fault),
    }
}

fn next<D: Disk>(
    store: &mut Store,
    cursors: &mut [Option<Cursor>],
    disk: &mut D,
    name: u8,
) -> Result<Answer, CommandFault>
    requires fits { FitsSession D.Storage (with_store cursors.old store.old) disk.old }
    requires shapes { HaveShape store.old.shape cursors.old }
    ensures obeys { (lent : Lent) → Obeys D.Storage (asked_by (asked.next name)) lent (with_store cursors.old store.old)
        (with_store cursors.new store.new) disk.old disk.new result }
    ensures held { UnlessBroken result (KeepsHeldBounds D.Storage (Some name) (with_store cursors.old store.old)
        disk.old disk.new) }
    ensures fits { OnOk result (FitsSession D.Storage (with_store cursors.new store.new) disk.new) }
    ensures shape { store.new.shape ≡ store.old.shape }
    ensures shapes { HaveShape store.new.shape cursors.new }
    ensures names { length cursors.new ≡ length cursors.old }
    ensures counts { (held : List ℕ) → AreCounts cursors.old held → AreCounts cursors.new held }
    ensures frame { OnlyReads D.Storage disk.old disk.new }
    ensures cause { DiskFailsAs D.Storage CommandFault.Disk disk.old disk.new result }
{
    match take_cursor(cursors, name) {
        None => Ok(Answer::Refused(Why::Cursor)),
        Some(mut cursor) => {
            let next = next_pair(&mut cursor, store, disk);
            let fetched = cursor.read_last();
            put_cursor(cursors, name, cursor);
            next_answer(next, fetched)
        }
    }
}

// What comes of a cursor's next pair.
fn next_answer(
    next: Result<Option<Pair>, StoreSearchFault>,
    fetched: u32,
) -> Result<Answer, CommandFault>
    ensures { result ≡ answers.next_answer next fetched }
{
    match next {
        Ok(Some(pair)) => Ok(Answer::Next(pair, fetched)),
        Ok(None) => Ok(Answer::End),
        Err(fault) => unanswered(fault),
    }
}

fn close(cursors: &mut [Option<Cursor>], held: &mut [u8], name: u8) -> Answer
    requires counts { AreCounts cursors.old held.old }
    ensures closes { (lent : Lent) → Closes name lent cursors.old cursors.new result }
    ensures counts { AreCounts cursors.new held.new }
    ensures names { length cursors.new ≡ length cursors.old }
    ensures held { length held.new ≡ length held.old }
{
    match take_cursor(cursors, name) {
        None => Answer::Refused(Why::Cursor),
        Some(cursor) => {
            release(held, cursor.places());
            Answer::Closed
        }
    }
}

// Takes the cursor of this name out, if it is open.
fn take_cursor(cursors: &mut [Option<Cursor>], name: u8) -> Option<Cursor>
    ensures cursor { result ≡ get_or cursors.old name None }
    ensures rest { cursors.new ≡ slice_set cursors.old name None }
{
    let at = usize::from(name);
    if at >= cursors.len() {
        return None;
    }
    cursors[at].take()
}

// Puts a cursor under its name, which is 0 to 63.
fn put_cursor(cursors: &mut [Option<Cursor>], name: u8, cursor: Cursor)
    ensures { cursors.new ≡ slice_set cursors.old name (Some cursor) }
{
    let at = usize::from(name);
    if at < cursors.len() {
        cursors[at] = Some(cursor);
    }
}

// Whether a cursor of this name is open.
fn is_open(cursors: &[Option<Cursor>], name: u8) -> bool
    ensures { result ≡ is_open_at name cursors.now }
{
    match cursors.get(usize::from(name)) {
        Some(cursor) => cursor.is_some(),
        None => false,
    }
}

// Why no cursor is opened under this name.
fn name_refusal(cursors: &[Option<Cursor>], name: u8) -> Option<Why>
    ensures { result ≡ first_reason ((is_open_at name cursors.now, Why.Cursor) ∷ []) }
{
    if is_open(cursors, name) {
        return Some(Why::Cursor);
    }
    None
}

// Keeps a new cursor under its name, and holds back the places of its snapshot.
fn keep(cursors: &mut [Option<Cursor>], held: &mut [u8], name: u8, cursor: Cursor)
    requires counts { AreCounts cursors.old held.old }
    requires free { is_open_at name cursors.old ≡ false }
    requires shapes { HaveShape cursor.shape cursors.old }
    requires names { length cursors.old ≡ 64 }
    ensures kept { cursors.new ≡ slice_set cursors.old name (Some cursor) }
    ensures shapes { HaveShape cursor.shape cursors.new }
    ensures counts { AreCounts cursors.new held.new }
    ensures held { length held.new ≡ length held.old }
{
    if usize::from(name) >= cursors.len() {
        return;
    }
    hold(held, cursor.places());
    put_cursor(cursors, name, cursor);
}

// Counts one more for each of these places.
fn hold(held: &mut [u8], places: &[u32])
    requires room { (p : ℕ) → p < length held.old → get_or held.old p 0 + times p places.now < 256 }
    ensures more { (p : ℕ) → p < length held.old → get_or held.new p 0 ≡ get_or held.old p 0 + times p places.now }
    ensures length { length held.new ≡ length held.old }
{
    for place in places {
        hold_one(held, *place);
    }
}

fn hold_one(held: &mut [u8], place: u32)
    requires room { place < length held.old → get_or held.old place 0 < 255 }
    ensures more { (p : ℕ) → p < length held.old → get_or held.new p 0 ≡ get_or held.old p 0 + times p (place ∷ []) }
    ensures length { length held.new ≡ length held.old }
{
    let at = place as usize;
    if at < held.len() {
        held[at] += 1;
    }
}

// Counts one less for each of these places.
fn release(held: &mut [u8], places: &[u32])
    requires some { (p : ℕ) → p < length held.old → times p places.now ≤ get_or held.old p 0 }
    ensures fewer { (p : ℕ) → p < length held.old → get_or held.new p 0 + times p places.now ≡ get_or held.old p 0 }
    ensures length { length held.new ≡ length held.old }
{
    for place in places {
        release_one(held, *place);
    }
}

fn release_one(held: &mut [u8], place: u32)
    requires some { place < length held.old → 1 ≤ get_or held.old place 0 }
    ensures fewer { (p : ℕ) → p < length held.old → get_or held.new p 0 + times p (place ∷ []) ≡ get_or held.old p 0 }
    ensures length { length held.new ≡ length held.old }
{
    let at = place as usize;
    if at < held.len() {
        held[at] -= 1;
    }
}
