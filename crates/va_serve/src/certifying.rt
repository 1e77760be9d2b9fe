// The command that gives the certificate of a search.
ghost use Rattle.std.specs.Prelude.{◌≡◌, ◌∷◌, ◌++◌, [], nat_lt, List, Option, OnOk};
ghost use Rattle.va_cursor.specs.Cursors.{Cursor};
ghost use Rattle.va_disk.specs.Frames.{DiskFailsAs, OnlyReads};
ghost use Rattle.va_lang.specs.Command as asked;
ghost use Rattle.va_lang.specs.SaidCommand.{query_in};
ghost use Rattle.va_model.specs.Rows.{first_reason};
ghost use Rattle.va_model.specs.Searching.{number_reason};
ghost use Rattle.va_model.specs.Step.{query_asked};
ghost use Rattle.va_serve.specs.Answers.{IsTextOf};
ghost use Rattle.va_serve.specs.Bounds.{KeepsBounds, UnlessBroken};
ghost use Rattle.va_serve.specs.Owing.{Owes};
ghost use Rattle.va_serve.specs.Promises.{Obeys, asked_by};
ghost use Rattle.va_serve.specs.Session.{FitsSession, Lent, lent_by, over_store, sitting_of, with_store};

use crate::answer::{Answer, CommandFault};
use crate::certificate::CertificateText;
use crate::query::query_unless;
use crate::searching::{number_refusal, unanswered};
use crate::workspace::Workspace;
use std::alloc::Global;
use va_cert::{Certificate, to_text};
use va_disk::Disk;
use va_lang::{Room, Why};
use va_search::certify;
use va_store::Store;

/// The most live vectors of which a certificate is made: it has a box for each.
const MOST_BOXES: u32 = 4096;

impl Workspace {
    /// Gives the certificate of the nearest, with the least reads.
    pub fn cert<D: Disk>(
        &mut self,
        alloc: Global,
        disk: &mut D,
        k: u16,
        room: &Room,
    ) -> Result<Answer, CommandFault>
        requires fits { FitsSession D.Storage (sitting_of self.old) disk.old }
        ensures owes { Owes D.Storage (asked_by (asked.cert k (query_in room.now))) (lent_by self.new)
            (sitting_of self.old) (sitting_of self.new) disk.old disk.new result }
        ensures fits { OnOk result (FitsSession D.Storage (sitting_of self.new) disk.new) }
        ensures frame { OnlyReads D.Storage disk.old disk.new }
        ensures cause { DiskFailsAs D.Storage CommandFault.Disk disk.old disk.new result }
    {
        cert(alloc, &mut self.store, disk, k, room)
    }
}

// The certificate of the nearest.
fn cert<D: Disk>(
    alloc: Global,
    store: &mut Store,
    disk: &mut D,
    k: u16,
    room: &Room,
) -> Result<Answer, CommandFault>
    requires fits { FitsSession D.Storage (over_store store.old) disk.old }
    ensures obeys { (lent : Lent) (cursors : List (Option Cursor)) →
        Obeys D.Storage (asked_by (asked.cert k (query_in room.now))) lent (with_store cursors store.old)
        (with_store cursors store.new) disk.old disk.new result }
    ensures bounds { UnlessBroken result (KeepsBounds D.Storage (query_asked (asked.cert k (query_in room.now)))
        (over_store store.old) disk.old disk.new) }
    ensures fits { OnOk result (FitsSession D.Storage (over_store store.new) disk.new) }
    ensures shape { store.new.shape ≡ store.old.shape }
    ensures frame { OnlyReads D.Storage disk.old disk.new }
    ensures cause { DiskFailsAs D.Storage CommandFault.Disk disk.old disk.new result }
{
    let query = match query_unless(alloc, store, certificate_refusal(k, store.live()), room) {
        Ok(query) => query,
        Err(why) => return Ok(Answer::Refused(why)),
    };
    match certify(alloc, store, disk, &query, k) {
        Ok(made) => Ok(written(alloc, &made)),
        Err(fault) => unanswered(fault),
    }
}

// Why no certificate of so many pairs is made where so many vectors are live.
fn certificate_refusal(k: u16, live: u32) -> Option<Why>
    ensures { result ≡ first_reason (number_reason k ++ (nat_lt 4096 live, Why.Limit) ∷ []) }
{
    if let Some(why) = number_refusal(k) {
        return Some(why);
    }
    if live > MOST_BOXES {
        return Some(Why::Limit);
    }
    None
}

// The certificate's text, or that there is no memory for it.
fn written(alloc: Global, made: &Certificate) -> Answer
    ensures { IsTextOf made.now result }
{
    match to_text(alloc, made) {
        Ok(text) => Answer::Certificate(CertificateText::new(text)),
        Err(_) => Answer::Refused(Why::Memory),
    }
}
