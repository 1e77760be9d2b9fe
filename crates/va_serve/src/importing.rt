// The run over the records of a CSV text, each as the line that inserts it.
ghost use Rattle.std.specs.Prelude.{◌≡◌, ◌≢◌, ◌∷◌, [], false, IfErr, IfOk, OnOk, map};
ghost use Rattle.va_csv.specs.Lines.{lines_of};
ghost use Rattle.va_model.specs.Ends.{once_taken};
ghost use Rattle.va_model.specs.Lines.{line_of};
ghost use Rattle.va_serve.specs.Course.{RanLines};
ghost use Rattle.va_serve.specs.Failing.{CountsStay, Later, Rises};
ghost use Rattle.va_serve.specs.Importing.{Idles, IsCut, IsCutShort, TakesAll};
ghost use Rattle.va_serve.specs.Progress.{Lasts, Serves, Stops};
ghost use Rattle.va_serve.specs.Session.{FitsSession};
ghost use Rattle.va_serve.specs.declared.status.Status.TheVariants as statuses;

use crate::Status;
use crate::serving::take_front;
use crate::session::Session;
use std::alloc::Global;
use va_core::Bytes;
use va_csv::lines;
use va_disk::{Desk, Source};

/// The most bytes that one call takes from the source.
const PIECE: usize = 4096;

/// Runs the records of the source, once all of it was taken. No line is run where memory is wanting.
pub fn run_records<D: Desk, S: Source>(
    session: &mut Session,
    alloc: Global,
    source: &mut S,
    desk: &mut D,
    limit: u64,
) -> Status
    requires going { session.old.over ≡ false }
    requires fits { FitsSession D.Storage session.old.sitting desk.old }
    ensures ran { result ≢ statuses.Memory →
        RanLines D.Storage S.Source (once_taken lines_of) limit session.old.sitting source.old source.new desk.old
        desk.new result }
    ensures idle { result ≡ statuses.Memory → Idles S.Source limit source.old source.new desk.old desk.new }
    ensures unrun { IsCutShort result → desk.new ≡ desk.old }
{
    let bytes = match take_all(alloc, source, limit) {
        Ok(bytes) => bytes,
        Err(status) => return status,
    };
    let Ok(records) = lines(alloc, bytes.as_slice()) else {
        return Status::Memory;
    };
    match run_each(session, alloc, desk, &records) {
        Ok(()) => Status::Done,
        Err(status) => status,
    }
}

// All bytes of the source, where they are at most so many.
fn take_all<S: Source>(alloc: Global, source: &mut S, limit: u64) -> Result<Bytes, Status>
    ensures all { IfOk result (λ bytes. TakesAll S.Source limit bytes source.old source.new) }
    ensures cut { IfErr result (λ status. IsCut S.Source limit status source.old source.new) }
{
    let mut bytes = Vec::new(alloc);
    let mut piece = [0u8; PIECE];
    let mut left = limit;
    while left > 0 {
        let room = left.min(PIECE as u64) as usize;
        match take_front(source, &mut piece, room) {
            Err(_) => return Err(Status::ReadFault),
            Ok(0) => return Ok(Bytes(bytes)),
            Ok(count) => {
                if bytes.extend_from_slice(&piece[..count]).is_err() {
                    return Err(Status::Memory);
                }
                left -= count as u64;
            }
        }
    }
    match take_front(source, &mut piece, 1) {
        Err(_) => Err(Status::ReadFault),
        Ok(0) => Ok(Bytes(bytes)),
        Ok(_) => Err(Status::TooLong),
    }
}

// The line of a record.
fn run_record<D: Desk>(
    session: &mut Session,
    alloc: Global,
    desk: &mut D,
    text: &[u8],
) -> Result<(), Status>
    requires going { session.old.over ≡ false }
    requires fits { FitsSession D.Storage session.old.sitting desk.old }
    ensures done { OnOk result (Serves D.Storage (line_of text.now ∷ []) session.old.sitting session.new.sitting
        desk.old desk.new) }
    ensures stopped { IfErr result (λ status. Stops D.Storage status (line_of text.now ∷ []) session.old.sitting
        desk.old desk.new) }
    ensures moments { Lasts D.Storage (line_of text.now ∷ []) session.old.sitting desk.old desk.new }
    ensures going { OnOk result (session.new.over ≡ false) }
    ensures fits { OnOk result (FitsSession D.Storage session.new.sitting desk.new) }
    ensures cause { IfErr result (λ status. Rises D.Storage status desk.old desk.new) }
    ensures stayed { OnOk result (CountsStay D.Storage desk.old desk.new) }
    ensures later { Later D.Storage desk.old desk.new }
{
    session.step(alloc, desk, Some(text))
}

// The lines of a list, one after another, until one fails.
fn run_each<D: Desk>(
    session: &mut Session,
    alloc: Global,
    desk: &mut D,
    records: &[Bytes],
) -> Result<(), Status>
    requires going { session.old.over ≡ false }
    requires fits { FitsSession D.Storage session.old.sitting desk.old }
    ensures done { OnOk result (Serves D.Storage (map line_of records.now) session.old.sitting session.new.sitting
        desk.old desk.new) }
    ensures stopped { IfErr result (λ status. Stops D.Storage status (map line_of records.now) session.old.sitting
        desk.old desk.new) }
    ensures moments { Lasts D.Storage (map line_of records.now) session.old.sitting desk.old desk.new }
    ensures going { OnOk result (session.new.over ≡ false) }
    ensures fits { OnOk result (FitsSession D.Storage session.new.sitting desk.new) }
    ensures cause { IfErr result (λ status. Rises D.Storage status desk.old desk.new) }
    ensures stayed { OnOk result (CountsStay D.Storage desk.old desk.new) }
    ensures later { Later D.Storage desk.old desk.new }
{
    for record in records {
        run_record(session, alloc, desk, record.as_slice())?;
    }
    Ok(())
}
