// The run over the lines of a source.
ghost use Rattle.std.specs.Prelude.{◌≡◌, ◌≢◌, ◌<◌, ◌≤◌, [], false, IfOk, IfErr, OnOk, OnErr, length, take};
ghost use Rattle.va_disk.specs.Frames.{CountsFaults};
ghost use Rattle.va_disk.specs.Told.{Takes, IsAtEnd};
ghost use Rattle.va_model.specs.Ends.{at_newlines};
ghost use Rattle.va_model.specs.Lines.{text};
ghost use Rattle.va_serve.specs.Course.{RanLines};
ghost use Rattle.va_serve.specs.Failing.{CountsStay, Later, Rises};
ghost use Rattle.va_serve.specs.OpenLine.{ended_by, ended_in, open_after, open_in};
ghost use Rattle.va_serve.specs.Progress.{Lasts, Serves, Stops, line_left};
ghost use Rattle.va_serve.specs.Session.{FitsSession};

use crate::Status;
use crate::buffer::LineBuffer;
use crate::session::Session;
use std::alloc::Global;
use va_disk::{Desk, Source, SourceFault};

/// The most bytes that one call takes from the source.
const PIECE: usize = 4096;

// A byte of the input: a newline runs the line that it ends.
fn take_byte<D: Desk>(
    session: &mut Session,
    alloc: Global,
    desk: &mut D,
    buffer: &mut LineBuffer,
    byte: u8,
) -> Result<(), Status>
    requires going { session.old.over ≡ false }
    requires fits { FitsSession D.Storage session.old.sitting desk.old }
    ensures done { OnOk result (Serves D.Storage (ended_by byte buffer.old) session.old.sitting session.new.sitting
        desk.old desk.new) }
    ensures stopped { IfErr result (λ status. Stops D.Storage status (ended_by byte buffer.old) session.old.sitting
        desk.old desk.new) }
    ensures moments { Lasts D.Storage (ended_by byte buffer.old) session.old.sitting desk.old desk.new }
    ensures open_line { buffer.new ≡ open_after byte buffer.old }
    ensures going { OnOk result (session.new.over ≡ false) }
    ensures fits { OnOk result (FitsSession D.Storage session.new.sitting desk.new) }
    ensures cause { IfErr result (λ status. Rises D.Storage status desk.old desk.new) }
    ensures stayed { OnOk result (CountsStay D.Storage desk.old desk.new) }
    ensures later { Later D.Storage desk.old desk.new }
{
    if byte != b'\n' {
        buffer.push(byte);
        return Ok(());
    }
    let done = session.step(alloc, desk, buffer.line());
    buffer.clear();
    done
}

// A piece of the input, whatever was taken before it.
fn take_piece<D: Desk>(
    session: &mut Session,
    alloc: Global,
    desk: &mut D,
    buffer: &mut LineBuffer,
    piece: &[u8],
) -> Result<(), Status>
    requires going { session.old.over ≡ false }
    requires fits { FitsSession D.Storage session.old.sitting desk.old }
    ensures done { OnOk result (Serves D.Storage (ended_in buffer.old piece.now) session.old.sitting session.new.sitting
        desk.old desk.new) }
    ensures stopped { IfErr result (λ status. Stops D.Storage status (ended_in buffer.old piece.now) session.old.sitting
        desk.old desk.new) }
    ensures moments { Lasts D.Storage (ended_in buffer.old piece.now) session.old.sitting desk.old desk.new }
    ensures open_line { OnOk result (buffer.new ≡ open_in buffer.old piece.now) }
    ensures going { OnOk result (session.new.over ≡ false) }
    ensures fits { OnOk result (FitsSession D.Storage session.new.sitting desk.new) }
    ensures cause { IfErr result (λ status. Rises D.Storage status desk.old desk.new) }
    ensures stayed { OnOk result (CountsStay D.Storage desk.old desk.new) }
    ensures later { Later D.Storage desk.old desk.new }
{
    for byte in piece {
        take_byte(session, alloc, desk, buffer, *byte)?;
    }
    Ok(())
}

// The end of the input: the last line counts where it has a byte.
fn take_end<D: Desk>(
    session: &mut Session,
    alloc: Global,
    desk: &mut D,
    buffer: &LineBuffer,
) -> Result<(), Status>
    requires going { session.old.over ≡ false }
    requires fits { FitsSession D.Storage session.old.sitting desk.old }
    ensures done { OnOk result (Serves D.Storage (line_left buffer.now) session.old.sitting session.new.sitting desk.old
        desk.new) }
    ensures stopped { IfErr result (λ status. Stops D.Storage status (line_left buffer.now) session.old.sitting desk.old
        desk.new) }
    ensures moments { Lasts D.Storage (line_left buffer.now) session.old.sitting desk.old desk.new }
    ensures cause { IfErr result (λ status. Rises D.Storage status desk.old desk.new) }
    ensures stayed { OnOk result (CountsStay D.Storage desk.old desk.new) }
    ensures later { Later D.Storage desk.old desk.new }
{
    if buffer.is_empty() {
        return Ok(());
    }
    session.step(alloc, desk, buffer.line())
}

// The last line of the input, and the status.
fn finish<D: Desk>(
    session: &mut Session,
    alloc: Global,
    desk: &mut D,
    buffer: &LineBuffer,
) -> Status
    requires going { session.old.over ≡ false }
    requires fits { FitsSession D.Storage session.old.sitting desk.old }
    ensures done { result ≡ Status.Done → Serves D.Storage (line_left buffer.now) session.old.sitting
        session.new.sitting desk.old desk.new }
    ensures stopped { result ≢ Status.Done →
        Stops D.Storage result (line_left buffer.now) session.old.sitting desk.old desk.new }
    ensures moments { Lasts D.Storage (line_left buffer.now) session.old.sitting desk.old desk.new }
    ensures cause { result ≢ Status.Done → Rises D.Storage result desk.old desk.new }
    ensures stayed { result ≡ Status.Done → CountsStay D.Storage desk.old desk.new }
    ensures later { Later D.Storage desk.old desk.new }
{
    match take_end(session, alloc, desk, buffer) {
        Ok(()) => Status::Done,
        Err(status) => status,
    }
}

/// The next bytes of the source, at most so many, at the front of the piece.
pub fn take_front<S: Source>(
    source: &mut S,
    piece: &mut [u8],
    room: usize,
) -> Result<usize, SourceFault>
    requires some { 0 < room }
    requires fits { room ≤ length piece.old }
    ensures bound { IfOk result (λ n. n ≤ room) }
    ensures front { IfOk result (λ n. length (take n piece.new) ≡ n) }
    ensures taken { IfOk result (λ n. Takes S.told (S.left source.old) (take n piece.new) (S.left source.new)) }
    ensures end { IfOk result (λ n. n ≡ 0 → IsAtEnd S.told (S.left source.new)) }
    ensures nothing { OnErr result (S.left source.new ≡ S.left source.old) }
    ensures later { S.faults source.old ≤ S.faults source.new }
    ensures cause { CountsFaults (S.faults source.old) (S.faults source.new) result }
{
    source.take(&mut piece[..room])
}

/// Runs the lines of the source.
pub fn run_lines<D: Desk, S: Source>(
    session: &mut Session,
    alloc: Global,
    buffer: &mut LineBuffer,
    source: &mut S,
    desk: &mut D,
    limit: u64,
) -> Status
    requires going { session.old.over ≡ false }
    requires fits { FitsSession D.Storage session.old.sitting desk.old }
    requires buffer { buffer.old ≡ text [] }
    ensures { RanLines D.Storage S.Source at_newlines limit session.old.sitting source.old source.new desk.old desk.new
        result }
{
    let mut piece = [0u8; PIECE];
    let mut left = limit;
    while left > 0 {
        let room = left.min(PIECE as u64) as usize;
        match take_front(source, &mut piece, room) {
            Err(_) => return Status::ReadFault,
            Ok(0) => return finish(session, alloc, desk, buffer),
            Ok(count) => match take_piece(session, alloc, desk, buffer, &piece[..count]) {
                Err(status) => return status,
                Ok(()) => left -= count as u64,
            },
        }
    }
    match take_front(source, &mut piece, 1) {
        Err(_) => Status::ReadFault,
        Ok(0) => finish(session, alloc, desk, buffer),
        Ok(_) => Status::TooLong,
    }
}
