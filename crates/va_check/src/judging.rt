// Judging the bytes of a source.
ghost use Rattle.std.specs.Prelude.{◌≡◌, ◌≢◌, ◌<◌, ◌≤◌, [], IfOk, IfErr, OnOk, OnErr, length, take};
ghost use Rattle.va_cert.specs.Sound.{IsSound};
ghost use Rattle.va_cert.specs.declared.certificate.Certificate.{Certificate};
ghost use Rattle.va_cert.specs.declared.fault.FormFault.TheVariants as faults;
ghost use Rattle.va_check.specs.Collecting.{Collects, CutShort};
ghost use Rattle.va_check.specs.Judging as judging;
ghost use Rattle.va_check.specs.Judging.{IsVerdict, Judges, Says};
ghost use Rattle.va_check.specs.declared.refusal.Refusal.TheVariants as refusals;
ghost use Rattle.va_core.specs.Causes.{Rose};
ghost use Rattle.va_disk.specs.Frames.{CountsFaults};
ghost use Rattle.va_disk.specs.Told.{IsAtEnd, Takes};

use crate::{Judged, Refusal, check};
use std::alloc::Global;
use va_cert::{FormFault, from_text};
use va_core::Bytes;
use va_disk::{Source, SourceFault};

// How many bytes are taken at most.
const LIMIT: usize = 33_554_432;

// How many bytes are taken at once.
const PIECE: usize = 4096;

// The next bytes of the source, at most so many, at the front of the piece.
fn take_front<S: Source>(
    source: &mut S,
    piece: &mut [u8],
    room: usize,
) -> Result<usize, SourceFault>
    requires some { 0 < room }
    requires fits { room ≤ length piece.old }
    ensures bound { IfOk result (λ n. n ≤ room) }
    ensures taken { IfOk result (λ n. Takes S.told (S.left source.old) (take n piece.new) (S.left source.new)) }
    ensures front { IfOk result (λ n. length (take n piece.new) ≡ n) }
    ensures end { IfOk result (λ n. n ≡ 0 → IsAtEnd S.told (S.left source.new)) }
    ensures nothing { OnErr result (S.left source.new ≡ S.left source.old) }
    ensures later { S.faults source.old ≤ S.faults source.new }
    ensures cause { CountsFaults (S.faults source.old) (S.faults source.new) result }
{
    source.take(&mut piece[..room])
}

// Why not all bytes were taken.
#[derive(Clone, Copy)]
enum Cut {
    ReadFault,
    TooLong,
    Memory,
}

// All bytes of the source, where they aren't too many.
#[tactic(auto, using(crate::proofs::Collected::takes_more, crate::proofs::Collected::takes_all, crate::proofs::Collected::takes_too_many))]
fn collect<S: Source>(alloc: Global, source: &mut S) -> Result<Bytes, Cut>
    ensures all { IfOk result (λ bytes. S.told → Collects (S.left source.old) bytes (S.left source.new)) }
    ensures cut { IfErr result (λ cut. S.told → CutShort cut (S.left source.old)) }
    // A fault of the source only where it counted one, and none is passed over.
    ensures cause { IfErr result (λ cut. cut ≡ Cut.ReadFault → Rose (S.faults source.old) (S.faults source.new)) }
    ensures stayed { OnOk result (S.faults source.new ≡ S.faults source.old) }
    ensures unread { IfErr result (λ cut. cut ≢ Cut.ReadFault → S.faults source.new ≡ S.faults source.old) }
    ensures later { S.faults source.old ≤ S.faults source.new }
{
    let mut bytes = Vec::new(alloc);
    let mut piece = [0u8; PIECE];
    let mut left = LIMIT;
    while left > 0 {
        let room = left.min(PIECE);
        match take_front(source, &mut piece, room) {
            Err(_) => return Err(Cut::ReadFault),
            Ok(0) => return Ok(Bytes(bytes)),
            Ok(count) => {
                if bytes.extend_from_slice(&piece[..count]).is_err() {
                    return Err(Cut::Memory);
                }
                left -= count;
            }
        }
    }
    match take_front(source, &mut piece, 1) {
        Err(_) => Err(Cut::ReadFault),
        Ok(0) => Ok(Bytes(bytes)),
        Ok(_) => Err(Cut::TooLong),
    }
}

// The bytes behind `cert `, where these five stand first.
fn text_in(bytes: &[u8]) -> &[u8]
    ensures { result.now ≡ judging.text_in bytes.now }
{
    match bytes.strip_prefix(b"cert ") {
        Some(text) => text,
        None => bytes,
    }
}

fn judge_bytes(alloc: Global, bytes: &[u8]) -> Judged
    ensures { IsVerdict result bytes.now }
{
    let cert = match from_text(alloc, text_in(bytes)) {
        Ok(cert) => cert,
        Err(FormFault::Memory) => return Judged::Memory,
        Err(fault) => return Judged::Unread(fault),
    };
    match check(alloc, &cert) {
        Ok(()) => Judged::Accepted,
        Err(Refusal::Memory) => Judged::Memory,
        Err(refusal) => Judged::Refused(refusal),
    }
}

/// Reads the source to its end, and judges the certificate whose text it is, alone or behind `cert `.
#[tactic(auto, using(crate::proofs::Collected::judges_whole, crate::proofs::Collected::judges_soundly, crate::proofs::Collected::never_unread, crate::proofs::Collected::never_refused, crate::proofs::Collected::never_read_fault))]
pub fn judge<S: Source>(alloc: Global, source: &mut S) -> Judged
    ensures judged { S.told → Judges result (S.left source.old) (S.left source.new) }
    ensures sound { result ≡ Judged.Accepted → S.told → (c : Certificate) × Says (S.left source.old) c × IsSound c }
    // A fault of the source only where it counted one, and none is passed over.
    ensures cause { result ≡ Judged.ReadFault → Rose (S.faults source.old) (S.faults source.new) }
    ensures stayed { result ≢ Judged.ReadFault → S.faults source.new ≡ S.faults source.old }
    ensures later { S.faults source.old ≤ S.faults source.new }
    ensures read { result ≢ Judged.Unread faults.Memory }
    ensures checked { result ≢ Judged.Refused refusals.Memory }
{
    let bytes = match collect(alloc, source) {
        Ok(bytes) => bytes,
        Err(Cut::ReadFault) => return Judged::ReadFault,
        Err(Cut::TooLong) => return Judged::TooLong,
        Err(Cut::Memory) => return Judged::Memory,
    };
    judge_bytes(alloc, bytes.as_slice())
}
