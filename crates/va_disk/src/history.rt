// A record of calls, with what it comes to.
ghost use Rattle.std.specs.Prelude.{◌≡◌, ◌+◌, ◌<◌, ◌≤◌, ◌^◌, ◌++◌, [], ◌∷◌, length, take, drop, replicate, IfOk, OnOk, OnErr};
ghost use Rattle.va_disk.specs.Crashes.{Holds};
ghost use Rattle.va_disk.specs.DiskModel.{AreWithin, SetsWritten};
ghost use Rattle.va_disk.specs.Replay.{replay, MayLeave};
ghost use Rattle.va_disk.specs.declared.call.Call.TheVariants.{Read, Write, Sync, Give};

use crate::call::Call;
use std::alloc::{AllocError, Global};
use va_core::Bytes;

/// The calls that were carried out, and what their replay from the first image comes to. A call for which no
/// memory is found changes nothing.
#[derive(Drop)]
pub struct History {
    pub alloc: Global,
    pub first: Vec<u8>,
    pub calls: Vec<Call>,
    pub stable: Vec<u8>,
    pub pending: Vec<(u64, u64)>,
    pub image: Vec<u8>,
    pub given: Vec<u8>,
    pub reads: Vec<(u64, u64)>,
    pub ghost stable_is: { stable.items ≡ (replay first.items calls.items).stable },
    pub ghost pending_is: { pending.items ≡ (replay first.items calls.items).pending },
    pub ghost image_is: { image.items ≡ (replay first.items calls.items).image },
    pub ghost given_is: { given.items ≡ (replay first.items calls.items).given },
    pub ghost reads_is: { reads.items ≡ (replay first.items calls.items).reads },
}

impl History {
    /// No calls yet.
    pub fn new(alloc: Global, image: Vec<u8>) -> Result<Self, AllocError>
        ensures image { IfOk result (λ h. (h.first.items ≡ image.items) × (h.image.items ≡ image.items) × (h.stable.items ≡ image.items)) }
        ensures empty { IfOk result (λ h. (h.calls.items ≡ []) × (h.pending.items ≡ []) × (h.given.items ≡ []) × (h.reads.items ≡ [])) }
    {
        let first = image.to_vec(alloc)?;
        let stable = image.to_vec(alloc)?;
        Ok(History {
            alloc,
            first,
            calls: Vec::new(alloc),
            stable,
            pending: Vec::new(alloc),
            image,
            given: Vec::new(alloc),
            reads: Vec::new(alloc),
        })
    }

    pub fn read(&mut self, at: u64, len: u64) -> Result<(), AllocError>
        ensures first { self.new.first.items ≡ self.old.first.items }
        ensures stable { self.new.stable.items ≡ self.old.stable.items }
        ensures pending { self.new.pending.items ≡ self.old.pending.items }
        ensures calls { OnOk result (self.new.calls.items ≡ self.old.calls.items ++ Read at len ∷ []) }
        ensures reads { OnOk result (self.new.reads.items ≡ self.old.reads.items ++ (at, len) ∷ []) }
        ensures rest { (self.new.image.items ≡ self.old.image.items) × (self.new.given.items ≡ self.old.given.items) }
        ensures calls_err { OnErr result (self.new.calls.items ≡ self.old.calls.items) }
        ensures reads_err { OnErr result (self.new.reads.items ≡ self.old.reads.items) }
    {
        self.reads.try_reserve(1)?;
        self.calls.push(Call::Read(at, len))?;
        self.reads.push((at, len))?;
        Ok(())
    }

    pub fn write(&mut self, at: u64, bytes: &[u8]) -> Result<(), AllocError>
        requires { at ≤ length self.old.image.items }
        ensures first { self.new.first.items ≡ self.old.first.items }
        ensures stable { self.new.stable.items ≡ self.old.stable.items }
        ensures pending { OnOk result (self.new.pending.items ≡ self.old.pending.items ++ (at, length bytes.now) ∷ []) }
        ensures pending_err { OnErr result (self.new.pending.items ≡ self.old.pending.items) }
        ensures calls { OnOk result (self.new.calls.items ≡ self.old.calls.items ++ Write at bytes.now ∷ []) }
        ensures image { OnOk result (Holds self.old.image.items at bytes.now self.new.image.items) }
        ensures rest { (self.new.given.items ≡ self.old.given.items) × (self.new.reads.items ≡ self.old.reads.items) }
        ensures calls_err { OnErr result (self.new.calls.items ≡ self.old.calls.items) }
        ensures image_err { OnErr result (self.new.image.items ≡ self.old.image.items) }
    {
        let copy = copied(self.alloc, bytes)?;
        self.calls.try_reserve(1)?;
        self.pending.try_reserve(1)?;
        overwrite(&mut self.image, at as usize, bytes)?;
        self.calls.push(Call::Write(at, Bytes(copy)))?;
        self.pending.push((at, bytes.len() as u64))?;
        Ok(())
    }

    pub fn sync(&mut self) -> Result<(), AllocError>
        ensures first { self.new.first.items ≡ self.old.first.items }
        ensures stable { OnOk result (self.new.stable.items ≡ self.old.image.items) }
        ensures stable_err { OnErr result (self.new.stable.items ≡ self.old.stable.items) }
        ensures pending { OnOk result (self.new.pending.items ≡ []) }
        ensures pending_err { OnErr result (self.new.pending.items ≡ self.old.pending.items) }
        ensures calls { OnOk result (self.new.calls.items ≡ self.old.calls.items ++ Sync ∷ []) }
        ensures rest { (self.new.image.items ≡ self.old.image.items) × (self.new.given.items ≡ self.old.given.items) × (self.new.reads.items ≡ self.old.reads.items) }
        ensures calls_err { OnErr result (self.new.calls.items ≡ self.old.calls.items) }
    {
        let copy = copied(self.alloc, &self.image)?;
        self.calls.push(Call::Sync)?;
        self.stable = copy;
        self.pending.clear();
        Ok(())
    }

    pub fn give(&mut self, bytes: &[u8]) -> Result<(), AllocError>
        ensures first { self.new.first.items ≡ self.old.first.items }
        ensures stable { self.new.stable.items ≡ self.old.stable.items }
        ensures pending { self.new.pending.items ≡ self.old.pending.items }
        ensures calls { OnOk result (self.new.calls.items ≡ self.old.calls.items ++ Give bytes.now ∷ []) }
        ensures given { OnOk result (self.new.given.items ≡ self.old.given.items ++ bytes.now) }
        ensures rest { (self.new.image.items ≡ self.old.image.items) × (self.new.reads.items ≡ self.old.reads.items) }
        ensures calls_err { OnErr result (self.new.calls.items ≡ self.old.calls.items) }
        ensures given_err { OnErr result (self.new.given.items ≡ self.old.given.items) }
    {
        let copy = bytes.to_vec(self.alloc)?;
        self.given.try_reserve(bytes.len())?;
        self.calls.push(Call::Give(Bytes(copy)))?;
        self.given.extend_from_slice(bytes)?;
        Ok(())
    }

    /// One outcome of a crash: the image of the last sync, the image as read, or that with each byte written
    /// since set to `pick`.
    pub fn crash(&self, alloc: Global, pick: u8) -> Result<Vec<u8>, AllocError>
        ensures outcome { IfOk result (λ v. MayLeave self.now.first.items self.now.calls.items v.items) }
        ensures stable { pick ≡ 0 → IfOk result (λ v. v.items ≡ self.now.stable.items) }
        ensures image { pick ≡ 1 → IfOk result (λ v. v.items ≡ self.now.image.items) }
        ensures others { 2 ≤ pick → IfOk result (λ v. SetsWritten self.now.image.items self.now.pending.items pick v.items) }
    {
        if pick == 0 {
            let stable = self.stable.to_vec(alloc)?;
            return Ok(stable);
        }
        if pick == 1 {
            let image = self.image.to_vec(alloc)?;
            return Ok(image);
        }
        let set = with_written(alloc, &self.image, &self.pending, pick)?;
        Ok(set)
    }
}

// A copy in one block, where `to_vec` goes byte by byte.
fn copied(alloc: Global, bytes: &[u8]) -> Result<Vec<u8>, AllocError>
    ensures { IfOk result (λ copy. copy.items ≡ bytes.now) }
{
    let mut copy = Vec::with_capacity(alloc, bytes.len())?;
    copy.extend_from_slice(bytes)?;
    Ok(copy)
}

// The bytes from there on become these, in place; where memory is missing nothing changes.
fn overwrite(image: &mut Vec<u8>, at: usize, bytes: &[u8]) -> Result<(), AllocError>
    requires { at ≤ length image.old.items }
    ensures holds { OnOk result (Holds image.old.items at bytes.now image.new.items) }
    ensures same { OnErr result (image.new.items ≡ image.old.items) }
{
    let within = bytes.len().min(image.len() - at);
    image.try_reserve(bytes.len() - within)?;
    image[at..at + within].copy_from_slice(&bytes[..within]);
    image.extend_from_slice(&bytes[within..])?;
    Ok(())
}

// A copy with each byte of the ranges set.
fn with_written(
    alloc: Global,
    image: &[u8],
    ranges: &[(u64, u64)],
    byte: u8,
) -> Result<Vec<u8>, AllocError>
    requires { AreWithin (length image.now) ranges.now }
    ensures { IfOk result (λ v. SetsWritten image.now ranges.now byte v.items) }
{
    let mut copy = image.to_vec(alloc)?;
    set_written(&mut copy, ranges, byte);
    Ok(copy)
}

fn set_written(bytes: &mut [u8], ranges: &[(u64, u64)], byte: u8)
    requires { AreWithin (length bytes.old) ranges.now }
    ensures { SetsWritten bytes.old ranges.now byte bytes.new }
{
    for range in ranges {
        set_range(bytes, range.0, range.1, byte);
    }
}

fn set_range(bytes: &mut [u8], at: u64, len: u64, byte: u8)
    requires { at + len ≤ length bytes.old }
    ensures { Holds bytes.old at (replicate len byte) bytes.new }
{
    bytes[at as usize..(at + len) as usize].fill(byte);
}
