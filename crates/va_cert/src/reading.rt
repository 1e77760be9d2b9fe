// A certificate, read from its text.
ghost use Rattle.std.specs.Prelude.{◌≡◌, ◌^◌, Option, Some, IfOk, IfErr};
ghost use Rattle.std.specs.Option.{option_map};
ghost use Rattle.serde_json.specs.Data.{Data};
ghost use Rattle.serde_json.specs.View.{view};
ghost use Rattle.va_cert.specs.Reads as reads;

use crate::shape::{has_kinds, list_in};
use crate::{BoxRow, BoxRows, Certificate, FormFault, Objects, Taken, Takens};
use serde_json::Value;
use std::alloc::Global;
use va_core::{Bytes, Memory, Pair, Pairs, Words};

// What is read from JSON: None where a number isn't whole or out of range.
trait Part: Sized + Drop {
    ghost part_in: { Data → Option Self };

    fn read(alloc: Global, value: &Value) -> Result<Self, FormFault>
        ensures ok { IfOk result (λ part. part_in (view value.now) ≡ Some part) }
        ensures err { IfErr result (λ fault. reads.IsUnfit fault (part_in (view value.now))) };
}

impl Part for u8 {
    ghost part_in = { reads.as_byte };

    fn read(_alloc: Global, value: &Value) -> Result<u8, FormFault> {
        match value.as_u64() {
            Some(n) if n < 1 << 8 => Ok(n as u8),
            _ => Err(FormFault::Number),
        }
    }
}

impl Part for u16 {
    ghost part_in = { reads.as_word };

    fn read(_alloc: Global, value: &Value) -> Result<u16, FormFault> {
        match value.as_u64() {
            Some(n) if n < 1 << 16 => Ok(n as u16),
            _ => Err(FormFault::Number),
        }
    }
}

impl Part for u32 {
    ghost part_in = { reads.as_id };

    fn read(_alloc: Global, value: &Value) -> Result<u32, FormFault> {
        match value.as_u64() {
            Some(n) if n < 1 << 32 => Ok(n as u32),
            _ => Err(FormFault::Number),
        }
    }
}

impl Part for u64 {
    ghost part_in = { reads.as_dist };

    fn read(_alloc: Global, value: &Value) -> Result<u64, FormFault> {
        match value.as_u64() {
            Some(n) => Ok(n),
            None => Err(FormFault::Number),
        }
    }
}

// Each member of a list.
fn read_list<T: Part>(alloc: Global, value: &Value) -> Result<Vec<T>, FormFault>
    ensures ok { IfOk result (λ list. reads.all_in T.part_in (view value.now) ≡ Some list.items) }
    ensures err { IfErr result (λ fault. reads.IsUnfit fault (reads.all_in T.part_in (view value.now))) }
{
    let Some(members) = list_in(value) else {
        return Err(FormFault::Number);
    };
    let Ok(mut list) = Vec::with_capacity(alloc, members.len()) else {
        return Err(FormFault::Memory);
    };
    for member in members {
        let part = T::read(alloc, member)?;
        if list.push(part).is_err() {
            return Err(FormFault::Memory);
        }
    }
    Ok(list)
}

impl Part for Bytes {
    ghost part_in = { reads.as_bytes };

    fn read(alloc: Global, value: &Value) -> Result<Bytes, FormFault> {
        Ok(Bytes(read_list(alloc, value)?))
    }
}

impl Part for Words {
    ghost part_in = { reads.all_in reads.as_word };

    fn read(alloc: Global, value: &Value) -> Result<Words, FormFault> {
        Ok(Words(read_list(alloc, value)?))
    }
}

impl Part for Pair {
    ghost part_in = { reads.as_pair };

    fn read(alloc: Global, value: &Value) -> Result<Pair, FormFault> {
        match list_in(value) {
            Some([id, dist]) => {
                let id = u32::read(alloc, id)?;
                let dist = u64::read(alloc, dist)?;
                Ok(Pair { dist, id })
            }
            _ => Err(FormFault::Number),
        }
    }
}

impl Part for BoxRow {
    ghost part_in = { reads.as_row };

    fn read(alloc: Global, value: &Value) -> Result<BoxRow, FormFault> {
        match list_in(value) {
            Some([id, low, high]) => {
                let id = u32::read(alloc, id)?;
                let low = Bytes::read(alloc, low)?;
                let high = Bytes::read(alloc, high)?;
                Ok(BoxRow { id, low, high })
            }
            _ => Err(FormFault::Number),
        }
    }
}

impl Part for Taken {
    ghost part_in = { reads.as_taken };

    fn read(alloc: Global, value: &Value) -> Result<Taken, FormFault> {
        match list_in(value) {
            Some([id, vector, other]) => {
                let id = u32::read(alloc, id)?;
                let vector = Bytes::read(alloc, vector)?;
                let other = Bytes::read(alloc, other)?;
                Ok(Taken { id, vector, other })
            }
            _ => Err(FormFault::Number),
        }
    }
}

impl Part for Pairs {
    ghost part_in = { reads.all_in reads.as_pair };

    fn read(alloc: Global, value: &Value) -> Result<Pairs, FormFault> {
        Ok(Pairs(read_list(alloc, value)?))
    }
}

impl Part for BoxRows {
    ghost part_in = { reads.all_in reads.as_row };

    fn read(alloc: Global, value: &Value) -> Result<BoxRows, FormFault> {
        Ok(BoxRows(read_list(alloc, value)?))
    }
}

impl Part for Takens {
    ghost part_in = { reads.all_in reads.as_taken };

    fn read(alloc: Global, value: &Value) -> Result<Takens, FormFault> {
        Ok(Takens(read_list(alloc, value)?))
    }
}

impl Part for Objects {
    ghost part_in = { reads.all_in reads.as_bytes };

    fn read(alloc: Global, value: &Value) -> Result<Objects, FormFault> {
        Ok(Objects(read_list(alloc, value)?))
    }
}

// The value of a key.
fn read_key<T: Part>(alloc: Global, value: &Value, key: &str) -> Result<T, FormFault>
    ensures ok { IfOk result (λ part. reads.at_key T.part_in key.now (view value.now) ≡ Some part) }
    ensures err { IfErr result (λ fault. reads.IsUnfit fault (reads.at_key T.part_in key.now (view value.now))) }
{
    match value.get(key) {
        Some(member) => T::read(alloc, member),
        None => Err(FormFault::Number),
    }
}

fn read_certificate(alloc: Global, value: &Value) -> Result<Certificate, FormFault>
    ensures ok { IfOk result (λ cert. reads.as_certificate (view value.now) ≡ Some cert) }
    ensures err { IfErr result (λ fault. reads.IsUnfit fault (reads.as_certificate (view value.now))) }
{
    Ok(Certificate {
        answer: read_key(alloc, value, "answer")?,
        boxes: read_key(alloc, value, "boxes")?,
        fetched: read_key(alloc, value, "fetched")?,
        k: read_key(alloc, value, "k")?,
        objects: read_key(alloc, value, "objects")?,
        weights: read_key(alloc, value, "weights")?,
    })
}

// The value that the bytes are, if they are one.
#[tactic(auto, using(crate::proofs::Listed::value_is, crate::proofs::Listed::no_value_is))]
fn read_value(alloc: Global, text: &[u8]) -> Result<Option<Value>, Memory>
    ensures { IfOk result (λ found. option_map view found ≡ reads.value_of text.now) }
{
    match Value::from_slice(alloc, text) {
        Ok(value) => Ok(Some(value)),
        Err(error) if error.is_memory() => Err(Memory),
        Err(_) => Ok(None),
    }
}

/// Reads a certificate from its text, in any spelling of JSON.
pub fn from_text(alloc: Global, text: &[u8]) -> Result<Certificate, FormFault>
    ensures ok { IfOk result (λ cert. reads.reading text.now ≡ reads.certificate cert) }
    ensures err { IfErr result (λ fault. reads.IsFaultOf fault (reads.reading text.now)) }
{
    let value = match read_value(alloc, text) {
        Ok(Some(value)) => value,
        Ok(None) => return Err(FormFault::Text),
        Err(_) => return Err(FormFault::Memory),
    };
    if !has_kinds(&value) {
        return Err(FormFault::Object);
    }
    read_certificate(alloc, &value)
}
