// A certificate's text.
ghost use Rattle.std.specs.Prelude.{◌≡◌, ◌∷◌, [], IfOk, map, string_bytes};
ghost use Rattle.serde_json.specs.Data.{Data};
ghost use Rattle.serde_json.specs.View.{view};
ghost use Rattle.va_cert.specs.Text as texts;
ghost use Rattle.va_cert.specs.Text.{list};

use crate::{BoxRow, BoxRows, Certificate, Objects, Taken, Takens};
use serde_json::{Value, json};
use std::alloc::{AllocError, Global};
use va_core::{Bytes, Memory, Pair, Pairs, Words};

// What is written as JSON.
trait Written: Sized {
    ghost json_of: { Self → Data };

    fn write(&self, alloc: Global) -> Result<Value, AllocError>
        ensures { IfOk result (λ value. view value ≡ json_of self.now) };
}

impl Written for u8 {
    ghost json_of = { texts.whole };

    fn write(&self, _alloc: Global) -> Result<Value, AllocError> {
        Ok(Value::from(*self))
    }
}

impl Written for u16 {
    ghost json_of = { texts.whole };

    fn write(&self, _alloc: Global) -> Result<Value, AllocError> {
        Ok(Value::from(*self))
    }
}

#[tactic(auto, using(crate::proofs::Values::view_of_list))]
fn array(values: Vec<Value>) -> Value
    ensures { view result ≡ list (map view values.items) }
{
    Value::Array(values)
}

// Each member of a list.
fn write_list<T: Written>(alloc: Global, members: &[T]) -> Result<Value, AllocError>
    ensures { IfOk result (λ value. view value ≡ list (map T.json_of members.now)) }
{
    let mut values = Vec::with_capacity(alloc, members.len())?;
    for member in members {
        let value = member.write(alloc)?;
        values.push(value)?;
    }
    Ok(array(values))
}

impl Written for Bytes {
    ghost json_of = { texts.wholes };

    fn write(&self, alloc: Global) -> Result<Value, AllocError> {
        write_list(alloc, self.as_slice())
    }
}

impl Written for Words {
    ghost json_of = { texts.wholes };

    fn write(&self, alloc: Global) -> Result<Value, AllocError> {
        write_list(alloc, self.as_slice())
    }
}

impl Written for Pair {
    ghost json_of = { texts.pair_data };

    fn write(&self, alloc: Global) -> Result<Value, AllocError> {
        let mut values = Vec::with_capacity(alloc, 2)?;
        values.push(Value::from(self.id))?;
        values.push(Value::from(self.dist))?;
        Ok(array(values))
    }
}

impl Written for BoxRow {
    ghost json_of = { texts.row_data };

    fn write(&self, alloc: Global) -> Result<Value, AllocError> {
        let low = self.low.write(alloc)?;
        let high = self.high.write(alloc)?;
        row(alloc, self.id, low, high)
    }
}

impl Written for Taken {
    ghost json_of = { texts.taken_data };

    fn write(&self, alloc: Global) -> Result<Value, AllocError> {
        let vector = self.vector.write(alloc)?;
        let other = self.other.write(alloc)?;
        row(alloc, self.id, vector, other)
    }
}

// An id with two lists.
fn row(alloc: Global, id: u32, first: Value, second: Value) -> Result<Value, AllocError>
    ensures { IfOk result (λ value. view value ≡ list (texts.whole id ∷ view first ∷ view second ∷ [])) }
{
    let mut values = Vec::with_capacity(alloc, 3)?;
    values.push(Value::from(id))?;
    values.push(first)?;
    values.push(second)?;
    Ok(array(values))
}

impl Written for Pairs {
    ghost json_of = { λ pairs. list (map texts.pair_data pairs) };

    fn write(&self, alloc: Global) -> Result<Value, AllocError> {
        write_list(alloc, self.as_slice())
    }
}

impl Written for BoxRows {
    ghost json_of = { λ rows. list (map texts.row_data rows) };

    fn write(&self, alloc: Global) -> Result<Value, AllocError> {
        write_list(alloc, self.as_slice())
    }
}

impl Written for Takens {
    ghost json_of = { λ takens. list (map texts.taken_data takens) };

    fn write(&self, alloc: Global) -> Result<Value, AllocError> {
        write_list(alloc, self.as_slice())
    }
}

impl Written for Objects {
    ghost json_of = { λ objects. list (map texts.wholes objects) };

    fn write(&self, alloc: Global) -> Result<Value, AllocError> {
        write_list(alloc, self.as_slice())
    }
}

fn cert_value(alloc: Global, cert: &Certificate) -> Result<Value, AllocError>
    ensures { IfOk result (λ value. view value ≡ texts.data_of cert.now) }
{
    let answer = cert.answer.write(alloc)?;
    let boxes = cert.boxes.write(alloc)?;
    let fetched = cert.fetched.write(alloc)?;
    let objects = cert.objects.write(alloc)?;
    let weights = cert.weights.write(alloc)?;
    json!(in alloc; {
        "answer": answer, "boxes": boxes, "fetched": fetched, "k": cert.k, "objects": objects, "weights": weights
    })
}

/// The certificate's text.
#[tactic(auto, using(crate::proofs::Values::no_floats))]
pub fn to_text(alloc: Global, cert: &Certificate) -> Result<String, Memory>
    ensures { IfOk result (λ text. string_bytes text ≡ texts.text_of cert.now) }
{
    let value = match cert_value(alloc, cert) {
        Ok(value) => value,
        Err(_) => return Err(Memory),
    };
    match value.to_string(alloc) {
        Ok(text) => Ok(text),
        Err(_) => Err(Memory),
    }
}
