// Objects and weights.
ghost use Rattle.std.specs.Prelude.{◌≡◌, ◌+◌, ◌<◌, ◌≤◌, ◌^◌, ◌∷◌, ◌++◌, [], None, Some, length, slice_get, vec_len, vec_capacity, IfOk, IfErr, OnOk, OnErr};
ghost use Rattle.va_core.specs.Distance.{IsQuery};
ghost use Rattle.va_core.specs.Distance as distances;
ghost use Rattle.va_core.specs.DistanceParts.{part_of};
ghost use Rattle.va_dist.specs.Faults.{OrMemory, add_fault, new_fault};

use crate::QueryFault;
use crate::distance::{object_distance, square_gap};
use std::alloc::Global;
use std::marker::Model;

// The most objects of a query.
const MOST_OBJECTS: usize = 16;

/// What is asked for: 1 to 16 objects and a weight for each dimension. The objects stand one after another
/// in room that was taken for all 16.
#[derive(Drop)]
pub struct Query {
    count: u16,
    bytes: Vec<u8>,
    weights: Vec<u16>,
}

impl Model for Query {
    ghost use Rattle.std.specs.Prelude.{vec_capacity};
    ghost use Rattle.va_core.specs.Distance as distances;
    ghost use Rattle.va_dist.specs.Objects.{HoldsQuery, query_in};

    ghost Value = { distances.Query };

    ghost view = { λ query. query_in query.count query.bytes.items query.weights.items };

    ghost invariant = { λ query. HoldsQuery query.count query.bytes.items query.weights.items (vec_capacity query.bytes) };
}

impl Query {
    /// A query of one object. The refusals are tested in their order; the room for 16 objects is taken here.
    pub fn new(alloc: Global, dims: u16, first: &[u8], weights: &[u16]) -> Result<Query, QueryFault>
        requires some_dims { 1 ≤ dims }
        requires most_dims { dims ≤ 256 }
        ensures query { IfOk result (λ query. query ≡ record { objects = first.now ∷ []; weights = weights.now }) }
        ensures fits { IfOk result (IsQuery dims) }
        ensures ok { OnOk result (new_fault dims first.now weights.now ≡ None) }
        ensures err { IfErr result (OrMemory (new_fault dims first.now weights.now)) }
    {
        if first.len() != usize::from(dims) {
            return Err(QueryFault::Length(0));
        }
        if weights.len() != usize::from(dims) {
            return Err(QueryFault::Weights);
        }
        let mut bytes = Vec::with_capacity(alloc, MOST_OBJECTS * first.len())?;
        bytes.extend_from_slice(first)?;
        let mut kept = Vec::with_capacity(alloc, weights.len())?;
        kept.extend_from_slice(weights)?;
        Ok(Query {
            count: 1,
            bytes,
            weights: kept,
        })
    }

    /// Takes one object more, unless 16 are held or its length is wrong. After a refusal the query is as before.
    pub fn add(&mut self, object: &[u8]) -> Result<(), QueryFault>
        ensures added { OnOk result (self.new ≡ record self.old { objects = self.old.objects ++ object.now ∷ [] }) }
        ensures ok { OnOk result (add_fault self.old object.now ≡ None) }
        ensures err { IfErr result (λ fault. add_fault self.old object.now ≡ Some fault) }
        ensures unchanged { OnErr result (self.new ≡ self.old) }
        ensures weights { self.new.weights ≡ self.old.weights }
    {
        if usize::from(self.count) == MOST_OBJECTS {
            return Err(QueryFault::TooMany);
        }
        if object.len() != self.weights.len() {
            return Err(QueryFault::Length(self.count));
        }
        append(&mut self.bytes, object);
        self.count += 1;
        Ok(())
    }

    /// The distance of a vector of `dims` bytes.
    pub fn distance(&self, vector: &[u8]) -> u64
        requires { length vector.now ≡ length self.now.weights }
        ensures distance { result ≡ distances.distance self.now vector.now }
        ensures most { result < 2 ^ 45 }
    {
        let mut total = 0;
        for i in 0..self.objects() {
            total += object_distance(&self.weights, self.object(i), vector);
        }
        total
    }

    /// What a value of a dimension adds to the distance, over the objects.
    pub fn part(&self, dim: u16, value: u8) -> u64
        requires { dim < length self.now.weights }
        ensures part { result ≡ part_of self.now dim value }
        ensures most { result ≤ 68182614000 }
    {
        let weight = u64::from(self.weights[usize::from(dim)]);
        let mut total = 0;
        for object in 0..self.objects() {
            total += weight * square_gap(value, self.object(object)[usize::from(dim)]);
        }
        total
    }

    /// 1 to 256.
    pub fn dims(&self) -> u16
        ensures dims { result ≡ length self.now.weights }
        ensures query { IsQuery result self.now }
        ensures some { 1 ≤ result }
        ensures most { result ≤ 256 }
    {
        self.weights.len() as u16
    }

    /// How many objects there are, 1 to 16.
    pub fn objects(&self) -> u16
        ensures { result ≡ length self.now.objects }
    {
        self.count
    }

    /// An object, from 0 on.
    pub fn object(&self, i: u16) -> &[u8]
        requires { i < length self.now.objects }
        ensures object { slice_get self.now.objects i ≡ Some result.now }
        ensures len { length result.now ≡ length self.now.weights }
    {
        let dims = self.weights.len();
        let at = usize::from(i) * dims;
        &self.bytes[at..at + dims]
    }

    /// A weight for each dimension.
    pub fn weights(&self) -> &[u16]
        ensures { result.now ≡ self.now.weights }
    {
        &self.weights
    }
}

// Puts an object behind the others, in room that was taken.
fn append(bytes: &mut Vec<u8>, object: &[u8])
    requires { vec_len bytes.old + length object.now ≤ vec_capacity bytes.old }
    ensures items { bytes.new.items ≡ bytes.old.items ++ object.now }
    ensures room { vec_capacity bytes.new ≡ vec_capacity bytes.old }
{
    for value in object {
        bytes.push_reserved(*value);
    }
}
