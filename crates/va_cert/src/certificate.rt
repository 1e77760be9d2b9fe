// What a certificate holds.
ghost use Rattle.std.specs.Prelude.{◌≡◌, List, ℕ, length};
ghost use Rattle.va_cert.specs.declared.certificate.BoxRow.{BoxRow};
ghost use Rattle.va_cert.specs.declared.certificate.Taken.{Taken};

use std::marker::Model;
use va_core::{Bytes, Pairs, Words};

/// The box of an id: the ends of its intervals, one number for each dimension.
#[derive(Drop)]
pub struct BoxRow {
    pub id: u32,
    pub low: Bytes,
    pub high: Bytes,
}

/// A vector that was read, and the vector of its box that shows that it had to be.
#[derive(Drop)]
pub struct Taken {
    pub id: u32,
    pub vector: Bytes,
    pub other: Bytes,
}

/// Boxes, ascending by id.
#[derive(Drop)]
pub struct BoxRows(pub Vec<BoxRow>);

impl Model for BoxRows {
    ghost Value = { List BoxRow };

    ghost view = { λ list. list.0.items };
}

impl BoxRows {
    pub fn len(&self) -> usize
        ensures { result ≡ length self.now }
    {
        self.0.len()
    }

    pub fn as_slice(&self) -> &[BoxRow]
        ensures { result.now ≡ self.now }
    {
        &self.0
    }
}

/// What was read, ascending by id.
#[derive(Drop)]
pub struct Takens(pub Vec<Taken>);

impl Model for Takens {
    ghost Value = { List Taken };

    ghost view = { λ list. list.0.items };
}

impl Takens {
    pub fn len(&self) -> usize
        ensures { result ≡ length self.now }
    {
        self.0.len()
    }

    pub fn as_slice(&self) -> &[Taken]
        ensures { result.now ≡ self.now }
    {
        &self.0
    }
}

/// The objects of a query.
#[derive(Drop)]
pub struct Objects(pub Vec<Bytes>);

impl Model for Objects {
    ghost Value = { List (List ℕ) };

    ghost view = { λ list. list.0.items };
}

impl Objects {
    pub fn len(&self) -> usize
        ensures { result ≡ length self.now }
    {
        self.0.len()
    }

    pub fn as_slice(&self) -> &[Bytes]
        ensures { result.now ≡ self.now }
    {
        &self.0
    }
}

/// An answer to a query, and why no other vectors in the boxes have another.
#[derive(Drop)]
pub struct Certificate {
    pub answer: Pairs,
    pub boxes: BoxRows,
    pub fetched: Takens,
    pub k: u16,
    pub objects: Objects,
    pub weights: Words,
}
