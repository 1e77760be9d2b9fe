// Room for the long parts of a command, taken once.
ghost use Rattle.std.specs.Prelude.{◌≡◌, ◌<◌, ◌≤◌, List, ℕ, [], length, slice_get, IfOk, Some, None, if◌then◌else◌};
ghost use Rattle.va_lang.specs.Grammar.{vector_of, query_of, weighing};
ghost use Rattle.va_lang.specs.Room as rooms;
ghost use Rattle.va_lang.specs.SaidCommand.{parts_after, query_in};

use crate::lists::{Objects, Vector, Weights};
use crate::numbers::first_part;
use crate::queries::{read_objects, read_vector, read_weights};
use std::alloc::Global;
use std::marker::Model;
use va_core::Memory;

/// Room for one vector, 16 objects and 256 weights, of 256 numbers each.
///
/// A line is read into it without further memory.
#[derive(Drop)]
pub struct Room {
    vector: Vector,
    objects: Objects,
    weights: Weights,
    weighted: bool,
}

impl Model for Room {
    ghost Value = { rooms.Room };

    ghost view = { λ room. record {
      vector = room.vector;
      objects = room.objects;
      weights = if room.weighted then Some room.weights else None;
    } };
}

impl Room {
    /// All the room that lines may need, or Memory.
    pub fn new(alloc: Global) -> Result<Room, Memory>
        ensures { IfOk result (λ room. room ≡ record { vector = []; objects = []; weights = None }) }
    {
        Ok(Room {
            vector: Vector::new(alloc)?,
            objects: Objects::new(alloc)?,
            weights: Weights::new(alloc)?,
            weighted: false,
        })
    }

    /// The vector of `insert`.
    pub fn vector(&self) -> &[u8]
        ensures { result.now ≡ self.now.vector }
    {
        self.vector.as_slice()
    }

    /// How many objects the query has: at most 16.
    pub fn objects(&self) -> u16
        ensures { result ≡ length self.now.objects }
    {
        self.objects.len() as u16
    }

    /// An object of the query.
    pub fn object(&self, i: u16) -> &[u8]
        requires { i < length self.now.objects }
        ensures { slice_get self.now.objects i ≡ Some result.now }
    {
        self.objects.at(usize::from(i))
    }

    /// The weights of the query, if it has any.
    pub fn weights(&self) -> Option<&[u16]>
        ensures { self.now.weights ≡ rooms.lent result }
    {
        if self.weighted {
            Some(self.weights.as_slice())
        } else {
            None
        }
    }

    // Reads the vector of `insert`.
    pub(crate) fn read_vector(&mut self, text: &[u8]) -> bool
        ensures { vector_of text.now ≡ (if result then Some self.new.vector else None) }
    {
        read_vector(text, &mut self.vector)
    }

    // Reads a query: its objects, and then perhaps a word of weights.
    pub(crate) fn read_query(&mut self, words: Option<&[u8]>) -> bool
        ensures { query_of (parts_after 32 words.entry) ≡ (if result then Some (query_in self.new) else None) }
    {
        let Some(text) = words else {
            return false;
        };
        let (objects, further) = first_part(text, b' ');
        read_objects(objects, &mut self.objects) && self.read_weighing(further)
    }

    // Reads the words behind the objects.
    fn read_weighing(&mut self, words: Option<&[u8]>) -> bool
        ensures weights { weighing (parts_after 32 words.entry) ≡ (if result then Some self.new.weights else None) }
        ensures objects { self.new.objects ≡ self.old.objects }
    {
        let Some(text) = words else {
            self.weighted = false;
            return true;
        };
        let (word, more) = first_part(text, b' ');
        self.weighted = true;
        match more {
            None => read_weights(word, &mut self.weights),
            Some(_) => false,
        }
    }
}
