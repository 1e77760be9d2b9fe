// Lists of numbers, in room that was taken once.
ghost use Rattle.std.specs.Prelude.{◌≡◌, ◌<◌, ◌≤◌, ◌∷◌, ◌++◌, ◌↔◌, List, ℕ, [], length, take, slice_get, Some, IfOk, IsTrue, vec_len, vec_capacity};
ghost use Rattle.std.specs.Option.{is_some};
ghost use Rattle.va_lang.specs.Grammar.{vector_of};
ghost use Rattle.va_lang.specs.Room.{with_object};

use crate::queries::read_vector;
use std::alloc::Global;
use std::marker::Model;
use va_core::Memory;

// The most numbers of a list.
const MOST_NUMBERS: usize = 256;

// The most objects of a query.
const MOST_OBJECTS: usize = 16;

// Up to 256 coordinates.
#[derive(Drop)]
pub(crate) struct Vector {
    coordinates: Vec<u8>,
}

impl Model for Vector {
    ghost Value = { List ℕ };

    ghost view = { λ vector. vector.coordinates.items };

    ghost invariant = { λ vector. (vec_len vector.coordinates ≤ 256) × (256 ≤ vec_capacity vector.coordinates) };
}

impl Vector {
    pub(crate) fn new(alloc: Global) -> Result<Vector, Memory>
        ensures { IfOk result (λ vector. vector ≡ []) }
    {
        match Vec::with_capacity(alloc, MOST_NUMBERS) {
            Ok(coordinates) => Ok(Vector { coordinates }),
            Err(_) => Err(Memory),
        }
    }

    pub(crate) fn as_slice(&self) -> &[u8]
        ensures { result.now ≡ self.now }
    {
        &self.coordinates
    }

    pub(crate) fn clear(&mut self)
        ensures { self.new ≡ [] }
    {
        self.coordinates.clear();
    }

    pub(crate) fn is_full(&self) -> bool
        ensures full { IsTrue result ↔ (length self.now ≡ 256) }
        ensures most { length self.now ≤ 256 }
    {
        self.coordinates.len() == MOST_NUMBERS
    }

    pub(crate) fn push(&mut self, coordinate: u8)
        requires { length self.old < 256 }
        ensures { self.new ≡ self.old ++ coordinate ∷ [] }
    {
        self.coordinates.push_reserved(coordinate);
    }
}

// Up to 256 weights.
#[derive(Drop)]
pub(crate) struct Weights {
    numbers: Vec<u16>,
}

impl Model for Weights {
    ghost Value = { List ℕ };

    ghost view = { λ weights. weights.numbers.items };

    ghost invariant = { λ weights. (vec_len weights.numbers ≤ 256) × (256 ≤ vec_capacity weights.numbers) };
}

impl Weights {
    pub(crate) fn new(alloc: Global) -> Result<Weights, Memory>
        ensures { IfOk result (λ weights. weights ≡ []) }
    {
        match Vec::with_capacity(alloc, MOST_NUMBERS) {
            Ok(numbers) => Ok(Weights { numbers }),
            Err(_) => Err(Memory),
        }
    }

    pub(crate) fn as_slice(&self) -> &[u16]
        ensures { result.now ≡ self.now }
    {
        &self.numbers
    }

    pub(crate) fn clear(&mut self)
        ensures { self.new ≡ [] }
    {
        self.numbers.clear();
    }

    pub(crate) fn is_full(&self) -> bool
        ensures full { IsTrue result ↔ (length self.now ≡ 256) }
        ensures most { length self.now ≤ 256 }
    {
        self.numbers.len() == MOST_NUMBERS
    }

    pub(crate) fn push(&mut self, weight: u16)
        requires { length self.old < 256 }
        ensures { self.new ≡ self.old ++ weight ∷ [] }
    {
        self.numbers.push_reserved(weight);
    }
}

// Up to 16 objects, of which each has its own room.
#[derive(Drop)]
pub(crate) struct Objects {
    vectors: Vec<Vector>,
    used: usize,
}

impl Model for Objects {
    ghost Value = { List (List ℕ) };

    ghost view = { λ objects. take objects.used objects.vectors.items };

    ghost invariant = { λ objects. (vec_len objects.vectors ≡ 16) × (objects.used ≤ 16) };
}

impl Objects {
    pub(crate) fn new(alloc: Global) -> Result<Objects, Memory>
        ensures { IfOk result (λ objects. objects ≡ []) }
    {
        Ok(Objects {
            vectors: new_vectors(alloc)?,
            used: 0,
        })
    }

    pub(crate) fn len(&self) -> usize
        ensures len { result ≡ length self.now }
        ensures most { length self.now ≤ 16 }
    {
        self.used
    }

    pub(crate) fn at(&self, i: usize) -> &[u8]
        requires { i < length self.now }
        ensures { slice_get self.now i ≡ Some result.now }
    {
        self.vectors[i].as_slice()
    }

    pub(crate) fn clear(&mut self)
        ensures { self.new ≡ [] }
    {
        self.used = 0;
    }

    pub(crate) fn is_full(&self) -> bool
        ensures full { IsTrue result ↔ (length self.now ≡ 16) }
        ensures most { length self.now ≤ 16 }
    {
        self.used == MOST_OBJECTS
    }

    // Reads one object more.
    pub(crate) fn read_next(&mut self, text: &[u8]) -> bool
        requires { length self.old < 16 }
        ensures read { result ≡ is_some (vector_of text.now) }
        ensures objects { self.new ≡ with_object self.old (vector_of text.now) }
    {
        let read = read_vector(text, &mut self.vectors[self.used]);
        if read {
            self.used += 1;
        }
        read
    }
}

// The room of all objects.
fn new_vectors(alloc: Global) -> Result<Vec<Vector>, Memory>
    ensures { IfOk result (λ vectors. vec_len vectors ≡ 16) }
{
    let Ok(mut vectors) = Vec::with_capacity(alloc, MOST_OBJECTS) else {
        return Err(Memory);
    };
    while vectors.len() < MOST_OBJECTS {
        vectors.push_reserved(Vector::new(alloc)?);
    }
    Ok(vectors)
}
