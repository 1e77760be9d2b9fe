// Vectors that are kept when they are fetched.
ghost use Rattle.std.specs.Prelude.{◌≡◌, ◌+◌, ◌<◌, ◌≤◌, ◌++◌, ◌∷◌, [], None, Some, length, IfOk, IfSome};
ghost use Rattle.std.specs.Prelude.{vec_capacity, vec_len};
ghost use Rattle.std.specs.Option.{MatchOption};
ghost use Rattle.va_maker.specs.Kept.{kept_of};

use std::alloc::Global;
use std::marker::Model;
use va_core::Memory;

/// Vectors of `dims` bytes with the places that they were fetched of. The room for them is taken when it is made.
#[derive(Drop)]
pub struct KeptVectors {
    dims: usize,
    most: usize,
    places: Vec<u32>,
    bytes: Vec<u8>,
}

impl Model for KeptVectors {
    ghost use Rattle.std.specs.Prelude.{vec_capacity};
    ghost use Rattle.va_maker.specs.Kept.{HasRoom, Kept, kept_in};

    ghost Value = { Kept };

    ghost view = { λ kept.
        record { dims = kept.dims; most = kept.most; vectors = kept_in kept.dims kept.places.items kept.bytes.items } };

    ghost invariant = { λ kept. HasRoom kept.dims kept.most kept.places.items kept.bytes.items
        (vec_capacity kept.places) (vec_capacity kept.bytes) };
}

impl KeptVectors {
    /// Room for so many vectors.
    pub fn new(alloc: Global, dims: u16, most: u32) -> Result<KeptVectors, Memory>
        ensures { IfOk result (λ kept. kept ≡ record { dims = dims; most = most; vectors = [] }) }
    {
        let dims = usize::from(dims);
        let most = most as usize;
        let Ok(places) = Vec::with_capacity(alloc, most) else {
            return Err(Memory);
        };
        let Ok(bytes) = Vec::with_capacity(alloc, most * dims) else {
            return Err(Memory);
        };
        Ok(KeptVectors {
            dims,
            most,
            places,
            bytes,
        })
    }

    /// Keeps the vector of a place, unless as many are held as there is room for.
    pub fn push(&mut self, place: u32, vector: &[u8])
        requires { length vector.now ≡ self.old.dims }
        ensures dims { self.new.dims ≡ self.old.dims }
        ensures most { self.new.most ≡ self.old.most }
        ensures vectors { length self.old.vectors < self.old.most →
            self.new.vectors ≡ self.old.vectors ++ (place, vector.now) ∷ [] }
    {
        if self.places.len() == self.most {
            return;
        }
        self.places.push_reserved(place);
        append(&mut self.bytes, vector);
    }

    /// The vector that was kept of a place.
    pub fn vector_of(&self, place: u32) -> Option<&[u8]>
        ensures vector { MatchOption result (kept_of self.now.vectors place ≡ None)
            (λ vector. kept_of self.now.vectors place ≡ Some vector.now) }
        ensures length { IfSome result (λ vector. length vector.now ≡ self.now.dims) }
    {
        for position in 0..self.places.len() {
            if self.places[position] == place {
                let at = position * self.dims;
                return Some(&self.bytes[at..at + self.dims]);
            }
        }
        None
    }
}

// Puts a vector behind the others, in room that was taken.
fn append(bytes: &mut Vec<u8>, vector: &[u8])
    requires { vec_len bytes.old + length vector.now ≤ vec_capacity bytes.old }
    ensures items { bytes.new.items ≡ bytes.old.items ++ vector.now }
    ensures room { vec_capacity bytes.new ≡ vec_capacity bytes.old }
{
    for value in vector {
        bytes.push_reserved(*value);
    }
}
