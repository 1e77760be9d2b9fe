// Vectors, objects and weights, as lines spell them.
ghost use Rattle.std.specs.Prelude.{◌≡◌, ◌^◌, Some, None, if◌then◌else◌};
ghost use Rattle.va_lang.specs.Grammar.{vector_of, objects_of, weights_of, separated, number_below};

use crate::lists::{Objects, Vector, Weights};
use crate::numbers::{first_part, read_u8, read_u16};

// Reads coordinates with a comma between two, in place of what the vector held.
pub(crate) fn read_vector(text: &[u8], vector: &mut Vector) -> bool
    ensures { vector_of text.now ≡ (if result then Some vector.new else None) }
{
    vector.clear();
    let mut rest = text;
    loop {
        let (part, more) = first_part(rest, b',');
        let Some(coordinate) = read_u8(part) else {
            return false;
        };
        if vector.is_full() {
            return false;
        }
        vector.push(coordinate);
        match more {
            None => return true,
            Some(next) => rest = next,
        }
    }
}

// Reads vectors with a slash between two, in place of what the objects were.
pub(crate) fn read_objects(text: &[u8], objects: &mut Objects) -> bool
    ensures { objects_of text.now ≡ (if result then Some objects.new else None) }
{
    objects.clear();
    let mut rest = text;
    loop {
        let (part, more) = first_part(rest, b'/');
        if objects.is_full() {
            return false;
        }
        if !objects.read_next(part) {
            return false;
        }
        match more {
            None => return true,
            Some(next) => rest = next,
        }
    }
}

// Reads the word `w=` with its weights, in place of what the weights were.
pub(crate) fn read_weights(word: &[u8], weights: &mut Weights) -> bool
    ensures { weights_of word.now ≡ (if result then Some weights.new else None) }
{
    match word.strip_prefix(b"w=") {
        Some(text) => read_weight_list(text, weights),
        None => false,
    }
}

fn read_weight_list(text: &[u8], weights: &mut Weights) -> bool
    ensures { separated 44 256 (number_below (2 ^ 16)) text.now ≡ (if result then Some weights.new else None) }
{
    weights.clear();
    let mut rest = text;
    loop {
        let (part, more) = first_part(rest, b',');
        let Some(weight) = read_u16(part) else {
            return false;
        };
        if weights.is_full() {
            return false;
        }
        weights.push(weight);
        match more {
            None => return true,
            Some(next) => rest = next,
        }
    }
}
