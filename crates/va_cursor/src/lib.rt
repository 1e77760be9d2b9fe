//! Cursors over a ranking: the pairs of a shelf's cells one by one, the nearest first, with the least reads for each.
//!
//! A cursor keeps a snapshot: the places and the ids, the bounds of the distances, and the query. A caller that wants
//! one pair more reads only what that pair needs.
#![tactic(auto)]

mod cursor;
mod filling;
mod laws;
mod reading;
#[cfg(test)]
mod tests;

pub use cursor::Cursor;
pub use laws::{places_keep_vectors, reads_are_least};
