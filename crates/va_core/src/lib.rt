//! The base of Zahnibek: the shape of a store, pairs of a distance and an id, lists, and the
//! definitions that every other crate speaks by.
//!
//! A vector of a shape is a list of `dims` bytes, dimension 0 first. A place is a number from 0 to
//! `capacity - 1`, where one vector stands with its id. An id is any `u32`, and the ids of the vectors
//! that are live differ.
#![tactic(auto)]

mod laws;
mod lists;
mod memory;
mod pair;
mod shape;

pub use laws::{
    answer_ascends, answer_is_exact, answer_is_full, bounds_are_exact, boxes_are_cells,
    marks_cut_into_slices, nearest_reads_are_least, needed_are_candidates, pairs_are_ranked,
    reads_grow_at_their_end, within_is_exact, within_reads_are_least,
};
pub use lists::{Bytes, Ids, Pairs, Words};
pub use memory::Memory;
pub use pair::{Pair, is_less};
pub use shape::{Shape, ShapeFault};
