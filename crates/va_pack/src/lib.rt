//! The slices of a cell as a packed code: a string of bits in whole bytes, and back.
//!
//! A cell has one slice in each dimension, a number of as many bits as its shape gives that dimension (0
//! to 8). [`pack`] writes these numbers without a gap, dimension 0 first and the most significant bit
//! first, and fills the last byte up with zero bits. [`unpack`] reads such bytes, and refuses those that
//! no cell packs to. So a store can keep the approximation of each vector in `bits` bits.
#![tactic(auto)]

mod bits;
mod laws;
mod packing;
#[cfg(test)]
mod tests;
mod widths;

pub use laws::code_is_a_string_of_bits;
pub use packing::{PackFault, pack, unpack};
