//! The marks of a store: the values at which each dimension is cut into slices, and the cell of a
//! vector, which has the slice of each of its coordinates.
//!
//! Marks are the partition points of the VA-File (Weber, Schek and Blott, 1998): a dimension of b bits
//! has 2^b slices, cut so that about as many coordinates fall into each. That marks are whole numbers
//! from 0 to 256, and which way parts are rounded, are rules of this project.
//!
//! A [`Tally`] counts the coordinates of vectors and gives their marks. [`Marks`] are written as bytes and
//! read again, and answer the slice of a value by one load from a table.
#![tactic(auto)]

mod bytes;
mod fault;
mod marks;
mod row;
mod rule;
mod tally;
#[cfg(test)]
mod tests;
mod value_counts;

pub use fault::MarksFault;
pub use marks::Marks;
pub use tally::Tally;
