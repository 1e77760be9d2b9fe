//! The bounds of the distances that the vectors of a cell may have from a query.
//!
//! For each dimension and each slice that isn't empty a table holds the least and the greatest part of the
//! distance over the values of the slice, and the least values that attain them. The lower bound of a cell
//! is a sum of such entries, one look-up for each dimension, and so is the upper bound. Both are exact:
//! they are the least and the greatest distance over all vectors of the cell.
#![tactic(auto)]

mod bounds;
mod entry;
mod making;
mod parts;
#[cfg(test)]
mod tests;

pub use bounds::Bounds;
