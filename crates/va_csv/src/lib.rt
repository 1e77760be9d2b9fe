//! Vectors as CSV: the records of a text as lines that insert them, and a vector as a record.
//!
//! A record is the id and then the coordinates. What a record is, `csv` decides: fields with commas between them, in quotes or
//! not, of any number, without a header.
#![tactic(auto)]

mod reading;
#[cfg(test)]
mod tests;
mod writing;

pub use reading::lines;
pub use writing::row;
