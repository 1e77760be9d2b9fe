//! The query of a search, and the distance of a vector from it.
//!
//! A query has 1 to 16 objects and one weight for each dimension. The distance of a vector is the sum,
//! over the objects and the dimensions, of the weight times the square of the difference. Room for all
//! 16 objects is taken when a query is made, so adding one takes no memory.
#![tactic(auto)]

mod distance;
mod fault;
mod query;
#[cfg(test)]
mod tests;

pub use fault::QueryFault;
pub use query::Query;
