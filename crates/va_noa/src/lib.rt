//! The search for the k nearest that reads the least set of vectors.
#![tactic(auto)]

mod filling;
mod search;
#[cfg(test)]
mod tests;
mod visiting;

pub use search::nearest;
