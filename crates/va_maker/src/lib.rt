//! Makes the certificate of a search: what a checker needs to see that its answer is right.
//!
//! The search for the k nearest runs over a shelf of this crate's own, which passes each call on and keeps the vectors
//! that are fetched.
#![tactic(auto)]

mod coded;
mod copies;
mod keeping;
mod kept;
mod making;
mod rows;
mod searching;
#[cfg(test)]
mod tests;

pub use making::build;
