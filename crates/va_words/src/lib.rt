//! The words behind the path of a store, and the mode that they ask for.
//!
//! They are read with `clap`, as the words of one simple command. What it takes beyond the forms is refused before.
#![tactic(auto)]

mod choice;
mod form;
pub mod laws;
mod number;
mod options;
#[cfg(test)]
mod tests;

pub use choice::mode;
pub use form::{Mode, WordsFault};
