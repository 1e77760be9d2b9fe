//! The slots and the vectors of a store's file, on any disk.
//!
//! A place is filled in two steps: its id and its vector are laid while its gate is closed, and then the
//! gate is opened by a commit. It is emptied by a commit that closes the gate. So a crash finds a place open or
//! closed, and never half filled.
#![tactic(auto)]

mod reading;
mod slot;
#[cfg(test)]
mod tests;
mod writing;

pub use reading::{fetch, read_slots};
pub use slot::Slot;
pub use writing::{lay, open, shut};
