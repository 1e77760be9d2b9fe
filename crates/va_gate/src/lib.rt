//! Writes that a crash can't leave half done.
//!
//! A file says that something holds by one byte, a gate: it is open at a fixed value and closed at every
//! other. [`commit`] sets such a byte between two syncs. Whatever was written before it is stable when the
//! gate may first have changed, and a crash leaves the gate open or closed and all else as it was read.
//! [`fill`] writes one byte over a range, for parts of a file that must have a known content.
#![tactic(auto)]

mod filling;
mod gate;
#[cfg(test)]
mod tests;

pub use filling::fill;
pub use gate::commit;
