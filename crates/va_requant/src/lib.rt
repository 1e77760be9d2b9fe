//! Refitting of the cells: marks are made of the vectors that are live, every live vector gets its cell under them in the
//! region that isn't selected, and then that region is selected by one byte.
//!
//! Between two calls the store answers, takes and drops vectors as ever. What a crash leaves at any moment has the old marks
//! with their cells or the new ones with theirs.
#![tactic(auto)]

mod beginning;
mod converting;
mod progress;
#[cfg(test)]
mod tests;

pub use beginning::{BeginFault, begin};
pub use converting::convert;
pub use progress::Progress;
