//! Cells with their bounds, and the reading of one: what the searches share.
#![tactic(auto)]

mod cell;
mod reading;

pub use cell::{BoundedCell, next_bounded};
pub use reading::known_distance;
