//! Two searches that go over the cells of a shelf once, in the order of their places: the k nearest, and all within a
//! radius.
#![tactic(auto)]

mod nearest;
mod radius;
#[cfg(test)]
mod tests;

pub use nearest::scan_nearest;
pub use radius::within;
