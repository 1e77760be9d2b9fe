//! The cells and vectors that a search works on, as a trait, and a shelf in memory.
//!
//! A [`Shelf`] lends its marks, gives the places, ids and codes of its cells one by one, and fetches the vectors of
//! places. [`Found`] and [`SearchFault`] are what every search over a shelf answers.
#![tactic(auto)]

mod laws;
mod search;
mod shelf;
#[cfg(test)]
mod tests;
mod tray;
mod tray_cell;

pub use laws::own_cells_lie_between;
pub use search::{Found, SearchFault};
pub use shelf::{Shelf, ShelfFault};
pub use tray::Tray;
