//! The searches over a store and its disk, the certificate of one, and cursors: each call lends both to a shelf, and
//! says what it found and read in the words of what the store keeps, or kept when the cursor was opened.
//!
//! A distance outside the bounds of its stored cell is told before a code that has changed, and both before want of
//! memory.
#![tactic(auto)]

mod certifying;
mod fault;
mod ranking;
mod searching;
#[cfg(test)]
mod tests;

pub use certifying::certify;
pub use fault::StoreSearchFault;
pub use ranking::{next_pair, open_cursor};
pub use searching::{find_nearest, find_within, scan_nearest};
