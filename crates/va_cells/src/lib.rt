//! The marks and the packed codes of a store's file, on any disk.
//!
//! A file has two regions, each with marks and a packed code for each place. The header selects the one that
//! counts. Marks and codes are written where nothing counts yet: the codes of a place whose gate is closed, and all
//! of the region that isn't selected. [`select`] makes the other region the one that counts, by a commit. All is read
//! in pieces of at most 4,096 bytes, each once: marks by [`read_marks`], codes by a scan through [`Pages`].
#![tactic(auto)]

mod fault;
mod naming;
mod pages;
mod reading;
mod selecting;
#[cfg(test)]
mod tests;
mod writing;

pub use fault::CellsFault;
pub use naming::{names_cell, unpack_cell};
pub use pages::Pages;
pub use reading::read_marks;
pub use selecting::select;
pub use writing::{put_code, put_marks};
