//! Where everything stands in a store's file, and what a file stands for.
//!
//! A file has a header of 32 bytes, a table of slots (a gate, three spare bytes and an id for each place), two
//! regions A and B of equal length (marks, and then a packed code for each place), and the vectors. The
//! header says which region is selected. All numbers are big-endian.
#![tactic(auto, using(va_core::proofs::Shapes::slices_within, crate::proofs::Sizes::codes_small, crate::proofs::Sizes::vectors_small, crate::proofs::Sizes::code_small, crate::proofs::Sizes::region_is))]

mod header;
mod laws;
mod layout;
mod region;
#[cfg(test)]
mod tests;
mod writing;

pub use header::{HeadFault, Header};
pub use laws::{blank_stands_for_none, own_codes_name_cells, parts_follow_on, stands_for_one};
pub use layout::Layout;
pub use region::Region;
pub use writing::write_part;
