//! The model of the program: the lines of an input, the state, what a line does to it, and runs. It has
//! definitions, which the program's contracts cite, and laws about them; no code runs here.
#![tactic(auto)]

mod laws;

pub use laws::{cut_in_one_way, searches_read_least_sets, stopped_in_one_way, told_in_one_way};
