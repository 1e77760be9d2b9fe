//! The fixed script of the work mode, line by line: a store of n places is made and filled with n vectors, it is requantized, and
//! then it is searched 32 times.
//!
//! The vectors are drawn from a generator that begins at n, so that a number alone decides the whole script. There is no memory
//! but for the line that is asked for.
#![tactic(auto)]

mod generator;
mod script;
#[cfg(test)]
mod tests;
mod writing;

pub use script::Script;
