//! The language of Zahnibek: the lines that it reads, and the replies that it gives.
//!
//! A line is words with exactly one space between two, and each command has one spelling.
#![tactic(auto)]

mod command;
mod gathered;
pub mod laws;
mod lists;
mod numbers;
mod parsing;
mod queries;
mod reply;
mod room;
mod sending;
#[cfg(test)]
mod tests;

pub use command::{Command, Syntax};
pub use parsing::parse;
pub use reply::{Reply, Why};
pub use room::Room;
pub use sending::send;
