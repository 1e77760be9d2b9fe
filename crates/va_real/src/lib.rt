//! The outside itself: a file with standard output as a desk, and standard input as a source.
//!
//! This is the trusted edge. Both types meet the traits of `va_disk`, but they tell nothing of contents and claim
//! no disk model: what a real file holds, what a crash leaves of it, and what a stream gives or takes is not
//! proved. Proved is that each fault is counted, and that `len` is kept as the trait says.
#![tactic(auto)]

mod desk;
mod input;
mod streams;

pub use desk::FileDesk;
pub use input::Input;
pub use streams::Streams;

#[cfg(test)]
mod tests;
