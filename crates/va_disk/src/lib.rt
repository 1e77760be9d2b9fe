//! The outside as traits: a disk with what a crash may leave of it, a desk that also gives replies, and a
//! source of bytes. `World` and `Feed` are a desk and a source in memory, which fail and crash where a test
//! says; `Loose` is a world that tells nothing, with a byte that changes.
#![tactic(auto)]

mod call;
mod desk;
mod disk;
mod feed;
mod history;
mod loose;
mod plan;
mod rest;
mod source;
mod storage;
mod world;

pub use desk::{Desk, SinkFault, give_all};
pub use disk::{Disk, DiskFault};
pub use feed::Feed;
pub use loose::Loose;
pub use source::{Source, SourceFault};
pub use storage::Storage;
pub use world::World;

#[cfg(test)]
mod tests;
