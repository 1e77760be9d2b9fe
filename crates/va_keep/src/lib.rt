//! What a search keeps while it goes: the k least of the pairs that are offered one by one, and a queue of the cells that
//! are still to be visited, the least bound first. The room is taken at the start, and none later.
#![tactic(auto)]

mod entry;
mod keep;
mod laws;
mod queue;

pub use entry::Entry;
pub use keep::Keep;
pub use laws::keep_holds_the_answer;
pub use queue::Queue;
