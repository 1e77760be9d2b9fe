//! A store: a map from ids to byte vectors, in a file that a crash can't leave half written.
//!
//! A [`Store`] keeps no disk. It knows the shape of its file, the id of each place that is live, and whether a
//! writing call has failed; each call is handed the disk that it fits. What is true between two calls is `Fits`: the
//! file is as long as its layout, and its open places are those that the store knows. A store whose writing call
//! failed is broken, since its file may hold either state. It writes no more, and is opened anew.
//!
//! The order of the writes is what a crash can't break. A place is laid while its gate is closed, then made stable,
//! and only then opened by one byte, which is stable before `insert` answers. A place is emptied by the same one
//! byte. A new file is blank until all of it is stable: the gate of its header is shut first, also in a file that is
//! too short for one, and is opened last. So what a crash leaves opens as what was kept before the call or after it.
//!
//! Other marks can be built beside the selected ones: `begin` writes them into the region that isn't selected,
//! `convert_one` writes the code of one id after another under them, and `switch` selects that region by one byte. Until
//! then nothing that was written counts, so what a crash leaves opens with the old marks and their codes, or with the new
//! ones and theirs.
//!
//! A call that is added here says which bytes it may touch (`place_ranges`, `gate_range`, `layout_range`), that it
//! leaves the disk fitting, what it leaves of `Stands` (`Becomes`), what a crash inside leaves (`BeforeOrAfter`
//! in its frame), that places which are held stay, and that it answers a fault of the disk exactly where the
//! disk's count rose (`DiskFailsAs`). Its wrong body goes into must-fail: the same steps with the gate set one
//! step early.
#![tactic(auto)]

mod building;
mod changes;
mod creating;
mod deleting;
mod faults;
mod fetching;
mod index;
mod inserting;
mod laying;
mod next_cell;
mod opening;
mod refitting;
mod scanning;
mod shelf;
mod store;
#[cfg(test)]
mod tests;

pub use faults::{CreateFault, DeleteFault, GetFault, InsertFault, OpenFault};
pub use shelf::StoreShelf;
pub use store::Store;
