//! The top call: it acts on the store's file for the lines of a source, one reply a line, or for what option words ask.
//!
//! What it keeps true: between two lines what a session holds is that of one state of the model, the file stands for
//! that state's kept part, and so does whatever a crash leaves. The record `Ran` of the specifications is the contract
//! of `run`, a field for each mode of the words.
//!
//! The way of a line: `run_lines` takes a piece of the source, `take_byte` finds where a line ends, `Session::step` has
//! `answer` carry it out, and gives the reply only then. `answer` reads the command and hands it to `obey`, which hands
//! a command to its function, by what it does: `creating`, `writing`, `reading`, `searching`, `certifying`, `ranking`,
//! `refitting`. What commands act on beside the disk is the `Workspace`, which is there once there is a store.
//! `importing` runs the records of a CSV text as lines, `exporting` gives the live vectors as one, and `working` runs
//! the lines of a script without their replies.
//!
//! How a command is added stands in docs/ARCHITECTURE.md. One that puts something into one place proves `Puts`, one
//! that refits cells proves `Refits`, and each has the rest from there; each refusal is `carries_refused`.
//!
//! The wrong body to add: one that gives a reply before the file is stable, or after a fault.
#![tactic(auto)]

mod answer;
mod buffer;
mod certificate;
mod certifying;
mod creating;
mod exporting;
mod importing;
mod obeying;
mod opening;
mod query;
mod ranking;
mod reading;
mod refitting;
mod running;
mod searching;
mod serving;
mod session;
mod status;
mod totals;
mod working;
mod workspace;
mod writing;

pub use running::{run, run_within};
pub use session::Session;
pub use status::Status;

#[cfg(test)]
mod tests;
