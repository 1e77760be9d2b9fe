//! The checker of certificates, which trusts nobody who made one, and the judge of their texts.
#![tactic(auto)]

mod checking;
mod form;
mod judged;
mod judging;
mod known;
mod laws;
mod lookups;
mod refusal;
mod rows;
mod table;

pub use checking::check;
pub use judged::Judged;
pub use judging::judge;
pub use laws::{accepted_is_judged, made_is_judged};
pub use refusal::{Part, Refusal};

#[cfg(test)]
mod tests;
