//! Certificates of searches: what one says, when it is accepted, when it is sound, and its text.
#![tactic(auto)]

mod certificate;
mod fault;
mod laws;
mod reading;
mod shape;
mod writing;

pub use certificate::{BoxRow, BoxRows, Certificate, Objects, Taken, Takens};
pub use fault::FormFault;
pub use laws::{accepted_is_sound, made_is_accepted, made_tells, reads_back, text_is_one_line};
pub use reading::from_text;
pub use writing::to_text;
