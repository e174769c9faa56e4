//! What all readers of texts share: how a reading ends early, how an answer compares with what is said, and the number that digits write.
#![tactic(auto)]

mod digits;
mod stop;

pub use digits::{number_behind, number_within};
pub use stop::{Flaw, Stop};
