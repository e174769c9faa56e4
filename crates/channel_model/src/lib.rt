//! Routing channels and their wirings: what a channel is, when a wiring connects it, and how dense it is.
#![tactic(auto)]

mod channel;
mod has_wiring;
mod nets;
mod reach;
mod spans;
mod wiring;

pub use channel::Channel;
pub use has_wiring::HasWiring;
pub use nets::{nets_of, place_of};
pub use reach::{Reach, reaches};
pub use spans::{cut_density, density};
pub use wiring::{Segment, Via, Wiring};
