//! Rows and channels on one another: where each cell, each feed, each riser and each wire of a routed design lies.
#![tactic(auto)]

mod bases;
mod placed;
mod places;
mod risers;
mod stacking;

pub use placed::{Laid, Placed, PlacedItem};
pub use stacking::{lay, stack};
