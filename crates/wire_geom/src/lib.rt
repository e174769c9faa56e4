//! The geometry of wires: what the wiring of a channel is drawn as on the layers of the mask.
#![tactic(auto)]

mod boxes;
mod drawing;
mod drawn;

pub use drawing::{draw, shape_at, shapes, upright};
pub use drawn::Drawn;
