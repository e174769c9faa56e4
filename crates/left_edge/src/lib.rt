//! The left-edge router: it wires a channel without vertical constraints in as few tracks as its density, and shows where they are all needed.
#![tactic(auto)]

mod columns;
mod fault;
mod free;
mod fullness;
mod router;
mod spans;
mod sweep;
mod wires;

pub use fault::EdgeFault;
pub use router::{Edge, left_edge};
