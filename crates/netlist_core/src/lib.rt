//! From a YAL file and rules to a checked design, or the first reason why it is none.
#![tactic(auto)]

mod calls;
mod cells;
mod checked;
mod checking;
mod circuit;
mod fault;
mod library;
mod modules;
mod names;
mod nets;
mod numbered;
mod outline;
mod positions;
mod signals;
mod terminals;
mod used;

pub use checking::to_design;
pub use fault::{Count, DesignFault};
