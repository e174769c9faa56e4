//! Simulated annealing of row placements by two of TimberWolf's kinds of move, interchange and mirroring.
#![tactic(auto)]

mod annealing;
mod draws;
mod fault;
mod schedule;
mod temperature;
mod thresholds;

pub use annealing::{CostedRows, anneal, anneal_watched, changes};
pub use draws::{Change, Draws, Proposal};
pub use fault::AnnealFault;
pub use schedule::Schedule;
pub use thresholds::threshold;
