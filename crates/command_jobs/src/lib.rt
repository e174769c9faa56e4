//! The job of laying a design out: its rows are annealed and get feeds, the best of its tries is routed, and all of it is written.
#![tactic(auto)]

mod job_limits;
mod placing;
mod prepared;
mod routing;
mod summarizing;
mod try_watch;
mod trying;

pub use prepared::{Prepared, Told, lay_out};
