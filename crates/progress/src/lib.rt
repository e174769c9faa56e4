//! How far a job has come: its steps, and what is told of them as they go.
#![tactic(auto)]

mod watch;

pub use watch::{Step, Unwatched, Watch};
