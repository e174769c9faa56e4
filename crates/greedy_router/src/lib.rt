//! The greedy channel router of Rivest and Fiduccia (1982): a sweep of a channel column by column, the wiring of a sweep that
//! has ended, the choice between it and the plain router, the best of several sweeps, and the left edges of a channel that has no
//! vertical constraint.
#![tactic(auto)]

mod by_id;
mod channels;
mod columns;
mod edges;
mod final_order;
mod has_wiring;
mod idle;
mod marks;
mod packed;
mod pieces;
mod planning;
mod routing;
mod run;
mod run_limits;
mod running;
mod surveyed;
mod sweep;
mod sweeping;
mod tables;
mod wiring;

pub use channels::{route_channels, route_channels_watched};
pub use columns::{Columns, LentColumn};
pub use edges::route_edge;
pub use planning::route_best;
pub use routing::route_channel;
pub use run_limits::{Limits, Start};
pub use sweep::{By, Routed, Sweep, Swept};
pub use sweeping::run_sweep;
