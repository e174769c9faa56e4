//! Rows that are weighed: what they cost, which is kept while their cells exchange places or are mirrored.
#![tactic(auto)]

mod amount;
mod building;
mod costing;
mod extreme;
mod extremes;
mod few;
mod flat_lists;
mod moving;
mod net_costs;
mod net_pins;
mod nets;
mod pin_places;
mod row_lengths;
mod seats;
mod spans;
mod spreads;
mod standings;
mod summed;
mod trial;
mod weights;
mod widths;

pub use costing::cost;
pub use spans::Spans;
pub use weights::Weights;
