//! Tries of a placement: how many rows each has, its seed, how large its layout is likely to be, and which of several is taken.
#![tactic(auto)]

mod estimating;
mod row_counts;
mod taking;

pub use estimating::estimate;
pub use row_counts::rows_at;
pub use taking::{is_less, seed_at};
