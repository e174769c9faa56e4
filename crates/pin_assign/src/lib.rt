//! Channel tables: which net enters which channel in which column; and the size that a routing of them can have.
#![tactic(auto)]

mod bound;
mod bounding;
mod entries;
mod rows_beside;
mod tabling;

pub use bound::Bound;
pub use bounding::bound_of;
pub use tabling::channels;
