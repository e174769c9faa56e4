//! The shapes of a cell, and the least rectangles round shapes.
#![tactic(auto)]

mod cells;
mod extents;

pub use cells::{cell_extent, shapes_of};
pub use extents::{around, extent_of};
