//! Cuts the areas of paths into rectangles, a wire into one for each step and a polygon into its maximal blocks, and merges rectangles into
//! the maximal blocks of what they cover together.
#![tactic(auto)]

mod area;
mod edges;
mod falls;
mod fault;
mod found;
mod heights;
mod lined;
mod lines;
mod marks;
mod merging;
mod polygon;
mod strip;
mod wire;

pub use fault::CutFault;
pub use merging::merge;
pub use polygon::cut;
pub use wire::strokes;
