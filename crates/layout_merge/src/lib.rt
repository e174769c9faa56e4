//! Shapes merged by layers, so that a layout is judged by the areas that it covers, however a tool has cut them: Magic saves the areas of each layer in strips.
//!
//! `merged_layout` of `specs` states which layout stands for another.
#![tactic(auto)]

mod cells;
mod merging;
mod shapes;

pub use merging::merge_layout;
pub use shapes::MOST_WORK;
