//! What is wrong with a layout of a design under rules.
#![tactic(auto)]

mod case;
mod cells;
mod checking;
mod drawings;
mod finding;
mod groups;
mod names;
mod nets;
mod shapes;
mod telling;

pub use checking::check;
pub use finding::Finding;
