//! From the netlist of a mapped design, in BLIF, and the modules of its cells, in YAL, to the PARENT that calls these cells.
//!
//! The joins of a netlist give each net one word (`nets`). Cells are found by their names, with their terminals (`cells`); constant nets that no gate drives are
//! found (`constants`); the terminals of the model and the names of instances are tested (`terminals`, `names`), and each gate becomes a call (`calls`).
#![tactic(auto)]

mod calls;
mod cells;
mod constants;
mod fault;
mod names;
mod nets;
mod parents;
mod terminals;

pub use fault::{ImportFault, ImportFlaw, ImportKind};
pub use parents::parent_of;
