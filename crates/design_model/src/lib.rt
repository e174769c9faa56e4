//! A checked design: its cell kinds on the grid, instances, pins and nets; the drawing of a kind; and what a good layout of it is.
#![tactic(auto)]

mod design;
mod pin_search;
mod shapes;

pub use design::{CellKind, Design, Inst, Pin, Position, Terminal};
pub use shapes::drawing;
