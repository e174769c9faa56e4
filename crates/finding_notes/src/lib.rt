//! Notes for people on the findings of a layout: where each stands, what it concerns, what was measured and what the rules want.
#![tactic(auto)]

mod cell_notes;
mod drawing_notes;
mod drawn_shapes;
mod enclosing;
mod heads;
mod judged;
mod layer_warnings;
mod lengths;
mod naming;
mod net_notes;
mod noting;
mod owners;
mod pieces;
mod pin_shapes;
mod shape_lines;
mod shape_nets;
mod shape_notes;
mod text_lines;
mod told;
mod untold;
mod ways;

pub use judged::JudgedLayout;
pub use layer_warnings::note_layers;
pub use noting::note_findings;
