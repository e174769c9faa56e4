//! Notes for people on a layout that was made: its size, how full it is, its wires, its channels, its longest nets and its cost.
#![tactic(auto)]

mod crossings;
mod laid;
mod lengths;
mod noting;
mod wires;

pub use laid::LaidLayout;
pub use noting::note_layout;
