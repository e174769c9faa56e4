//! Which shapes of a layout are joined.
#![tactic(auto)]

mod asker;
mod cell_ties;
mod joined;
mod places;
mod plane;
mod shapes;
mod starts;
mod tied_shapes;
mod walk;
mod walked;
mod web;

pub use joined::{Extract, classes};
pub use shapes::shape_classes;
