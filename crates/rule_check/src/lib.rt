//! Which shapes of a layout break the rules of widths and spaces, and which outlines overlap or stand out of row.
#![tactic(auto)]

mod close;
mod covers;
mod measures;
mod outlines;
mod pairs;
mod rows;
mod shapes;
mod wires;

pub use close::close_pairs;
pub use outlines::{out_of_row, overlaps};
pub use pairs::Pairs;
pub use shapes::{bare_cuts, narrow};
