//! From the commands of a CIF text to the layout that they mean, within the limits of the reader.
//!
//! Of each definition it keeps what it draws and calls, how many shapes that makes, a rectangle around them and its depth, so that
//! what passes a limit is refused, and what is not called is left, without being drawn. `expansion` of `specs` states which commands
//! give which layout or refusal.
#![tactic(auto)]

mod bounds;
mod calls;
mod drawing_command;
mod expander;
mod expanding;
mod fault;
mod found;
mod growing;
mod inside;
mod level;
mod limit_passing;
mod near_turn;
mod outside;
mod places;
mod polygons;
mod refusal;
mod scales;
mod standing;
mod symbol_table;
mod table;
mod unscaled;
mod wires;

pub use expander::Expander;
pub use expanding::expand;
pub use fault::{ExpandFault, ExpandKind};
pub use scales::{WideCorner, place_at_scale};
