//! Rectangles, turns, layouts and the list types that every crate above speaks of.
#![tactic(auto)]

mod corner;
mod items;
mod layer;
mod layout;
mod name;
mod rect;
mod shapes_in_reach;
mod turn;

pub use corner::Corner;
pub use items::Items;
pub use layer::LayerName;
pub use layout::{Cell, Layout, Shape};
pub use name::Name;
pub use rect::{Rect, gap, inside, touch};
pub use shapes_in_reach::ShapesInReach;
pub use turn::{Place, Turn, moved};
