//! The picture of a layout, or of a part of it, as a text of SVG 1.1 that any browser shows.
#![tactic(auto)]

mod cells;
mod colours;
mod escaping;
mod legend;
mod picture;
mod pieces;
mod scale;
mod shapes;
mod texts;
mod view;
mod writing;

pub use picture::{MOST_SHOWN, Picture};
pub use view::{Roles, View};
pub use writing::{put_picture, write_picture};
