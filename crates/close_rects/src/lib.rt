//! Rectangles by their places: which of them lie close to each other, which of those that are left meets a given one, and which holds it.
#![tactic(auto)]

mod blocks;
mod bounds;
mod crowd;
mod crowding;
mod indexed;
mod items;
mod kin;
mod member;
mod members;
mod order;
mod plane;
mod reach;
mod rect_set;
mod scan;
mod span;

pub use crowding::first_pairs;
pub use member::Member;
pub use plane::in_plane;
pub use rect_set::RectSet;
pub use scan::Scan;
