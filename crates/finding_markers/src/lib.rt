//! The findings of a layout as a report database of KLayout, whose marker browser leads to the place of each.
#![tactic(auto)]

mod items;
mod markers;
mod pins;
mod places;
mod texts;
mod words;

pub use markers::{put_markers, write_markers};
