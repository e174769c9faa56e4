//! Lists of names, numbered in the order of their first mention, lists by number, and facts about lists.
#![tactic(auto)]

mod lists;
mod names;

pub use lists::Lists;
pub use names::{is_among, is_new, number, place_of};
