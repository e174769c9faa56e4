//! Notes for people: lines of text that are gathered and put to a sink, and places in texts.
#![tactic(auto)]

mod notes;
mod places;
mod shown;

pub use notes::{Notes, put_notes};
pub use places::{Place, line_at, place_at};
pub use shown::push_shown;
