//! Values of a report database of KLayout, texts and boxes, put to a sink as they are made.
#![tactic(auto)]

mod boxes;
mod escaping;
mod lengths;
mod three;

pub use boxes::append_box;
pub use escaping::append_escaped;
pub use lengths::{append_length, append_size};
pub use three::append_three;
