//! What is told of a layout that was made, and designs that are made from a number.
#![tactic(auto)]

mod made;
mod printing;
mod summary;
mod words;

pub use made::make_design;
pub use printing::print_summary;
pub use summary::{ChannelLine, Summary, Taken};
