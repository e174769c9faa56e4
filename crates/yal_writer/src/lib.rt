//! Prints a PARENT as a text of YAL, which reads back behind the text of its cells, and writes both into a file.
#![tactic(auto)]

mod printing;
mod writing;

pub use printing::print_parent;
pub use writing::write_yal;
