//! Notes for people on what stopped a command: where it is, what is wrong, and what would cure it.
#![tactic(auto)]

mod box_notes;
mod cif_notes;
mod limit_notes;
mod naming;
mod noting;
mod reached;
mod stopping;
mod unread_notes;
mod usage;
mod usage_notes;
mod value_notes;

pub use reached::Reached;
pub use stopping::note_stop;
pub use unread_notes::note_unread;
