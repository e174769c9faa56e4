//! Notes for people on a design that is read: what is allowed, and most likely not meant.
#![tactic(auto)]

mod flows;
mod nets;
mod terminals;
mod warning;

pub use warning::note_design;
