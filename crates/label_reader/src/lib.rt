//! The layout of a CIF text whose cells are told by labels, as KLayout and Magic save a layout that had them.
//!
//! KLayout drops the names of calls and saves the main level as a definition that nothing calls; Magic saves a definition before those that it calls. `labelled` of `specs` states
//! which commands give which layout or refusal.
#![tactic(auto)]

mod defining;
mod definitions;
mod labels;
mod naming;
mod reading;
mod tops;

pub use reading::expand_labelled;
