//! The plain router, which wires every channel: each net owns two tracks and one column of its own.
#![tactic(auto)]

mod router;

pub use router::plain;
