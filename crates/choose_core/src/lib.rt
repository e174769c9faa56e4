//! Stored choices: a function that is handed in and chooses among candidates, beside the fact that it answers within their list;
//! four ways of choosing; and the sweeps that a style tries.
#![tactic(auto)]

mod candidate;
mod chooser;
mod plan;
mod styles;

pub use candidate::{Ask, Candidate, Next};
pub use chooser::{Choice, Chooser, Chooses};
pub use plan::{Manner, Plan, Style};
pub use styles::{deft, high, lean, near};
