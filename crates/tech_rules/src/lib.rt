//! The rules of a process: the grid, the layers with their widths and spaces, and the cut; and the rules file that states them.
#![tactic(auto)]

mod document;
mod fault;
mod key;
mod reading;
mod rules;
mod sections;
mod stated;

pub use fault::RulesFault;
pub use key::Key;
pub use reading::read_rules;
pub use rules::Rules;
pub use sections::{Annealing, Cut, Grid, Outline, StartBy, Wires};
