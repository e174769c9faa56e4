//! What the files that a command reads say: rules, a design under them, a layout, a netlist and its cells.
#![tactic(auto)]

mod fault_name;
mod given_rules;
mod layout_file;
mod netlist_files;
mod outcome;
mod stages;
mod texts;

pub use given_rules::load_given_rules;
pub use layout_file::load_layout;
pub use netlist_files::{Cells, load_cells, load_netlist};
pub use stages::{Inputs, load_inputs};
pub use texts::Texts;
