//! What is wrong with rules, with a design, or with a netlist and its cells, in words, and where: read from the text once more.
#![tactic(auto)]

mod blif_notes;
mod design_again;
mod design_notes;
mod gate_notes;
mod import_notes;
mod module_notes;
mod netlist_again;
mod number_notes;
mod pin_notes;
mod rules_notes;
mod shape_notes;
mod tight_notes;
mod word_notes;
mod yal_notes;

pub use blif_notes::told_of_blif;
pub use design_again::{TextsRead, numbers_again, rules_again};
pub use design_notes::{told_of_design, told_of_port_clash};
pub use import_notes::told_of_import;
pub use netlist_again::NetlistRead;
pub use number_notes::NumbersBy;
pub use rules_notes::told_of_rules;
pub use yal_notes::told_of_yal;
