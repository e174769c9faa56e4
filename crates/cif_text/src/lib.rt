//! The commands of a text in Caltech Intermediate Form, how each is printed, and what a text reads as
//! (Mead and Conway, Introduction to VLSI Systems, 1980: CIF 2.0).
#![tactic(auto)]

mod bytes;
mod calls;
mod command;
mod commands;
mod directions;
mod fault;
mod forms;
mod labels;
mod misfit;
mod numbers;
mod paths;
mod print;
mod reading;
mod transform;

pub use command::{CifCommand, UserKind};
pub use fault::{CifFault, CifKind};
pub use labels::{Label, label_of};
pub use print::{print_command, print_label_end};
pub use reading::read_commands;
