//! The texts of help: what the program does, and each of its commands with its options.
#![tactic(auto)]

mod help;
mod texts;

pub use help::{help_text, put_help};
