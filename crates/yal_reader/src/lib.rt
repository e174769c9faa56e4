//! The reader of YAL, the design text of MCNC.
//!
//! A text is tested for bytes above 127, its comments become blanks (`plain`), words and semicolons are found (`tokens`), and
//! the grammar is read from them: words and numbers, the lists of lines and calls, sections, modules. A fault's place is kept as
//! the number of bytes that are left from it on.
#![tactic(auto)]

mod coordinates;
mod fault;
mod file;
mod lists;
mod modules;
mod notation;
mod parts;
mod plain;
mod sections;
mod tokens;
mod word;
mod words;

pub use fault::{YalFault, YalKind};
pub use file::{Call, Flow, Kind, Line, Module, Spot, YalFile};
pub use modules::read_yal;
pub use notation::{Numbers, numbers_of};
