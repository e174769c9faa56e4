//! The reader of BLIF, the netlists of mapped designs as logic synthesis writes them.
//!
//! Comments and continued lines become blanks (`plain`), words and the ends of lines are found (`tokens`), and the grammar is read from them: words and pins,
//! tables, gates, and the directives of a model. A fault's place is kept as the number of bytes that are left from it on.
#![tactic(auto)]

mod fault;
mod file;
mod found;
mod gates;
mod models;
mod plain;
mod tables;
mod tokens;
mod word;
mod words;

pub use fault::{BlifFault, BlifKind};
pub use file::{BlifFile, BlifWord, Gate, Join, Pin};
pub use models::read_blif;
