//! The words of the commands of `cellroute`: what a command's name and its arguments ask for.
#![tactic(auto)]

mod box_word;
mod command;
mod draw;
mod import;
mod number_word;
mod parser;
mod topic;
mod values;
mod word;

pub use command::{Check, Command, Route, Source, Wanted, WordsFault, read_command};
pub use draw::Draw;
pub use import::Import;
pub use number_word::{MOST_TRIES, MadeCount, RowCount, TryCount};
pub use topic::Topic;
pub use word::Word;
