//! The commands of `cellroute`: from a command's words, a shelf with files and a sink for lines to a layout in CIF, a picture of one or a design in YAL, a status and lines.
#![tactic(auto)]

mod doing;
mod done;
mod drawing;
mod forewarning;
mod heard;
mod importing;
mod judging;
mod report;
mod routing;
mod telling;
mod top;
mod watching;
mod writing;

pub use command_words::Word;
pub use top::{Ended, run};
