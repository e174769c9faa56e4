//! One column of the greedy channel router of Rivest and Fiduccia (1982), in which every choice is a stored function's.
#![tactic(auto)]

mod ahead;
mod column;
mod desk;
mod ended;
mod ending;
mod entering;
mod free_lines;
mod going_on;
mod grouping;
mod joining;
mod lasts;
mod lines;
mod marks;
mod moment;
mod move_order;
mod moving;
mod pairing;
mod pairs;
mod places;
mod question;
mod span;
mod starts;
mod stepping;
mod stretch;
mod table;
mod tracks;
mod uses;
mod window;

pub use ahead::Ahead;
pub use column::{Column, ColumnState, Made, Track};
pub use desk::Desk;
pub use span::Span;
pub use stepping::{pin_in, step, step_with};
