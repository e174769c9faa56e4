//! How a command ends: what may be refused and why, the status, and the lines that are printed.
#![tactic(auto)]

mod finding_line;
mod line;
mod refusal;
mod stop;

pub use finding_line::{finding_words, instance_of_pin, put_judged};
pub use line::print_line;
pub use refusal::{Limited, Refusal};
pub use stop::Stop;
