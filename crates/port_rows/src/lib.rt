//! The ports of a PARENT as cells of a design, and the rows at the lower and the upper edge in which they stand.
#![tactic(auto)]

mod added;
mod clashes;
mod copies;
mod designs;
mod fault;
mod kind_count;
mod names;
mod nets;
mod parent;
mod ported;
mod porting;
mod rows;

pub use designs::Designs;
pub use fault::PortFault;
pub use ported::Ported;
pub use porting::ports;
pub use rows::port_rows;
