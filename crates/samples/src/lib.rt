//! Sample rules, cells, designs, a layout and a netlist, which tests are made of.
#![tactic(auto)]

mod cells;
mod counter;
mod designs;
mod drawn;
mod rules;

pub use cells::{BUFFER, CELLS, DRIVER, INVERTER, POWERED, RING, THROUGH};
pub use counter::{COUNTER, COUNTER_CELLS, COUNTER_PARENT};
pub use designs::{HEAD, SampleFault, TAIL, design_of, design_text, designed};
pub use drawn::{JOINED_PICTURE, TWO_JOINED};
pub use rules::{RULES, sample_rules};
