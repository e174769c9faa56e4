//! How many pins and outputs the nets of a design have.

use crate::flows::{KindFlows, is_output_of};
use design_model::{Design, Pin};
use std::alloc::{AllocError, Global};

/// What is counted of a net: its pins and those that are outputs, and the numbers of its first pin and of its first two outputs.
#[derive(Clone, Copy, Debug)]
pub(crate) struct NetCount {
    pub pins: u32,
    pub outputs: u32,
    pub first: u32,
    pub one: u32,
    pub other: u32,
}

impl NetCount {
    // Nothing counted yet.
    fn none() -> NetCount {
        NetCount {
            pins: 0,
            outputs: 0,
            first: 0,
            one: 0,
            other: 0,
        }
    }

    // The same with one more pin, of this number, which is an output or not.
    fn with_pin(self, number: u32, output: bool) -> NetCount {
        let mut counted = self;
        if self.pins == 0 {
            counted.first = number;
        }
        counted.pins = self.pins.saturating_add(1);
        if output {
            if self.outputs == 0 {
                counted.one = number;
            }
            if self.outputs == 1 {
                counted.other = number;
            }
            counted.outputs = self.outputs.saturating_add(1);
        }
        counted
    }
}

// Whether a pin is an output.
fn is_driving(design: &Design, flows: &[KindFlows], pin: &Pin) -> bool {
    match design.instances.items().get(pin.instance as usize) {
        Some(instance) => is_output_of(flows, instance.kind, pin.terminal),
        None => false,
    }
}

/// The counts of the nets of a design, net n at place n - 1. The one error is want of memory.
pub(crate) fn net_counts(
    alloc: Global,
    design: &Design,
    flows: &[KindFlows],
) -> Result<Vec<NetCount>, AllocError> {
    let mut counts = Vec::new(alloc);
    for _net in design.nets.items() {
        counts.push(NetCount::none())?;
    }
    let mut number = 0u32;
    for pin in design.pins.items() {
        let output = is_driving(design, flows, pin);
        if let Some(count) = counts.get_mut((pin.net as usize).saturating_sub(1)) {
            *count = count.with_pin(number, output);
        }
        number = number.saturating_add(1);
    }
    Ok(counts)
}
