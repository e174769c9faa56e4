//! The wires in the channels of a layout: how much there is on each layer, how many cuts, and how much of each net.

use crate::laid::LaidLayout;
use channel_model::{Segment, Wiring};
use std::alloc::{AllocError, Global};

/// How much wire goes along channels and across them, in centimicrons from middle to middle; how many vias there are; and how much wire each net has, by its number.
#[derive(Drop)]
pub(crate) struct Wires {
    pub(crate) along: u64,
    pub(crate) across: u64,
    pub(crate) vias: u64,
    pub(crate) nets: Vec<u64>,
}

// Adds to one of these numbers, if it is there.
fn add(numbers: &mut [u64], at: usize, more: u64) {
    if at < numbers.len() {
        numbers[at] = numbers[at].saturating_add(more);
    }
}

impl Wires {
    // Adds a piece of wire.
    fn take(&mut self, laid: &LaidLayout<'_>, segment: &Segment) {
        match *segment {
            Segment::Along { net, from, to, .. } => {
                let length = laid.columns(to.saturating_sub(from));
                self.along = self.along.saturating_add(length);
                add(self.nets.as_mut_slice(), net as usize, length);
            }
            Segment::Across { net, low, high, .. } => {
                let length = laid.tracks(high.saturating_sub(low));
                self.across = self.across.saturating_add(length);
                add(self.nets.as_mut_slice(), net as usize, length);
            }
        }
    }

    // Adds the wires of a channel.
    fn take_channel(&mut self, laid: &LaidLayout<'_>, wiring: &Wiring) {
        for segment in wiring.segments.items() {
            self.take(laid, segment);
        }
        let vias = wiring.vias.items().len() as u64;
        self.vias = self.vias.saturating_add(vias);
    }

    // The net with the most wire.
    fn longest(&self) -> usize {
        let mut longest: usize = 0;
        let mut most: u64 = 0;
        for (net, length) in self.nets.as_slice().iter().enumerate() {
            if *length > most {
                longest = net;
                most = *length;
            }
        }
        longest
    }

    /// Takes the net with the most wire out, the first of several: its number and its length; None where no net is left that has some.
    pub(crate) fn take_longest(&mut self) -> Option<(usize, u64)> {
        let net = self.longest();
        let length = self.nets.as_slice().get(net).copied().unwrap_or(0);
        if length == 0 {
            return None;
        }
        empty(self.nets.as_mut_slice(), net);
        Some((net, length))
    }
}

// Sets one of these numbers to 0.
fn empty(numbers: &mut [u64], at: usize) {
    if at < numbers.len() {
        numbers[at] = 0;
    }
}

/// The wires in the channels of a layout. The one error is want of memory.
pub(crate) fn wires_of(alloc: Global, laid: &LaidLayout<'_>) -> Result<Wires, AllocError> {
    let count = laid.net_count().saturating_add(1);
    let mut wires = Wires {
        along: 0,
        across: 0,
        vias: 0,
        nets: vec![in alloc; 0u64; count]?,
    };
    for routed in laid.routed {
        wires.take_channel(laid, &routed.wiring);
    }
    Ok(wires)
}
