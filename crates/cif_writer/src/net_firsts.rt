//! The first pin of each net of a design.

ghost use Rattle.cif_writer.specs.Labels.{first_pins};
ghost use Rattle.std.specs.Prelude.{◌≡◌, ◌<◌, ◌-◌, slice_get, IfOk};

use design_model::Design;
use geom_core::Items;
use std::alloc::{AllocError, Global};
use std::marker::Model;

/// The number of the first pin of each net of a design, in the order of the nets. Contracts see the list.
#[derive(Debug, Drop)]
pub struct FirstPins {
    pins: Items<u32>,
}

impl Model for FirstPins {
    ghost use Rattle.std.specs.Prelude.{List, ℕ};

    ghost Value = { List ℕ };

    ghost view = { λ firsts. firsts.pins };
}

impl FirstPins {
    /// The number of the first pin of net n, from 1; None past the nets. Takes no memory.
    pub(crate) fn of(&self, n: u32) -> Option<u32>
        requires { 0 < n }
        ensures { result ≡ slice_get self.now (n - 1) }
    {
        match self.pins.items().get(n as usize - 1) {
            Some(pin) => Some(*pin),
            None => None,
        }
    }
}

/// The first pins of the nets of a design, which labels are written by. The one error is want of memory. Steps as the pins and the nets.
pub fn first_pins(alloc: Global, design: &Design) -> Result<FirstPins, AllocError>
    ensures { IfOk result (λ firsts. firsts ≡ first_pins design.now) }
{
    let pins = design.pins.items();
    let mut left = pins.len();
    let mut firsts = vec![in alloc; left as u32; design.nets.items().len()]?;
    while left > 0 {
        left -= 1;
        firsts[pins[left].net as usize - 1] = left as u32;
    }
    Ok(FirstPins {
        pins: Items::new(firsts),
    })
}
