//! Cell kinds with terminals and positions, instances, pins and nets, and the design that holds them.

use crate::pin_search::find_pin;
use geom_core::{Items, Name};
use std::marker::Model;

/// Where a terminal can be reached: at the cell's top or bottom edge, in the middle of a column, counted from the cell's left side.
#[derive(Clone, Copy, Debug, PartialEq, Eq)]
pub struct Position {
    /// The number of the terminal in its kind.
    pub terminal: u32,
    pub top: bool,
    pub column: u32,
}

/// A terminal of a cell kind. Power terminals have no positions and make no pins.
#[derive(Debug, Drop)]
pub struct Terminal {
    pub name: Name,
    pub power: bool,
}

/// A kind of cell: a used module, with its width in columns, its own height in units, its terminals and their positions. In a `Design` the
/// width is 1 to 100,000,000 and the height at most 200,000,000, each position's column is below the width and no two positions have one
/// side and column; the terminals with positions are just those that are no power terminals.
#[derive(Debug, Drop)]
pub struct CellKind {
    pub name: Name,
    pub columns: u32,
    pub height: u32,
    pub terminals: Items<Terminal>,
    pub positions: Items<Position>,
}

/// An instance: a call of the PARENT module, and the number of its kind.
#[derive(Debug, Drop)]
pub struct Inst {
    pub name: Name,
    pub kind: u32,
}

/// A pin: an instance and a terminal of its kind that is no power terminal, by their numbers, and the number of its net, from 1.
#[derive(Clone, Copy, Debug, PartialEq, Eq)]
pub struct Pin {
    pub instance: u32,
    pub terminal: u32,
    pub net: u32,
}

/// A checked design, whose every value is as `IsNetlist` says: kinds of which each has an instance, at most 20,000 instances
/// with different names, at most 200,000 pins in the order of instances, then terminals, and nets with different names, of
/// which each has a pin.
#[derive(Debug, Drop)]
pub struct Design {
    /// The used modules; an instance gives its kind's place here.
    pub kinds: Items<CellKind>,
    /// The greatest height of a kind in units, at most 200,000,000; 0 where there is no kind.
    pub height: u32,
    /// The calls of the PARENT module; a pin gives its instance's place here.
    pub instances: Items<Inst>,
    pub pins: Items<Pin>,
    /// The signal words of the nets: net n stands at place n - 1.
    pub nets: Items<Name>,
}

impl Model for Design {
    ghost use Rattle.design_model.specs.Netlist.{Netlist};

    ghost Value = { Netlist };

    ghost use Rattle.design_model.specs.DesignView.{netlist_of, IsDesign};

    ghost view = { netlist_of };

    ghost invariant = { IsDesign };
}

impl Design {
    ghost use Rattle.design_model.specs.PinOrder.{instance_terminals, power_at, IsPinAt};
    ghost use Rattle.std.specs.Option.{option_map};
    ghost use Rattle.std.specs.Prelude.{◌≡◌, ◌<◌, ◌≤◌, ◌-◌, ◌↔◌, length, slice_get, true, IfSome, None, Some};

    /// The number of the pin at a terminal of an instance, both by their numbers, which are in range; None exactly where the
    /// terminal is a power terminal. Takes no memory, and steps as the logarithm of the number of pins.
    pub fn pin(&self, instance: u32, terminal: u32) -> Option<u32>
        requires instance { instance < length self.now.instances }
        requires terminal { terminal < length (instance_terminals self.now instance) }
        ensures pin { IfSome result (λ n. IsPinAt self.now.pins n instance terminal) }
        ensures power { (result ≡ None) ↔ (power_at (instance_terminals self.now instance) terminal ≡ Some true) }
    {
        find_pin(self.pins.items(), instance, terminal)
    }

    /// The number of a pin's net, from 1. Takes no memory.
    pub fn net_of(&self, pin: u32) -> u32
        requires { pin < length self.now.pins }
        ensures { option_map (λ p. p.net) (slice_get self.now.pins pin) ≡ Some result }
    {
        self.pins.items()[pin as usize].net
    }

    /// The signal word of net n, from 1 to the number of nets. Takes no memory.
    pub fn net(&self, n: u32) -> &Name
        requires some { 0 < n }
        requires within { n ≤ length self.now.nets }
        ensures { slice_get self.now.nets (n - 1) ≡ Some result.now }
    {
        &self.nets.items()[n as usize - 1]
    }
}
