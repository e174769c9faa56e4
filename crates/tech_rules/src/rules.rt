//! The rules of a process, section by section, and the side of a via's pad.

ghost use Rattle.std.specs.Prelude.{◌≡◌};
ghost use Rattle.tech_rules.specs.Rules.{ValidRules, pad};

use crate::sections::{Annealing, Cut, Grid, Outline, Wires};
use geom_core::Name;
use std::marker::Model;

/// The rules of a process, by the sections of a rules file. Every value keeps the ranges that the fields of its sections name, and the
/// twelve rules of `docs/RULES.md`. Lengths are in units, if nothing else is said;
/// what a unit is in a design, `decimals` says.
#[derive(Debug, Drop)]
pub struct Rules {
    /// The version of the rules' format: 1 or 2.
    pub version: u32,
    /// The word that YAL has for the vertical layer: 1 to 32 ASCII letters, digits or `_`.
    pub yal: Name,
    /// How many decimals the numbers of a design have, 0 to 4: 10 to this power units are one in a design. 0 in version 1.
    pub decimals: u32,
    /// The grid of columns, tracks and units.
    pub grid: Grid,
    /// The horizontal wires.
    pub horizontal: Wires,
    /// The vertical wires, on whose layer pins are.
    pub vertical: Wires,
    /// The cuts, which join the two layers of wires.
    pub cut: Cut,
    /// The outlines of cells.
    pub outline: Outline,
    /// How rows are annealed.
    pub annealing: Annealing,
}

impl Model for Rules {
    ghost use Rattle.tech_rules.specs.Rules.{RuleValues};

    ghost Value = { RuleValues };

    ghost use Rattle.tech_rules.specs.RulesView.{values_of, AreValid};

    ghost view = { values_of };

    ghost invariant = { AreValid };
}

impl Rules {
    /// The side of the pad that a via has on each layer of wires: the cut with what encloses it. Takes no memory.
    pub fn pad(&self) -> u32
        ensures valid { ValidRules self.now }
        ensures pad { result ≡ pad self.now }
    {
        self.cut.size + 2 * self.cut.enclose
    }
}
