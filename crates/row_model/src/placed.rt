//! A design beside rows that hold each of its instances once.

use crate::rows::{Rows, Seat};
use design_model::Design;
use geom_core::Items;
use limits::MOST_PLACED_ROWS;
use std::marker::Model;

/// Rows of a design that hold each of its instances once, which every value keeps. Contracts see the design and the rows.
#[derive(Drop)]
pub struct PlacedRows<'r> {
    design: &'r Design,
    rows: &'r Rows,
}

impl<'r> Model for PlacedRows<'r> {
    ghost use Rattle.row_model.specs.Placed.{Placing};

    ghost Value = { Placing };

    ghost use Rattle.row_model.specs.PlacedView.{placing_in, IsPlacing};

    ghost view = { placing_in };

    ghost invariant = { IsPlacing };
}

impl<'r> PlacedRows<'r> {
    ghost use Rattle.design_model.specs.Netlist.{IsNetlist};
    ghost use Rattle.row_model.specs.NearStands.{AreShort};
    ghost use Rattle.row_model.specs.Placed.{Placing};
    ghost use Rattle.row_model.specs.Rows.{ArePlaced};
    ghost use Rattle.std.specs.Prelude.{◌≡◌, ◌<◌, ◌≤◌, length};

    /// These rows of a design. Takes no memory.
    pub fn new(design: &'r Design, rows: &'r Rows) -> PlacedRows<'r>
        requires { ArePlaced design.now rows.now }
        ensures { result ≡ record { design = design.entry.now; rows = rows.entry.now } }
    {
        // The bounds of the design's type are known once a field is read.
        let _pins = &design.pins;
        PlacedRows { design, rows }
    }

    /// The design.
    pub fn design(&self) -> &'r Design
        ensures is { result.now ≡ self.now.design }
        ensures good { IsNetlist self.now.design }
    {
        self.design
    }

    /// The rows: one to 514, each of at most 20,000 seats.
    pub fn rows(&self) -> &'r [Items<Seat>]
        ensures is { result.now ≡ self.now.rows }
        ensures placed { ArePlaced self.now.design self.now.rows }
        ensures some { 0 < length self.now.rows }
        ensures few { length self.now.rows ≤ MOST_PLACED_ROWS }
        ensures short { AreShort self.now.rows }
    {
        let rows = self.rows;
        rows.rows.items()
    }
}
