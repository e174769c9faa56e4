//! Seats, each an instance upright or mirrored, and rows of them from the lowest up.

use geom_core::Items;
use std::marker::Model;

/// A place in a row: an instance by its number, mirrored or upright.
#[derive(Clone, Copy, Debug, PartialEq, Eq)]
pub struct Seat {
    pub instance: u32,
    pub mirror: bool,
}

/// Rows of seats, from the lowest row up and in each from left to right. No instance stands in them twice. Contracts see them as lists.
#[derive(Debug, Drop)]
pub struct Rows {
    pub rows: Items<Items<Seat>>,
}

impl Model for Rows {
    ghost use Rattle.std.specs.Prelude.{List};
    ghost use Rattle.row_model.specs.declared.rows.Seat.{Seat};

    ghost Value = { List (List Seat) };

    ghost use Rattle.row_model.specs.RowsView.{rows_of, AreValid};

    ghost view = { rows_of };

    ghost invariant = { AreValid };
}

impl Rows {
    ghost use Rattle.std.specs.Prelude.{◌≡◌};
    ghost use Rattle.row_model.specs.Rows.{AreRows};

    /// The rows of these seats, in which no instance stands twice. Takes no memory.
    pub fn new(rows: Items<Items<Seat>>) -> Rows
        requires { AreRows rows }
        ensures { result ≡ rows }
    {
        Rows { rows }
    }
}
