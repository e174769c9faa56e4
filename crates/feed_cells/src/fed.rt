//! Rows of cells and feeds, with their heights, the width of the widest and the number of nets in each channel.

ghost use Rattle.feed_cells.specs.Fed.{item_width};
ghost use Rattle.std.specs.Prelude.{◌≡◌};

use design_model::Design;
use geom_core::Items;
use row_model::{Seat, columns_of};
use std::marker::Model;

/// What stands in a row: the cell of an instance, or a feed of one column for the net with this number.
#[derive(Clone, Copy, Debug, PartialEq, Eq)]
pub enum Item {
    Cell(Seat),
    Feed(u32),
}

impl Item {
    /// The width in columns: a feed has one. Takes no memory.
    pub fn width(self, design: &Design) -> u32
        ensures { result ≡ item_width design.now self }
    {
        match self {
            Item::Cell(seat) => columns_of(design, seat.instance),
            Item::Feed(_) => 1,
        }
    }
}

/// Rows of cells and feeds, from the lowest row up and in each from left to right; the height of each row in units; the width of the widest row in columns; and
/// for each channel, from channel 0 below row 0 to the one above the last row, how many nets stand in it. Contracts see the lists.
#[derive(Debug, Drop)]
pub struct FedRows {
    pub rows: Items<Items<Item>>,
    pub heights: Items<u32>,
    pub width: u64,
    pub nets: Items<u32>,
}

impl Model for FedRows {
    ghost use Rattle.feed_cells.specs.Fed.{Fed};
    ghost use Rattle.feed_cells.specs.FedView.{fed_in};

    ghost Value = { Fed };

    ghost view = { fed_in };
}
