//! The layout of a routed design: where channels, rows, cells and feeds lie, with the rectangles of wires or without.

use feed_cells::Item;
use geom_core::{Items, Place};
use std::marker::Model;
use wire_geom::Drawn;

/// A cell or a feed, and where it lies in half centimicrons: its lower left corner, or of a mirrored cell the lower right one.
#[derive(Clone, Copy, Debug)]
pub struct PlacedItem {
    pub item: Item,
    pub place: Place,
}

/// The layout of a routed design: the lower edges of its channels and rows and the heights of the rows in units, the items of each row from left to right, the
/// risers of each row and the rectangles of each channel with their nets, and its width and height in centimicrons. Contracts see the lists.
#[derive(Debug, Drop)]
pub struct Placed {
    pub channel_base: Items<u32>,
    pub row_base: Items<u32>,
    pub row_height: Items<u32>,
    pub cells: Items<Items<PlacedItem>>,
    pub risers: Items<Items<Drawn>>,
    pub shapes: Items<Items<Drawn>>,
    pub width: u64,
    pub height: u64,
}

impl Model for Placed {
    ghost use Rattle.channel_stack.specs.Stack.{Stacked};
    ghost use Rattle.channel_stack.specs.StackView.{stacked_in};

    ghost Value = { Stacked };

    ghost view = { stacked_in };
}

/// The layout of a routed design without the rectangles of its channels: the lower edges of its channels and rows and the heights of the rows in units, the items
/// of each row from left to right, the risers of each row, and its width and height in centimicrons. Contracts see the lists.
#[derive(Debug, Drop)]
pub struct Laid {
    pub channel_base: Items<u32>,
    pub row_base: Items<u32>,
    pub row_height: Items<u32>,
    pub cells: Items<Items<PlacedItem>>,
    pub risers: Items<Items<Drawn>>,
    pub width: u64,
    pub height: u64,
}

impl Model for Laid {
    ghost use Rattle.channel_stack.specs.Stack.{LaidOut};
    ghost use Rattle.channel_stack.specs.LaidView.{laid_in};

    ghost Value = { LaidOut };

    ghost view = { laid_in };
}
