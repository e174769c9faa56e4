//! A sweep of a channel, how it ended, and a routed channel: its wiring, which router that is of, and its sweep.

use crate::columns::Columns;
use channel_model::Wiring;
use geom_core::Items;

/// A sweep of a channel: how many free tracks it begins with, the records of its columns, from the left, and the ids of its tracks after
/// the last of them, from bottom to top.
#[derive(Debug, Drop)]
pub struct Sweep {
    pub begun: u32,
    pub columns: Columns,
    pub order: Items<u32>,
}

/// How a sweep ended.
#[derive(Debug, Drop)]
pub enum Swept {
    /// All nets are connected, by this wiring.
    Finished { sweep: Sweep, wiring: Wiring },
    /// It has too many tracks, or took all the columns that it may take and a net still holds a track.
    Over { sweep: Sweep },
}

/// Which router a wiring is of.
#[derive(Clone, Copy, Debug, PartialEq, Eq)]
pub enum By {
    Greedy,
    Plain,
    /// The left-edge router.
    Edge,
}

/// A routed channel: its wiring, which router that is of, and the sweep that was made; by the left-edge router that is one without
/// columns and tracks.
#[derive(Debug, Drop)]
pub struct Routed {
    pub by: By,
    pub wiring: Wiring,
    pub sweep: Sweep,
}

// How many tracks and columns a wiring has.
#[derive(Clone, Copy)]
pub(crate) struct Size {
    pub(crate) tracks: u32,
    pub(crate) columns: u32,
}

impl Size {
    ghost use Rattle.greedy_router.specs.Planning.{is_smaller};
    ghost use Rattle.std.specs.Prelude.{◌≡◌};

    // Whether there are fewer tracks than in another, or as many and fewer columns.
    pub(crate) fn is_smaller(self, other: Size) -> bool
        ensures { result ≡ is_smaller self other }
    {
        self.tracks < other.tracks || (self.tracks == other.tracks && self.columns < other.columns)
    }
}
