//! What a wiring is made of: vertical and horizontal pieces of wire, vias, tracks and columns.

use geom_core::Items;

/// A straight piece of wire in a channel, of one net. Columns are numbered from 0 at the left; tracks are 1 to T from the bottom,
/// line 0 is the channel's lower edge and line T + 1 its upper edge.
#[derive(Clone, Copy, Debug, PartialEq, Eq)]
pub enum Segment {
    /// A vertical piece, in one column, from line `low` up to line `high`, which lies above it.
    Across {
        net: u32,
        column: u32,
        low: u32,
        high: u32,
    },
    /// A horizontal piece, in one track, from column `from` to column `to`, which is not left of it.
    Along {
        net: u32,
        track: u32,
        from: u32,
        to: u32,
    },
}

/// Where the two layers of wires are joined, in a column and on a track.
#[derive(Clone, Copy, Debug, PartialEq, Eq)]
pub struct Via {
    pub net: u32,
    pub column: u32,
    pub track: u32,
}

/// The wires of a channel: its tracks, its columns (those of the channel, and those that the wiring adds on the right), and
/// what lies on them.
#[derive(Debug, Drop)]
pub struct Wiring {
    pub tracks: u32,
    pub columns: u32,
    pub segments: Items<Segment>,
    pub vias: Items<Via>,
}
