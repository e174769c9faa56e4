//! The numbers of cells, nets, rows and feeds of a layout, the tracks of its channels, its size and its cost.

use geom_core::Items;
use greedy_router::By;

/// A routed channel in short: its tracks, its columns past those of the placement, and the router of its wiring.
#[derive(Clone, Copy, Debug, PartialEq, Eq)]
pub struct ChannelLine {
    pub tracks: u32,
    pub extra: u32,
    pub by: By,
}

/// Which placement was taken of several: in how many rows its design was set, and the seed by which these were annealed.
#[derive(Clone, Copy, Debug, PartialEq, Eq)]
pub struct Taken {
    pub rows: u32,
    pub seed: u64,
}

/// A layout in short: how many cells, nets, rows and feeds it has, its channels from the lowest up, its width and height in centimicrons, and
/// what its rows cost; and which placement was taken, where there were several.
#[derive(Debug, Drop)]
pub struct Summary {
    pub cells: u32,
    pub nets: u32,
    pub rows: u32,
    pub feeds: u64,
    pub channels: Items<ChannelLine>,
    pub width: u64,
    pub height: u64,
    pub cost: u64,
    pub taken: Option<Taken>,
}
