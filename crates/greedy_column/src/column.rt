//! Tracks with their ids, the state between two columns, and the record of one column.

use geom_core::Items;
use std::alloc::{AllocError, Global};

/// A track of the sweep: its id, above 0, and the net that holds it, 0 where it is free.
#[derive(Clone, Copy, Debug, PartialEq, Eq)]
pub struct Track {
    pub id: u32,
    pub net: u32,
}

/// The tracks after some columns, from bottom to top, and the first id that none has had. `fresh` is above 0, and the ids are
/// above 0, below `fresh` and all different.
#[derive(Debug, Drop)]
pub struct ColumnState {
    pub order: Items<Track>,
    pub fresh: u32,
}

/// A track that a column adds: its id, and how many tracks lie below it as it is added.
#[derive(Clone, Copy, Debug, PartialEq, Eq)]
pub struct Made {
    pub id: u32,
    pub below: u32,
}

/// The record of one column of the sweep. Tracks are named by their ids.
#[derive(Debug, Drop)]
pub struct Column {
    /// The tracks that the column adds, in the order of their addition.
    pub made: Items<Made>,
    /// The track that the top pin enters, or two equal pins; 0 where there is none.
    pub top: u32,
    /// The track that the bottom pin enters, 0 where there is none.
    pub bottom: u32,
    /// Whether two equal pins are joined from edge to edge.
    pub straight: bool,
    /// The joins in their order, each as its lower and its upper track.
    pub joins: Items<(u32, u32)>,
    /// The tracks that end, in ascending order of ids.
    pub ended: Items<u32>,
    /// The moves in their order, each from one track to another.
    pub moves: Items<(u32, u32)>,
}

impl ColumnState {
    ghost use Rattle.channel_model.specs.Pins.{Pins};
    ghost use Rattle.greedy_column.specs.Replay.{free_tracks};
    ghost use Rattle.greedy_column.specs.State.{IsState};
    ghost use Rattle.std.specs.Prelude.{◌≡◌, ◌+◌, ◌<◌, ◌^◌, IfOk};

    /// The state before the first column: so many free tracks, with ids from 1 on from the bottom, and the next number as the first new
    /// id. The one error is want of memory.
    pub fn new(alloc: Global, begun: u32) -> Result<ColumnState, AllocError>
        requires few { begun + 1 < 2 ^ 32 }
        ensures first { IfOk result (λ state. state ≡ record { order = free_tracks begun; fresh = begun + 1 }) }
        ensures state { IfOk result (λ state. (pins : Pins) → IsState pins state) }
    {
        let mut order = Vec::new(alloc);
        for number in 0..begun {
            order.push(Track {
                id: number + 1,
                net: 0,
            })?;
        }
        Ok(ColumnState {
            order: Items::new(order),
            fresh: begun + 1,
        })
    }
}
