//! A sweep as it was made, the size of its wiring before that is made, and the routed channel that it gives.

ghost use Rattle.greedy_column.specs.Tracks.{ids};
ghost use Rattle.std.specs.Prelude.{◌≡◌, IfOk};

use crate::columns::Columns;
use crate::surveyed::Surveyed;
use crate::sweep::{By, Routed, Size, Sweep, Swept};
use crate::wiring::{Wires, wire_columns};
use channel_model::Wiring;
use geom_core::Items;
use greedy_column::{Column, ColumnState, Track};
use plain_router::plain;
use std::alloc::{AllocError, Global};
use std::marker::Model;

// A sweep as it was made: the records of its columns, the state after the last of them, and whether it is past its limits. Contracts see
// the channel, whether the sweep is past its limits, and the sweep.
#[derive(Drop)]
pub(crate) struct Run<'s> {
    pub(crate) surveyed: &'s Surveyed<'s>,
    pub(crate) begun: u32,
    pub(crate) columns: Vec<Column>,
    pub(crate) state: ColumnState,
    pub(crate) over: bool,
}

impl<'s> Model for Run<'s> {
    ghost use Rattle.greedy_router.specs.Runs.{Ran};

    ghost Value = { Ran };

    ghost use Rattle.greedy_router.specs.RunView.{ran_in, IsRan};

    ghost view = { ran_in };

    ghost invariant = { IsRan };
}

// The ids of tracks.
fn ids(alloc: Global, tracks: &[Track]) -> Result<Vec<u32>, AllocError>
    ensures { IfOk result (λ order. order.items ≡ ids tracks.now) }
{
    tracks.iter().map(|track| track.id).collect(alloc)
}

impl<'s> Run<'s> {
    ghost use Rattle.greedy_router.specs.Runs.{routed_of, swept_of};
    ghost use Rattle.greedy_router.specs.Planning.{size_of};
    ghost use Rattle.greedy_router.specs.SweepWiring.{wiring_of};
    ghost use Rattle.std.specs.Prelude.{◌≡◌, IfOk};

    // How large the wiring is that the channel is given, before it is made.
    pub(crate) fn size(&self) -> Size
        ensures { result ≡ size_of (routed_of self.now).wiring }
    {
        if self.over {
            let surveyed = self.surveyed;
            let channel = surveyed.channel;
            Size {
                tracks: 2 * surveyed.nets,
                columns: channel.top.items().len() as u32 + surveyed.nets,
            }
        } else {
            Size {
                tracks: self.state.order.items().len() as u32,
                columns: self.columns.len() as u32,
            }
        }
    }

    // The sweep in little room.
    fn sweep(&self, alloc: Global) -> Result<Sweep, AllocError>
        ensures { IfOk result (λ sweep. sweep ≡ self.now.sweep) }
    {
        let order = ids(alloc, self.state.order.items())?;
        let columns = Columns::pack(alloc, self.columns.as_slice())?;
        Ok(Sweep {
            begun: self.begun,
            columns,
            order: Items::new(order),
        })
    }

    // The wiring of the sweep.
    fn wiring(&self, alloc: Global) -> Result<Wiring, AllocError>
        ensures { IfOk result (λ wiring. wiring ≡ wiring_of self.now.pins self.now.sweep) }
    {
        let Wires {
            mut segments,
            mut vias,
        } = wire_columns(alloc, self)?;
        segments.shrink_to_fit();
        vias.shrink_to_fit();
        Ok(Wiring {
            tracks: self.state.order.items().len() as u32,
            columns: self.columns.len() as u32,
            segments: Items::new(segments),
            vias: Items::new(vias),
        })
    }

    // How the sweep ended, with its wiring where it is not past its limits.
    pub(crate) fn swept(&self, alloc: Global) -> Result<Swept, AllocError>
        ensures { IfOk result (λ swept. swept ≡ swept_of self.now) }
    {
        let sweep = self.sweep(alloc)?;
        if self.over {
            return Ok(Swept::Over { sweep });
        }
        let wiring = self.wiring(alloc)?;
        Ok(Swept::Finished { sweep, wiring })
    }

    // The channel, routed by the sweep, or by the plain router where the sweep is past its limits.
    pub(crate) fn routed(&self, alloc: Global) -> Result<Routed, AllocError>
        ensures { IfOk result (λ routed. routed ≡ routed_of self.now) }
    {
        let surveyed = self.surveyed;
        match self.swept(alloc)? {
            Swept::Finished { sweep, wiring } => Ok(Routed {
                by: By::Greedy,
                wiring,
                sweep,
            }),
            Swept::Over { sweep } => Ok(Routed {
                by: By::Plain,
                wiring: plain(alloc, surveyed.channel)?,
                sweep,
            }),
        }
    }
}
