//! A channel with what all its sweeps ask of it: the number of nets, the cut density, and the nets' next pins.

ghost use Rattle.channel_model.specs.Density.{cut_density_of};
ghost use Rattle.channel_model.specs.Limits.{most_extra, most_tracks};
ghost use Rattle.channel_model.specs.Nets.{nets_of};
ghost use Rattle.greedy_column.specs.Ahead.{IsAhead};
ghost use Rattle.greedy_router.specs.Begun.{begun_of};
ghost use Rattle.limits.specs.declared.TheConstants.{MOST_COLUMNS};
ghost use Rattle.std.specs.Prelude.{◌≡◌, ◌+◌, ◌*◌, ◌≤◌, IfOk, length};

use crate::run_limits::Limits;
use channel_model::{Channel, cut_density, nets_of};
use greedy_column::Ahead;
use std::alloc::{AllocError, Global};

// A channel with what its sweeps ask of it, which is found once for all of them.
#[derive(Drop)]
pub(crate) struct Surveyed<'c> {
    pub(crate) channel: &'c Channel,
    pub(crate) nets: u32,
    pub(crate) cut_density: u32,
    pub(crate) ahead: Ahead,
    ghost counted: { nets ≡ length (nets_of channel.now) },
    ghost few: { nets ≤ 2 * MOST_COLUMNS },
    ghost dense: { cut_density ≡ cut_density_of channel.now },
    ghost told: { IsAhead channel.now ahead },
}

// How many nets a channel has.
fn net_count(alloc: Global, channel: &Channel) -> Result<u32, AllocError>
    ensures count { IfOk result (λ nets. nets ≡ length (nets_of channel.now)) }
    ensures few { IfOk result (λ nets. nets ≤ 2 * MOST_COLUMNS) }
{
    // There are no more pins than 4,000,000 columns have.
    let _ = &channel.top;
    let nets = nets_of(alloc, channel)?;
    Ok(nets.len() as u32)
}

impl<'c> Surveyed<'c> {
    // Finds it for a channel.
    pub(crate) fn new(alloc: Global, channel: &'c Channel) -> Result<Surveyed<'c>, AllocError>
        ensures { IfOk result (λ surveyed. surveyed.channel.now ≡ channel.now) }
    {
        let nets = net_count(alloc, channel)?;
        let cut_density = cut_density(alloc, channel)?;
        Ok(Surveyed {
            channel,
            nets,
            cut_density,
            ahead: Ahead::new(alloc, channel)?,
        })
    }

    // How many free tracks a sweep of this share begins with.
    pub(crate) fn begun(&self, share: u32) -> u32
        ensures begun { result ≡ begun_of share self.now.channel.now }
        ensures few { result ≤ 4 * MOST_COLUMNS }
    {
        let most = 2 * self.nets as u64;
        let wanted = self.cut_density as u64 * share as u64 / 100;
        most.min(wanted) as u32
    }

    // What a router may take for the channel: two tracks for each net, and a column for each beyond the channel's.
    pub(crate) fn limits(&self) -> Limits
        ensures tracks { result.tracks ≡ most_tracks (length (nets_of self.now.channel.now)) }
        ensures extra { result.extra ≡ most_extra (length (nets_of self.now.channel.now)) }
    {
        Limits {
            tracks: 2 * self.nets,
            extra: self.nets,
        }
    }

    // The same with so many tracks.
    pub(crate) fn limits_within(&self, tracks: u32) -> Limits
        ensures tracks { result.tracks ≡ tracks }
        ensures extra { result.extra ≡ most_extra (length (nets_of self.now.channel.now)) }
    {
        Limits {
            tracks,
            extra: self.nets,
        }
    }
}
