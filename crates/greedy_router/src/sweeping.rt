//! Sweeps a channel from the left, first its own columns and then further ones, within limits.

ghost use Rattle.greedy_router.specs.Answers.{IsSwept, sweep_of};
ghost use Rattle.greedy_router.specs.Begun.{begun_of};
ghost use Rattle.greedy_router.specs.Sweeps.{Lessens};
ghost use Rattle.std.specs.Prelude.{◌≡◌, IfOk};

use crate::run_limits::{Limits, Start};
use crate::running::run_columns;
use crate::surveyed::Surveyed;
use crate::sweep::Swept;
use channel_model::Channel;
use choose_core::{Chooser, Chooses};
use std::alloc::{AllocError, Global};

// A sweep, for all that chooses.
fn sweep_with<C: Chooses>(
    alloc: Global,
    channel: &Channel,
    start: Start,
    limits: Limits,
    chooser: &C,
) -> Result<Swept, AllocError>
    ensures swept { IfOk result (λ swept. IsSwept start.manner (begun_of start.share channel.now) (C.answers chooser.now) channel.now
        limits.tracks limits.extra swept) }
    ensures lessens { IfOk result (λ swept. Lessens channel.now (sweep_of swept)) }
{
    let surveyed = Surveyed::new(alloc, channel)?;
    run_columns(alloc, &surveyed, start, limits, chooser)?.swept(alloc)
}

/// Sweeps a channel column by column from the left: its own columns, and then further ones, without pins, as long as a net holds
/// a track. The sweep begins with free tracks: `start.share` hundredths of the channel's cut density, and at most two for each net. It is
/// over at the first column after which there are more than `limits.tracks` tracks, or after the channel's columns and `limits.extra`
/// further ones where a net still holds a track; else it has ended, and its wiring connects the channel. Each column is taken in the
/// manner of `start`, and each choice is an answer of the chooser. Each further column leaves fewer tracks held, so that there are never
/// more than the nets hold after the channel's last column. The one error is want of memory.
///
/// Source: Rivest and Fiduccia, A Greedy Channel Router (1982).
pub fn run_sweep(
    alloc: Global,
    channel: &Channel,
    start: Start,
    limits: Limits,
    chooser: &Chooser,
) -> Result<Swept, AllocError>
    ensures swept { IfOk result (λ swept.
        IsSwept start.manner (begun_of start.share channel.now) (⟦<Chooser as Chooses>⟧.answers chooser.now) channel.now
        limits.tracks limits.extra swept) }
    ensures lessens { IfOk result (λ swept. Lessens channel.now (sweep_of swept)) }
{
    sweep_with(alloc, channel, start, limits, chooser)
}
