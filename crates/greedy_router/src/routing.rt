//! Routes a channel by one sweep, or by the plain router where the sweep passes its limits.

ghost use Rattle.channel_model.specs.Limits.{most_extra, most_tracks};
ghost use Rattle.channel_model.specs.Nets.{nets_of};
ghost use Rattle.channel_model.specs.Wired.{Wired};
ghost use Rattle.greedy_router.specs.Answers.{IsChannelRouted, IsWithinLimits};
ghost use Rattle.greedy_router.specs.Begun.{begun_of};
ghost use Rattle.std.specs.Prelude.{◌≡◌, IfOk, length};

use crate::run_limits::{Limits, Start};
use crate::running::run_columns;
use crate::surveyed::Surveyed;
use crate::sweep::Routed;
use channel_model::Channel;
use choose_core::{Chooser, Chooses};
use std::alloc::{AllocError, Global};

// Routes a channel by a sweep, for all that chooses.
pub(crate) fn route_with<C: Chooses>(
    alloc: Global,
    channel: &Channel,
    start: Start,
    limits: Limits,
    chooser: &C,
) -> Result<Routed, AllocError>
    ensures routed { IfOk result (λ routed. IsChannelRouted start.manner (begun_of start.share channel.now) (C.answers chooser.now) channel.now
        limits.tracks limits.extra routed) }
    ensures wired { IfOk result (λ routed. Wired channel.now routed.wiring) }
    ensures within { IfOk result (λ routed. limits.tracks ≡ most_tracks (length (nets_of channel.now))
        → limits.extra ≡ most_extra (length (nets_of channel.now)) → IsWithinLimits channel.now routed.wiring) }
{
    // The bounds of the channel's type are known once a field is read.
    let _ = &channel.top;
    let surveyed = Surveyed::new(alloc, channel)?;
    run_columns(alloc, &surveyed, start, limits, chooser)?.routed(alloc)
}

/// Routes a channel: by the wiring of its sweep, which begins as `start` says, where that ends within `limits`, and by that of the plain
/// router exactly where the sweep passes these. The sweep is kept in either case. Each choice is an answer of the chooser. The one error is
/// want of memory.
pub fn route_channel(
    alloc: Global,
    channel: &Channel,
    start: Start,
    limits: Limits,
    chooser: &Chooser,
) -> Result<Routed, AllocError>
    ensures routed { IfOk result (λ routed.
        IsChannelRouted start.manner (begun_of start.share channel.now) (⟦<Chooser as Chooses>⟧.answers chooser.now) channel.now
        limits.tracks limits.extra routed) }
    ensures wired { IfOk result (λ routed. Wired channel.now routed.wiring) }
    ensures within { IfOk result (λ routed. limits.tracks ≡ most_tracks (length (nets_of channel.now))
        → limits.extra ≡ most_extra (length (nets_of channel.now)) → IsWithinLimits channel.now routed.wiring) }
{
    route_with(alloc, channel, start, limits, chooser)
}
