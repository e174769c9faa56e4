//! Routes a channel by the left edges of its nets where it has no vertical constraint, and else by a sweep.

ghost use Rattle.channel_model.specs.Limits.{most_extra, most_tracks};
ghost use Rattle.channel_model.specs.Nets.{nets_of};
ghost use Rattle.channel_model.specs.Wired.{Wired};
ghost use Rattle.greedy_router.specs.Answers.{IsChannelRouted, IsEdgeRouted, IsRoutedOr, IsWithinLimits};
ghost use Rattle.greedy_router.specs.Begun.{begun_of};
ghost use Rattle.greedy_router.specs.declared.sweep.By.TheVariants.{Edge};
ghost use Rattle.left_edge.specs.Columns.{IsConstrained, IsUnconstrained};
ghost use Rattle.std.specs.Prelude.{◌≡◌, [], IfNone, IfOk, IfSome, ℕ, length, true};

use crate::columns::Columns;
use crate::routing::route_with;
use crate::run_limits::{Limits, Start};
use crate::sweep::{By, Routed, Sweep};
use channel_model::{Channel, Wiring};
use choose_core::{Chooser, Chooses};
use geom_core::Items;
use left_edge::{EdgeFault, left_edge};
use std::alloc::{AllocError, Global};

// A wiring of the left-edge router as a routed channel, without a sweep.
fn unswept(alloc: Global, wiring: Wiring) -> Routed
    ensures by { result.by ≡ Edge }
    ensures wiring { result.wiring ≡ wiring }
    ensures sweep { result.sweep ≡ record { begun = 0; columns = []; order = [] } }
{
    Routed {
        by: By::Edge,
        wiring,
        sweep: Sweep {
            begun: 0,
            columns: Columns::new(alloc),
            order: Items::new(Vec::new(alloc)),
        },
    }
}

// Routes a channel by the left edges of its nets, unless it has a vertical constraint.
pub(crate) fn route_free(alloc: Global, channel: &Channel) -> Result<Option<Routed>, AllocError>
    ensures routed { IfOk result (λ found. IfSome found (λ routed. IsEdgeRouted channel.now routed)) }
    ensures wired { IfOk result (λ found. IfSome found (λ routed. Wired channel.now routed.wiring)) }
    ensures within { IfOk result (λ found. IfSome found (λ routed. IsWithinLimits channel.now routed.wiring)) }
    ensures free { IfOk result (λ found. IfSome found (λ _. IsUnconstrained channel.now)) }
    ensures constrained { IfOk result (λ found. IfNone found ((column : ℕ) × IsConstrained channel.now column)) }
{
    match left_edge(alloc, channel) {
        Ok(edge) => Ok(Some(unswept(alloc, edge.wiring))),
        Err(EdgeFault::Constrained(_)) => Ok(None),
        Err(EdgeFault::Memory) => Err(AllocError),
    }
}

// Routes a channel by its left edges or a sweep, for all that chooses.
fn route_edge_with<C: Chooses>(
    alloc: Global,
    channel: &Channel,
    start: Start,
    limits: Limits,
    chooser: &C,
) -> Result<Routed, AllocError>
    ensures routed { IfOk result (λ routed.
        IsRoutedOr true (λ one. IsChannelRouted start.manner (begun_of start.share channel.now) (C.answers chooser.now) channel.now
        limits.tracks limits.extra one) channel.now routed) }
    ensures wired { IfOk result (λ routed. Wired channel.now routed.wiring) }
    ensures within { IfOk result (λ routed. limits.tracks ≡ most_tracks (length (nets_of channel.now))
        → limits.extra ≡ most_extra (length (nets_of channel.now)) → IsWithinLimits channel.now routed.wiring) }
{
    match route_free(alloc, channel)? {
        Some(routed) => Ok(routed),
        None => route_with(alloc, channel, start, limits, chooser),
    }
}

/// Routes a channel without vertical constraints by the left edges of its nets, in as many tracks as its density and without a sweep, and
/// any other as `route_channel` does. The one error is want of memory.
pub fn route_edge(
    alloc: Global,
    channel: &Channel,
    start: Start,
    limits: Limits,
    chooser: &Chooser,
) -> Result<Routed, AllocError>
    ensures routed { IfOk result (λ routed.
        IsRoutedOr true (λ one. IsChannelRouted start.manner (begun_of start.share channel.now) (⟦<Chooser as Chooses>⟧.answers chooser.now)
        channel.now limits.tracks limits.extra one) channel.now routed) }
    ensures wired { IfOk result (λ routed. Wired channel.now routed.wiring) }
    ensures within { IfOk result (λ routed. limits.tracks ≡ most_tracks (length (nets_of channel.now))
        → limits.extra ≡ most_extra (length (nets_of channel.now)) → IsWithinLimits channel.now routed.wiring) }
{
    route_edge_with(alloc, channel, start, limits, chooser)
}
