//! Routes a list of channels, each by the left edges of its nets or by the best sweep of a style's plan.

ghost use Rattle.greedy_router.specs.Answers.{AreRouted, IsRoutedAs};
ghost use Rattle.std.specs.Prelude.{◌≡◌, IfOk};

use crate::edges::route_free;
use crate::planning::route_planned;
use crate::sweep::Routed;
use channel_model::Channel;
use choose_core::{Chooser, Chooses, Plan, Style};
use progress::{Step, Unwatched, Watch};
use std::alloc::{AllocError, Global};

// Routes a channel by its left edges, where that is asked for and it has no vertical constraint, and else by the best sweep of a plan.
fn route_one<C: Chooses>(
    alloc: Global,
    channel: &Channel,
    chooser: &C,
    plan: &Plan,
    edge: bool,
) -> Result<Routed, AllocError>
    ensures { IfOk result (λ routed. IsRoutedAs edge plan.now (C.answers chooser.now) channel.now routed) }
{
    if edge {
        if let Some(routed) = route_free(alloc, channel)? {
            return Ok(routed);
        }
    }
    route_planned(alloc, channel, chooser, plan)
}

// Routes channels, for all that chooses. Of each channel is told when it is routed.
fn route_all<C: Chooses, W: Watch>(
    alloc: Global,
    channels: &[Channel],
    chooser: &C,
    plan: &Plan,
    edge: bool,
    watch: &mut W,
) -> Result<Vec<Routed>, AllocError>
    ensures routed { IfOk result (λ routed. AreRouted edge plan.now (C.answers chooser.now) channels.now routed.items) }
    ensures goes { W.goes watch.old watch.new }
{
    let mut routed = Vec::new(alloc);
    for channel in channels {
        routed.push(route_one(alloc, channel, chooser, plan, edge)?)?;
        watch.told(Step::Routing, routed.len() as u64, channels.len() as u64);
    }
    Ok(routed)
}

/// Routes channels: with `edge` those without vertical constraints by the left edges of their nets, and all others as `route_best` does.
/// The one error is want of memory.
pub fn route_channels(
    alloc: Global,
    channels: &[Channel],
    style: &Style,
    edge: bool,
) -> Result<Vec<Routed>, AllocError>
    ensures { IfOk result (λ routed.
        AreRouted edge style.now.plan (⟦<Chooser as Chooses>⟧.answers style.now.chooser) channels.now routed.items) }
{
    route_channels_watched(alloc, channels, style, edge, &mut Unwatched)
}

/// The same, where one that watches is told of each channel when it is routed.
pub fn route_channels_watched<W: Watch>(
    alloc: Global,
    channels: &[Channel],
    style: &Style,
    edge: bool,
    watch: &mut W,
) -> Result<Vec<Routed>, AllocError>
    ensures routed { IfOk result (λ routed.
        AreRouted edge style.now.plan (⟦<Chooser as Chooses>⟧.answers style.now.chooser) channels.now routed.items) }
    ensures goes { W.goes watch.old watch.new }
{
    route_all(alloc, channels, &style.chooser, &style.plan, edge, watch)
}
