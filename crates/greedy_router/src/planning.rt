//! Routes a channel by each sweep of a plan, and keeps the wiring of fewest tracks and then of fewest columns.

ghost use Rattle.channel_model.specs.Wired.{Wired};
ghost use Rattle.greedy_router.specs.Answers.{AreFewest, IsPlanned, IsRoutedAs, IsWithinLimits};
ghost use Rattle.greedy_router.specs.Planning.{better};
ghost use Rattle.greedy_router.specs.Runs.{routed_of};
ghost use Rattle.std.specs.Prelude.{◌≡◌, IfOk, false, true};

use crate::run::Run;
use crate::run_limits::Start;
use crate::running::run_columns;
use crate::surveyed::Surveyed;
use crate::sweep::Routed;
use channel_model::Channel;
use choose_core::{Chooser, Chooses, Plan, Style};
use std::alloc::{AllocError, Global};

// The run of the smaller wiring, and the earlier of two that are alike. One that is past its limits is given up.
fn better<'s>(best: Run<'s>, one: Run<'s>) -> Run<'s>
    ensures given_up { one.entry.over ≡ true → result ≡ best.entry }
    ensures better { one.entry.over ≡ false → routed_of result ≡ better (routed_of best.entry) (routed_of one.entry) }
{
    if one.over {
        return best;
    }
    if one.size().is_smaller(best.size()) {
        one
    } else {
        best
    }
}

// The best run of a plan. A sweep that has more tracks than the best before it is given up, since tracks are never taken away.
fn best_run<'s, C: Chooses>(
    alloc: Global,
    surveyed: &'s Surveyed<'s>,
    chooser: &C,
    plan: &Plan,
) -> Result<Run<'s>, AllocError>
    ensures { IfOk result (λ run. IsPlanned plan.now (C.answers chooser.now) surveyed.now.channel.now (routed_of run)) }
{
    let manner = plan.manner;
    let share = plan.first;
    let start = Start { manner, share };
    let mut best = run_columns(alloc, surveyed, start, surveyed.limits(), chooser)?;
    for share in plan.others.items() {
        let share = *share;
        let start = Start { manner, share };
        let limits = surveyed.limits_within(best.size().tracks);
        let one = run_columns(alloc, surveyed, start, limits, chooser)?;
        best = better(best, one);
    }
    Ok(best)
}

// Routes a channel by the best sweep of a plan, for all that chooses.
pub(crate) fn route_planned<C: Chooses>(
    alloc: Global,
    channel: &Channel,
    chooser: &C,
    plan: &Plan,
) -> Result<Routed, AllocError>
    ensures planned { IfOk result (λ routed. IsPlanned plan.now (C.answers chooser.now) channel.now routed) }
    ensures fewest { IfOk result (λ routed. AreFewest plan.now (C.answers chooser.now) channel.now routed.wiring.tracks) }
    ensures wired { IfOk result (λ routed. Wired channel.now routed.wiring) }
    ensures within { IfOk result (λ routed. IsWithinLimits channel.now routed.wiring) }
{
    // The bounds of the channel's type are known once a field is read.
    let _ = &channel.top;
    let surveyed = Surveyed::new(alloc, channel)?;
    best_run(alloc, &surveyed, chooser, plan)?.routed(alloc)
}

// The same, as a channel that is routed by no other way.
fn route_best_with<C: Chooses>(
    alloc: Global,
    channel: &Channel,
    chooser: &C,
    plan: &Plan,
) -> Result<Routed, AllocError>
    ensures { IfOk result (λ routed. IsRoutedAs false plan.now (C.answers chooser.now) channel.now routed) }
{
    route_planned(alloc, channel, chooser, plan)
}

/// Routes a channel of N nets by the sweeps of a style's plan, the first with 2N tracks and N columns beyond the channel's as
/// `route_channel` does, and keeps the wiring of fewest tracks, of these that of fewest columns, and of these the first. A later sweep is
/// given up once it has more tracks than the best before it, which no columns take away: so no sweep of the plan has fewer tracks than what is
/// kept. Two sweeps are held at a time, and only the best is wired. The one error is want of memory.
pub fn route_best(alloc: Global, channel: &Channel, style: &Style) -> Result<Routed, AllocError>
    ensures { IfOk result (λ routed. IsRoutedAs false style.now.plan (⟦<Chooser as Chooses>⟧.answers style.now.chooser) channel.now routed) }
{
    route_best_with(alloc, channel, &style.chooser, &style.plan)
}
