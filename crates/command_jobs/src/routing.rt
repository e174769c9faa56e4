//! The routed channels between rows with feeds.

ghost use Rattle.channel_stack.specs.Routed.{AreWired, IsRouted};
ghost use Rattle.command_ends.specs.Answers.{Answers};
ghost use Rattle.command_ends.specs.Refusing.{unless};
ghost use Rattle.command_ends.specs.Status.{refusal_status};
ghost use Rattle.command_jobs.specs.Limits.{size_refusal};
ghost use Rattle.command_jobs.specs.Text.{wirings_of};
ghost use Rattle.feed_cells.specs.Fed.{IsFed, cells_in};
ghost use Rattle.feed_cells.specs.Placement.{placement_of};
ghost use Rattle.greedy_router.specs.Answers.{AreRouted};
ghost use Rattle.pin_assign.specs.Bounds as pins;
ghost use Rattle.pin_assign.specs.Tables.{tables_of};
ghost use Rattle.std.specs.Prelude.{◌≡◌, ◌≢◌, ◌≤◌, IfErr, IfOk, Ok};

use crate::job_limits::size_refusal;
use channel_model::Channel;
use choose_core::{Chooser, Chooses, Style};
use command_ends::Refusal;
use design_model::Design;
use feed_cells::{FedRows, Placement};
use greedy_router::{Routed, route_channels_watched};
use limits::MOST_COLUMNS;
use pin_assign::{bound_of, channels};
use progress::Watch;
use std::alloc::Global;
use tech_rules::Rules;

/// The channels between rows with feeds, from the lowest up, and each of them routed.
#[derive(Drop)]
pub(crate) struct RoutedRows {
    pub channels: Vec<Channel>,
    pub routed: Vec<Routed>,
}

/// The channels between the rows with feeds of the design that is drawn, routed by a style, or by the left edges where that is wished for and a channel allows it, if the layout is
/// within the limits. The placement of pins and nets is given up. One that watches is told of the channels.
pub(crate) fn route_rows<W: Watch>(
    alloc: Global,
    drawn: &Design,
    rules: &Rules,
    fed: &FedRows,
    placement: Placement,
    style: &Style,
    edge: bool,
    watch: &mut W,
) -> Result<RoutedRows, Refusal>
    requires fed { IsFed drawn.now fed.now }
    requires placement { placement ≡ placement_of drawn.now (cells_in fed.now.rows) }
    ensures made { Answers (λ rows. fed.now) result (unless (size_refusal (pins.bound_of rules.now drawn.now fed.now)) (Ok fed.now)) }
    ensures narrow { IfOk result (λ rows. fed.now.width ≤ MOST_COLUMNS) }
    ensures channels { IfOk result (λ rows. rows.channels.items ≡ tables_of drawn.now fed.now) }
    ensures kept { IfOk result (λ rows. AreRouted edge style.now.plan (⟦<Chooser as Chooses>⟧.answers style.now.chooser) (tables_of drawn.now fed.now) rows.routed.items) }
    ensures wired { IfOk result (λ rows. AreWired drawn.now fed.now (wirings_of rows.routed.items)) }
    ensures routed { IfOk result (λ rows. IsRouted rules.now drawn.now fed.now (wirings_of rows.routed.items)) }
    ensures command { IfErr result (λ refusal. refusal_status refusal ≢ 2) }
    ensures goes { W.goes watch.old watch.new }
{
    if let Some(refusal) = size_refusal(bound_of(drawn, fed, rules)) {
        return Err(refusal);
    }
    let channels = channels(alloc, drawn, fed, &placement)?;
    let routed = route_channels_watched(alloc, channels.as_slice(), style, edge, watch)?;
    Ok(RoutedRows { channels, routed })
}
