//! Channels made from numbers, each routed within the limits of its nets.

ghost use Rattle.std.specs.Prelude.{◌≤◌, IfOk};

use crate::choosers::chooser_of;
use crate::connected::is_connected;
use crate::made::made_channel;
use channel_model::{Channel, nets_of};
use choose_core::{Chooser, Manner};
use greedy_router::{By, Limits, Start, route_channel};
use std::alloc::Global;
use std::test::Fail;
use stock_styles::Stock;

/// How many nets a channel has, but at most 1,000.
pub(crate) fn count_of_nets(alloc: Global, channel: &Channel) -> Result<u32, Fail>
    ensures { IfOk result (λ nets. nets ≤ 1000) }
{
    Ok(nets_of(alloc, channel)?.len().min(1000) as u32)
}

// Whether a channel is connected, and by which router.
fn routed(alloc: Global, channel: &Channel, chooser: &Chooser) -> Result<(bool, By), Fail> {
    let nets = count_of_nets(alloc, channel)?;
    let routed = route_channel(
        alloc,
        channel,
        Start {
            manner: Manner::Published,
            share: 0,
        },
        Limits {
            tracks: 2 * nets,
            extra: nets,
        },
        chooser,
    )?;
    Ok((is_connected(alloc, channel, &routed.wiring)?, routed.by))
}

// By `near` or by `high`, by turns.
fn routed_in_turn(alloc: Global, number: u32, channel: &Channel) -> Result<(bool, By), Fail> {
    let chooser = if number % 2 == 0 {
        chooser_of(alloc, Stock::Near)?
    } else {
        chooser_of(alloc, Stock::High)?
    };
    routed(alloc, channel, &chooser)
}

// So of the channel made from a number.
fn made_and_routed(alloc: Global, number: u32) -> Result<(bool, By), Fail> {
    let channel = made_channel(alloc, number)?;
    routed_in_turn(alloc, number, &channel)
}

#[test]
fn made_channels_are_connected(rt: HostRuntime) -> Result<(), Fail> {
    let mut greedy = 0u32;
    for number in 0u32..500 {
        let (connected, by) = made_and_routed(rt.alloc(), number)?;
        assert!(rt; connected, "channel {number}");
        if by == By::Greedy {
            greedy = greedy.saturating_add(1);
        }
    }
    assert!(rt; greedy > 400, "{greedy} sweeps ended");
    Ok(())
}
