//! The best of several sweeps.

use crate::choosers::near_style;
use crate::connected::is_connected;
use crate::made::made_channel;
use crate::made_tests::count_of_nets;
use channel_model::Channel;
use choose_core::{Chooser, Manner, Style};
use greedy_router::{Limits, Start, route_best, route_channel};
use std::alloc::Global;
use std::test::Fail;

// The tracks of a channel's wiring by one sweep of a share.
fn tracks_of(alloc: Global, channel: &Channel, share: u32, chooser: &Chooser) -> Result<u32, Fail> {
    let nets = count_of_nets(alloc, channel)?;
    let routed = route_channel(
        alloc,
        channel,
        Start {
            manner: Manner::Published,
            share,
        },
        Limits {
            tracks: 2 * nets,
            extra: nets,
        },
        chooser,
    )?;
    Ok(routed.wiring.tracks)
}

/// Of a channel: the tracks of the first sweep, of the other, and of the best, and whether the best connects it.
#[derive(Clone, Copy)]
struct Compared {
    first: u32,
    other: u32,
    best: u32,
    connected: bool,
}

fn compared_by(alloc: Global, channel: &Channel, style: &Style) -> Result<Compared, Fail> {
    let first = tracks_of(alloc, channel, 0, &style.chooser)?;
    let other = tracks_of(alloc, channel, 100, &style.chooser)?;
    let best = route_best(alloc, channel, style)?;
    Ok(Compared {
        first,
        other,
        best: best.wiring.tracks,
        connected: is_connected(alloc, channel, &best.wiring)?,
    })
}

fn compared_in(alloc: Global, channel: &Channel) -> Result<Compared, Fail> {
    let style = near_style(alloc, 0, &[100])?;
    compared_by(alloc, channel, &style)
}

// So of the channel made from a number.
fn comparison(alloc: Global, number: u32) -> Result<Compared, Fail> {
    let channel = made_channel(alloc, number)?;
    compared_in(alloc, &channel)
}

#[test]
fn the_best_of_two_sweeps_is_one_of_them(rt: HostRuntime) -> Result<(), Fail> {
    let mut bettered = 0u32;
    for number in 0u32..100 {
        let found = comparison(rt.alloc(), number)?;
        assert_eq!(rt;
            found.best,
            found.first.min(found.other),
            "channel {number}"
        );
        assert!(rt; found.connected, "channel {number}");
        if found.other < found.first {
            bettered = bettered.saturating_add(1);
        }
    }
    assert!(rt; bettered > 0);
    Ok(())
}
