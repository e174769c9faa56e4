//! Channels that go to the left-edge router, and such as don't.

use crate::choosers::{chooser_of, near_style};
use crate::worked_tests::channel_of;
use channel_model::{Channel, Segment};
use choose_core::{Manner, Style};
use greedy_router::{By, Limits, Routed, Start, route_channels, route_edge};
use std::alloc::Global;
use std::test::Fail;
use stock_styles::Stock;

fn edge_routed(
    alloc: Global,
    top: &[u32],
    bottom: &[u32],
    tracks: u32,
    extra: u32,
) -> Result<Routed, Fail> {
    let channel = channel_of(alloc, top, bottom)?;
    edge_routed_in(alloc, &channel, tracks, extra)
}

fn edge_routed_in(
    alloc: Global,
    channel: &Channel,
    tracks: u32,
    extra: u32,
) -> Result<Routed, Fail> {
    let chooser = chooser_of(alloc, Stock::Near)?;
    Ok(route_edge(
        alloc,
        channel,
        Start {
            manner: Manner::Published,
            share: 0,
        },
        Limits { tracks, extra },
        &chooser,
    )?)
}

// Whether a net lies on a track, from one column to another.
fn lies(routed: &Routed, net: u32, track: u32, from: u32, to: u32) -> bool {
    let along = Segment::Along {
        net,
        track,
        from,
        to,
    };
    routed.wiring.segments.items().contains(&along)
}

fn is_unswept(routed: &Routed) -> bool {
    let sweep = &routed.sweep;
    sweep.begun == 0 && sweep.columns.is_empty() && sweep.order.items().is_empty()
}

#[test]
fn a_channel_without_constraints_has_a_track_for_each_net_over_a_column(
    rt: HostRuntime,
) -> Result<(), Fail> {
    let routed = edge_routed(rt.alloc(), &[0, 0, 0, 0], &[1, 2, 1, 2], 0, 0)?;
    assert_eq!(rt; routed.by, By::Edge);
    assert_eq!(rt; (routed.wiring.tracks, routed.wiring.columns), (2, 4));
    assert!(rt; lies(&routed, 1, 1, 0, 2) && lies(&routed, 2, 2, 1, 3));
    assert!(rt; is_unswept(&routed));
    Ok(())
}

// Column 0 has pins of two nets.
#[test]
fn a_constrained_channel_is_swept(rt: HostRuntime) -> Result<(), Fail> {
    let routed = edge_routed(rt.alloc(), &[2, 1], &[1, 2], 4, 2)?;
    assert_eq!(rt; routed.by, By::Greedy);
    assert_eq!(rt; (routed.wiring.tracks, routed.wiring.columns), (3, 3));
    assert_eq!(rt; routed.sweep.order.items(), [1, 2, 3].as_slice());
    Ok(())
}

// A vertical cycle, and two nets without a constraint.
fn two_channels(alloc: Global) -> Result<Vec<Channel>, Fail> {
    let mut channels = Vec::new(alloc);
    channels.push(channel_of(alloc, &[2, 1], &[1, 2])?)?;
    channels.push(channel_of(alloc, &[0, 0, 0, 0], &[1, 2, 1, 2])?)?;
    Ok(channels)
}

/// Two channels' routers, and the tracks of the second where the left-edge router has wired it.
type Routers = Option<(By, By, Option<u32>)>;

fn routers_of(routed: &[Routed]) -> Routers {
    if routed.len() != 2 {
        return None;
    }
    let tracks = match routed[1].by {
        By::Edge => Some(routed[1].wiring.tracks),
        _ => None,
    };
    Some((routed[0].by, routed[1].by, tracks))
}

fn routers_by(
    alloc: Global,
    channels: &[Channel],
    style: &Style,
    edge: bool,
) -> Result<Routers, Fail> {
    let routed = route_channels(alloc, channels, style, edge)?;
    Ok(routers_of(&routed))
}

// By the style `near`, and by left edges where that is asked.
fn routers(alloc: Global, channels: &[Channel], edge: bool) -> Result<Routers, Fail> {
    let style = near_style(alloc, 0, &[])?;
    routers_by(alloc, channels, &style, edge)
}

#[test]
fn channels_go_to_the_left_edges_where_that_is_asked(rt: HostRuntime) -> Result<(), Fail> {
    let channels = two_channels(rt.alloc())?;
    let swept = routers(rt.alloc(), &channels, false)?;
    assert!(rt; swept == Some((By::Greedy, By::Greedy, None)));
    let routed = routers(rt.alloc(), &channels, true)?;
    assert!(rt; routed == Some((By::Greedy, By::Edge, Some(2))));
    Ok(())
}
