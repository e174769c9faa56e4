//! Sweeps and wirings of small channels, as worked out by hand.

use crate::choosers::{chooser_of, near_style};
use channel_model::{Channel, Segment, Via, Wiring};
use choose_core::{Chooser, Manner, Style};
use greedy_router::{
    By, Limits, Routed, Start, Sweep, Swept, route_channel, route_channels, run_sweep,
};
use std::alloc::Global;
use std::test::Fail;
use stock_styles::Stock;

/// A channel with these pins.
pub(crate) fn channel_of(alloc: Global, top: &[u32], bottom: &[u32]) -> Result<Channel, Fail> {
    Ok(Channel::new(top.to_vec(alloc)?, bottom.to_vec(alloc)?).ok_or("a channel")?)
}

/// How a sweep ends: whether it is over, with how many free tracks it began, how many columns it takes and how many tracks it has.
pub(crate) type End = (bool, u32, usize, usize);

fn size_of(over: bool, sweep: &Sweep) -> End {
    (
        over,
        sweep.begun,
        sweep.columns.len(),
        sweep.order.items().len(),
    )
}

fn told(swept: &Swept) -> End {
    match swept {
        Swept::Finished { sweep, .. } => size_of(false, sweep),
        Swept::Over { sweep } => size_of(true, sweep),
    }
}

fn end_by(
    alloc: Global,
    channel: &Channel,
    share: u32,
    chooser: &Chooser,
    tracks: u32,
    extra: u32,
) -> Result<End, Fail> {
    let swept = run_sweep(
        alloc,
        channel,
        Start {
            manner: Manner::Published,
            share,
        },
        Limits { tracks, extra },
        chooser,
    )?;
    Ok(told(&swept))
}

/// How the sweep of a channel ends that begins with a share of its cut density as free tracks.
pub(crate) fn end_in(
    alloc: Global,
    channel: &Channel,
    share: u32,
    tracks: u32,
    extra: u32,
) -> Result<End, Fail> {
    let chooser = chooser_of(alloc, Stock::Near)?;
    end_by(alloc, channel, share, &chooser, tracks, extra)
}

// How that of the channel with these pins ends, without free tracks.
fn end_of(
    alloc: Global,
    top: &[u32],
    bottom: &[u32],
    tracks: u32,
    extra: u32,
) -> Result<End, Fail> {
    let channel = channel_of(alloc, top, bottom)?;
    end_in(alloc, &channel, 0, tracks, extra)
}

// A vertical cycle: bottom 1, 2 and top 2, 1.
#[test]
fn the_limits_of_a_sweep(rt: HostRuntime) -> Result<(), Fail> {
    let alloc = rt.alloc();
    assert_eq!(rt; end_of(alloc, &[2, 1], &[1, 2], 2, 2)?, (true, 0, 2, 3));
    assert_eq!(rt; end_of(alloc, &[2, 1], &[1, 2], 4, 0)?, (true, 0, 2, 3));
    assert_eq!(rt; end_of(alloc, &[2, 1], &[1, 2], 3, 1)?, (false, 0, 3, 3));
    assert_eq!(rt;
        end_of(alloc, &[0, 0, 0, 0], &[1, 1, 2, 2], 4, 2)?,
        (false, 0, 4, 1)
    );
    assert_eq!(rt; end_of(alloc, &[], &[], 0, 0)?, (false, 0, 0, 0));
    Ok(())
}

fn is_wiring(
    wiring: &Wiring,
    tracks: u32,
    columns: u32,
    segments: &[Segment],
    vias: &[Via],
) -> bool {
    wiring.tracks == tracks
        && wiring.columns == columns
        && wiring.segments.items() == segments
        && wiring.vias.items() == vias
}

fn across(net: u32, column: u32, low: u32, high: u32) -> Segment {
    Segment::Across {
        net,
        column,
        low,
        high,
    }
}

fn along(net: u32, track: u32, from: u32, to: u32) -> Segment {
    Segment::Along {
        net,
        track,
        from,
        to,
    }
}

fn via(net: u32, column: u32, track: u32) -> Via {
    Via { net, column, track }
}

/// The channel with bottom pins 1, 2 and top pins 2, 1, routed by the nearest.
pub(crate) fn routed_crossed(alloc: Global, tracks: u32, extra: u32) -> Result<Routed, Fail> {
    let channel = channel_of(alloc, &[2, 1], &[1, 2])?;
    routed_by_near(alloc, &channel, tracks, extra)
}

fn routed_by_near(
    alloc: Global,
    channel: &Channel,
    tracks: u32,
    extra: u32,
) -> Result<Routed, Fail> {
    let chooser = chooser_of(alloc, Stock::Near)?;
    Ok(route_channel(
        alloc,
        channel,
        Start {
            manner: Manner::Published,
            share: 0,
        },
        Limits { tracks, extra },
        &chooser,
    )?)
}

#[test]
fn the_greedy_wiring_of_a_vertical_cycle(rt: HostRuntime) -> Result<(), Fail> {
    let routed = routed_crossed(rt.alloc(), 4, 2)?;
    assert_eq!(rt; routed.by, By::Greedy);
    let segments = [
        across(1, 0, 0, 1),
        across(2, 0, 2, 4),
        across(2, 1, 0, 2),
        across(1, 1, 3, 4),
        along(2, 2, 0, 1),
        across(1, 2, 1, 3),
        along(1, 1, 0, 2),
        along(1, 3, 1, 2),
    ];
    let vias = [
        via(1, 0, 1),
        via(2, 0, 2),
        via(2, 1, 2),
        via(1, 1, 3),
        via(1, 2, 1),
        via(1, 2, 3),
    ];
    assert!(rt; is_wiring(&routed.wiring, 3, 3, &segments, &vias));
    assert_eq!(rt; routed.sweep.order.items(), [1, 2, 3].as_slice());
    Ok(())
}

// With two tracks the sweep is over: each net has its two tracks and its column.
#[test]
fn the_plain_wiring_of_a_vertical_cycle(rt: HostRuntime) -> Result<(), Fail> {
    let routed = routed_crossed(rt.alloc(), 2, 2)?;
    assert_eq!(rt; routed.by, By::Plain);
    let segments = [
        across(1, 0, 0, 1),
        across(2, 1, 0, 2),
        across(2, 0, 4, 5),
        across(1, 1, 3, 5),
        across(1, 2, 1, 3),
        along(1, 1, 0, 2),
        along(1, 3, 1, 2),
        across(2, 3, 2, 4),
        along(2, 2, 1, 3),
        along(2, 4, 0, 3),
    ];
    let vias = [
        via(1, 0, 1),
        via(2, 1, 2),
        via(2, 0, 4),
        via(1, 1, 3),
        via(1, 2, 1),
        via(1, 2, 3),
        via(2, 3, 2),
        via(2, 3, 4),
    ];
    assert!(rt; is_wiring(&routed.wiring, 4, 4, &segments, &vias));
    assert_eq!(rt; routed.sweep.columns.len(), 2);
    assert_eq!(rt; routed.sweep.order.items().len(), 3);
    Ok(())
}

fn three_channels(alloc: Global) -> Result<Vec<Channel>, Fail> {
    let mut channels = Vec::new(alloc);
    channels.push(channel_of(alloc, &[2, 1], &[1, 2])?)?;
    channels.push(channel_of(alloc, &[0, 0], &[0, 0])?)?;
    channels.push(channel_of(alloc, &[3, 0], &[0, 3])?)?;
    Ok(channels)
}

// Whether wirings have these tracks and columns.
fn have_sizes(routed: &[Routed], sizes: &[(u32, u32)]) -> bool {
    routed.len() == sizes.len()
        && routed.iter().zip(sizes.iter()).all(|(one, size)| (one.wiring.tracks, one.wiring.columns)
            == *size)
}

fn are_routed_by(
    alloc: Global,
    channels: &[Channel],
    style: &Style,
    sizes: &[(u32, u32)],
) -> Result<bool, Fail> {
    let routed = route_channels(alloc, channels, style, false)?;
    Ok(have_sizes(&routed, sizes))
}

// Whether channels are routed in these sizes by the style `near`.
fn are_routed(alloc: Global, channels: &[Channel], sizes: &[(u32, u32)]) -> Result<bool, Fail> {
    let style = near_style(alloc, 0, &[])?;
    are_routed_by(alloc, channels, &style, sizes)
}

const SIZES: [(u32, u32); 3] = [(3, 3), (0, 2), (1, 2)];

// Each channel within the limits of its nets.
#[test]
fn channels_in_their_order(rt: HostRuntime) -> Result<(), Fail> {
    let channels = three_channels(rt.alloc())?;
    assert!(rt; are_routed(rt.alloc(), &channels, &SIZES)?);
    Ok(())
}
