//! Wirings of the plain router.

use crate::channel_model_tests::{channel_of, long_channel};
use channel_model::{Channel, Segment, Wiring};
use plain_router::plain;
use std::alloc::Global;
use std::test::Fail;

// Whether a wiring has so many tracks, columns, segments and vias.
fn has_size(wiring: &Wiring, tracks: u32, columns: u32, segments: usize, vias: usize) -> bool {
    wiring.tracks == tracks
        && wiring.columns == columns
        && wiring.segments.items().len() == segments
        && wiring.vias.items().len() == vias
}

// Whether nets 1 and 2 go across in columns of their own.
fn is_crossed(wiring: &Wiring) -> bool {
    let segments = wiring.segments.items();
    has_size(wiring, 4, 4, 10, 8)
        && segments.contains(&Segment::Across {
            net: 1,
            column: 2,
            low: 1,
            high: 3,
        })
        && segments.contains(&Segment::Across {
            net: 2,
            column: 3,
            low: 2,
            high: 4,
        })
}

fn is_channel_crossed(alloc: Global, channel: &Channel) -> bool {
    match plain(alloc, channel) {
        Ok(wiring) => is_crossed(&wiring),
        Err(_) => false,
    }
}

// Whether the wiring of the channel with these pins is.
fn are_crossed(alloc: Global, top: &[u32], bottom: &[u32]) -> bool {
    match channel_of(alloc, top, bottom) {
        Ok(Some(channel)) => is_channel_crossed(alloc, &channel),
        _ => false,
    }
}

// The vertical cycle: net 1 must leave the bottom under net 2's top pin, and net 2 under net 1's.
#[test]
fn the_crossed_channel_is_wired_in_four_tracks(rt: HostRuntime) {
    assert!(rt; are_crossed(rt.alloc(), &[2, 1], &[1, 2]));
}

/// How many tracks, columns, segments and vias a wiring has.
type Size = (u32, u32, usize, usize);

// Whether a channel is wired in that size.
fn is_channel_wired(alloc: Global, channel: &Channel, size: Size) -> bool {
    let (tracks, columns, segments, vias) = size;
    match plain(alloc, channel) {
        Ok(wiring) => has_size(&wiring, tracks, columns, segments, vias),
        Err(_) => false,
    }
}

// Whether the channel with these pins is.
fn is_wired(alloc: Global, top: &[u32], bottom: &[u32], size: Size) -> bool {
    match channel_of(alloc, top, bottom) {
        Ok(Some(channel)) => is_channel_wired(alloc, &channel, size),
        _ => false,
    }
}

/// The pins at the upper and at the lower edge of small channels, and the size of their least wiring.
const SMALL: [(&[u32], &[u32], Size); 4] = [
    (&[], &[], (0, 0, 0, 0)),
    (&[0, 0, 0], &[0, 0, 0], (0, 3, 0, 0)),
    (&[0, 5], &[0, 5], (2, 3, 5, 4)),
    (&[0, 0, 0], &[9, 0, 9], (2, 4, 3, 2)),
];

#[test]
fn small_channels_have_the_least_wiring(rt: HostRuntime) {
    for (i, (top, bottom, size)) in SMALL.iter().enumerate() {
        assert!(rt; is_wired(rt.alloc(), top, bottom, *size), "case {i}");
    }
}

// It comes at once.
#[test]
fn a_long_channel_has_a_wiring(rt: HostRuntime) -> Result<(), Fail> {
    let channel = long_channel(rt.alloc())?;
    assert!(rt; is_channel_wired(rt.alloc(), &channel, (3000, 5500, 12500, 11000)));
    Ok(())
}
