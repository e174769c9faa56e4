//! Small channels.

use channel_model::{Channel, Segment, Via};
use left_edge::{Edge, EdgeFault, left_edge};
use std::alloc::Global;
use std::test::Fail;

/// The channel with these pins.
pub(crate) fn channel_of(alloc: Global, top: &[u32], bottom: &[u32]) -> Result<Channel, Fail> {
    let top = top.to_vec(alloc)?;
    let bottom = bottom.to_vec(alloc)?;
    Ok(Channel::new(top, bottom).ok_or("a channel")?)
}

/// Its wiring.
pub(crate) fn edge_of(alloc: Global, top: &[u32], bottom: &[u32]) -> Result<Edge, Fail> {
    Ok(left_edge(alloc, &channel_of(alloc, top, bottom)?)?)
}

// Whether a wiring has so many tracks, columns, segments and vias.
fn has_size(edge: &Edge, tracks: u32, columns: u32, segments: usize, vias: usize) -> bool {
    edge.wiring.tracks == tracks
        && edge.wiring.columns == columns
        && edge.wiring.segments.items().len() == segments
        && edge.wiring.vias.items().len() == vias
}

// Whether a net lies on a track, from one column to another.
fn lies(edge: &Edge, net: u32, track: u32, from: u32, to: u32) -> bool {
    let along = Segment::Along {
        net,
        track,
        from,
        to,
    };
    edge.wiring.segments.items().contains(&along)
}

// Whether all tracks are needed in this column, by these nets.
fn is_full(edge: &Edge, column: u32, nets: &[u32]) -> bool {
    edge.column == column && edge.nets.items() == nets
}

#[test]
fn nets_that_overlap_have_a_track_each(rt: HostRuntime) -> Result<(), Fail> {
    let edge = edge_of(rt.alloc(), &[0, 0, 0, 0], &[1, 2, 1, 2])?;
    assert!(rt; has_size(&edge, 2, 4, 6, 4));
    assert!(rt; lies(&edge, 1, 1, 0, 2) && lies(&edge, 2, 2, 1, 3));
    assert!(rt; is_full(&edge, 1, &[1, 2]));
    Ok(())
}

#[test]
fn nets_behind_one_another_share_a_track(rt: HostRuntime) -> Result<(), Fail> {
    let edge = edge_of(rt.alloc(), &[0, 0, 0, 0], &[1, 1, 2, 2])?;
    assert!(rt; has_size(&edge, 1, 4, 6, 4));
    assert!(rt; lies(&edge, 1, 1, 0, 1) && lies(&edge, 2, 1, 2, 3));
    assert!(rt; is_full(&edge, 0, &[1]));
    Ok(())
}

// Net 1 ends before net 3 begins, and leaves it the lower of the tracks; net 4 gets the other.
#[test]
fn the_lowest_free_track_is_taken(rt: HostRuntime) -> Result<(), Fail> {
    let edge = edge_of(
        rt.alloc(),
        &[0, 2, 0, 0, 2, 0, 3, 4],
        &[1, 0, 1, 3, 0, 4, 0, 0],
    )?;
    assert!(rt; edge.wiring.tracks == 2);
    assert!(rt; lies(&edge, 1, 1, 0, 2) && lies(&edge, 2, 2, 1, 4));
    assert!(rt; lies(&edge, 3, 1, 3, 6) && lies(&edge, 4, 2, 5, 7));
    assert!(rt; is_full(&edge, 1, &[1, 2]));
    Ok(())
}

// The two pins of the one column are brought to the track from below and from above, and share its via.
#[test]
fn two_pins_of_a_column_share_a_via(rt: HostRuntime) -> Result<(), Fail> {
    let edge = edge_of(rt.alloc(), &[1], &[1])?;
    let across = |low: u32, high: u32| Segment::Across {
        net: 1,
        column: 0,
        low,
        high,
    };
    let along = Segment::Along {
        net: 1,
        track: 1,
        from: 0,
        to: 0,
    };
    let via = Via {
        net: 1,
        column: 0,
        track: 1,
    };
    assert!(rt; edge.wiring.tracks == 1);
    assert!(rt; edge.wiring.segments.items() == [across(0, 1), across(1, 2), along].as_slice());
    assert!(rt; edge.wiring.vias.items() == [via].as_slice());
    assert!(rt; is_full(&edge, 0, &[1]));
    Ok(())
}

#[test]
fn the_first_column_of_two_nets_is_named(rt: HostRuntime) -> Result<(), Fail> {
    let alloc = rt.alloc();
    let crossed = channel_of(alloc, &[2, 1], &[1, 2])?;
    assert!(rt; left_edge(alloc, &crossed).err() == Some(EdgeFault::Constrained(0)));
    let later = channel_of(alloc, &[1, 0, 2, 2], &[1, 2, 1, 1])?;
    assert!(rt; left_edge(alloc, &later).err() == Some(EdgeFault::Constrained(2)));
    Ok(())
}

#[test]
fn a_channel_without_nets_has_no_tracks(rt: HostRuntime) -> Result<(), Fail> {
    let none = edge_of(rt.alloc(), &[], &[])?;
    assert!(rt; has_size(&none, 0, 0, 0, 0) && is_full(&none, 0, &[]));
    let bare = edge_of(rt.alloc(), &[0, 0, 0], &[0, 0, 0])?;
    assert!(rt; has_size(&bare, 0, 3, 0, 0) && is_full(&bare, 0, &[]));
    Ok(())
}
