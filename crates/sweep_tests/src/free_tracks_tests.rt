//! Sweeps that begin with free tracks.

use crate::worked_tests::{End, channel_of, end_in};
use std::alloc::Global;
use std::test::Fail;

// How the sweep of the vertical cycle ends that begins with a share of its cut density, which is 2: whether it is over, with how many
// free tracks it began, how many columns it took and how many tracks it has.
fn end_of(alloc: Global, share: u32, tracks: u32) -> Result<End, Fail> {
    let channel = channel_of(alloc, &[2, 1], &[1, 2])?;
    end_in(alloc, &channel, share, tracks, 2)
}

// A third track is made where there are fewer: the pins of column 1 must not meet.
#[test]
fn a_share_of_the_cut_density_is_free_at_first(rt: HostRuntime) -> Result<(), Fail> {
    let alloc = rt.alloc();
    assert_eq!(rt; end_of(alloc, 0, 4)?, (false, 0, 3, 3));
    assert_eq!(rt; end_of(alloc, 49, 4)?, (false, 0, 3, 3));
    assert_eq!(rt; end_of(alloc, 99, 4)?, (false, 1, 3, 3));
    assert_eq!(rt; end_of(alloc, 100, 4)?, (false, 2, 3, 3));
    Ok(())
}

// With four tracks each net holds two after column 1, and only one of the two can be joined in a column. There are never more than two
// for each net, and too many at first are too many.
#[test]
fn two_free_tracks_for_each_net_are_the_most(rt: HostRuntime) -> Result<(), Fail> {
    let alloc = rt.alloc();
    assert_eq!(rt; end_of(alloc, 200, 4)?, (false, 4, 4, 4));
    assert_eq!(rt; end_of(alloc, 4_294_967_295, 4)?, (false, 4, 4, 4));
    assert_eq!(rt; end_of(alloc, 100, 1)?, (true, 2, 0, 2));
    Ok(())
}
