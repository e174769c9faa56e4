//! Sweeps in the looking-ahead manner, whose orders, tracks and further columns a program of another origin has counted.

use crate::choosers::chooser_of;
use crate::worked_tests::channel_of;
use channel_model::Channel;
use choose_core::{Chooser, Manner};
use greedy_router::{Limits, Start, Swept, run_sweep};
use std::alloc::Global;
use std::test::Fail;
use stock_styles::Stock;

/// No sweep of these channels is near its limits.
const LIMITS: Limits = Limits {
    tracks: 100,
    extra: 100,
};

// A sweep that looks ahead and begins with this share of the cut density.
fn ahead(share: u32) -> Start {
    Start {
        manner: Manner::LookingAhead,
        share,
    }
}

// Whether the sweep of a channel ends, with no more columns than so many beyond the channel's and with its tracks in this order.
fn ends_with(
    alloc: Global,
    channel: &Channel,
    start: Start,
    chooser: &Chooser,
    extra: usize,
    order: &[u32],
) -> Result<bool, Fail> {
    match run_sweep(alloc, channel, start, LIMITS, chooser)? {
        Swept::Finished { sweep, wiring } => {
            let columns = channel.top.items().len().saturating_add(extra);
            Ok(
                sweep.order.items() == order
                    && sweep.columns.len() == columns
                    && wiring.tracks as usize == order.len(),
            )
        }
        Swept::Over { sweep: _sweep } => Ok(false),
    }
}

/// The top pins and the bottom pins of a vertical cycle, and of two channels of 10 and 14 columns.
const CYCLE: ([u32; 2], [u32; 2]) = ([2, 1], [1, 2]);

const TEN: ([u32; 10], [u32; 10]) = (
    [1, 3, 5, 4, 0, 2, 2, 5, 0, 2],
    [0, 3, 2, 5, 2, 5, 5, 4, 2, 1],
);

const FOURTEEN: ([u32; 14], [u32; 14]) = (
    [5, 1, 0, 4, 6, 4, 2, 1, 3, 4, 0, 1, 2, 6],
    [6, 0, 6, 1, 1, 0, 5, 0, 0, 1, 0, 1, 3, 0],
);

/// Those of two nets side by side, and of a channel in which a new track is split unless it stands by its next pin.
const PAIRS: ([u32; 4], [u32; 4]) = ([0, 0, 0, 0], [1, 1, 2, 2]);

const CORNER: ([u32; 3], [u32; 3]) = ([0, 2, 2], [1, 0, 1]);

/// Orders in which tracks end.
const UP: [u32; 6] = [1, 2, 3, 4, 5, 6];

const TEN_FROM_NONE: [u32; 6] = [2, 3, 4, 1, 5, 6];

const FOURTEEN_FROM_NONE: [u32; 5] = [3, 1, 2, 4, 5];

const SPLIT: [u32; 3] = [2, 1, 3];

// Each channel without free tracks at first and with as many as its cut density.
#[test]
fn a_cycle_by_deft(rt: HostRuntime) -> Result<(), Fail> {
    let deft = chooser_of(rt.alloc(), Stock::Deft)?;
    let channel = channel_of(rt.alloc(), &CYCLE.0, &CYCLE.1)?;
    assert!(rt; ends_with(rt.alloc(), &channel, ahead(0), &deft, 1, &UP[..3])?);
    assert!(rt; ends_with(rt.alloc(), &channel, ahead(100), &deft, 1, &UP[..3])?);
    Ok(())
}

#[test]
fn ten_columns_by_deft(rt: HostRuntime) -> Result<(), Fail> {
    let deft = chooser_of(rt.alloc(), Stock::Deft)?;
    let channel = channel_of(rt.alloc(), &TEN.0, &TEN.1)?;
    assert!(rt; ends_with(rt.alloc(), &channel, ahead(0), &deft, 1, &TEN_FROM_NONE)?);
    assert!(rt; ends_with(rt.alloc(), &channel, ahead(100), &deft, 1, &UP)?);
    Ok(())
}

#[test]
fn fourteen_columns_by_deft(rt: HostRuntime) -> Result<(), Fail> {
    let deft = chooser_of(rt.alloc(), Stock::Deft)?;
    let channel = channel_of(rt.alloc(), &FOURTEEN.0, &FOURTEEN.1)?;
    assert!(rt;
        ends_with(
            rt.alloc(),
            &channel,
            ahead(0),
            &deft,
            0,
            &FOURTEEN_FROM_NONE
        )?
    );
    assert!(rt; ends_with(rt.alloc(), &channel, ahead(100), &deft, 0, &UP[..5])?);
    Ok(())
}

#[test]
fn two_nets_side_by_side_by_deft(rt: HostRuntime) -> Result<(), Fail> {
    let deft = chooser_of(rt.alloc(), Stock::Deft)?;
    let channel = channel_of(rt.alloc(), &PAIRS.0, &PAIRS.1)?;
    assert!(rt; ends_with(rt.alloc(), &channel, ahead(0), &deft, 0, &UP[..1])?);
    assert!(rt; ends_with(rt.alloc(), &channel, ahead(100), &deft, 0, &UP[..1])?);
    Ok(())
}

// A new track in the middle, below that of net 1, splits net 2; one above it does not.
#[test]
fn a_new_track_by_its_next_pin_is_never_split(rt: HostRuntime) -> Result<(), Fail> {
    let near = chooser_of(rt.alloc(), Stock::Near)?;
    let channel = channel_of(rt.alloc(), &CORNER.0, &CORNER.1)?;
    let published = Start {
        manner: Manner::Published,
        share: 0,
    };
    assert!(rt; ends_with(rt.alloc(), &channel, published, &near, 1, &SPLIT)?);
    assert!(rt; ends_with(rt.alloc(), &channel, ahead(0), &near, 0, &UP[..2])?);
    Ok(())
}
