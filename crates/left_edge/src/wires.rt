//! The wires from the pins to the tracks of their nets, the wires along the tracks, and the vias between them.

ghost use Rattle.left_edge.specs.EdgeWiring.{along, bottom_across, bottom_via, by_column, top_across, top_via};
ghost use Rattle.left_edge.specs.Tracks.{track_of};
ghost use Rattle.std.specs.Prelude.{◌≡◌, ◌++◌, ◌==◌, ◌||◌, not, OnOk, Contains, length, map};

use crate::free::Leveled;
use channel_model::{Segment, Via, place_of};
use std::alloc::AllocError;

// The track of a net, in O(log N) time for N nets.
fn track_of(leveled: &Leveled, net: u32) -> u32
    requires { Contains leveled.now.nets.now net }
    ensures { result ≡ track_of leveled.now.channel.now net }
{
    leveled.levels[place_of(leveled.nets, net)] + 1
}

/// Brings each bottom pin up to its net's track.
pub(crate) fn wire_bottom_pins(
    segments: &mut Vec<Segment>,
    leveled: &Leveled,
) -> Result<(), AllocError>
    ensures { OnOk result (segments.new.items ≡ segments.old.items ++ by_column (bottom_across leveled.now.channel.now) (length leveled.now.channel.now.top)) }
{
    let channel = leveled.channel;
    for column in 0..channel.top.items().len() {
        let net = channel.bottom.items()[column];
        if net == 0 {
            continue;
        }
        let high = track_of(leveled, net);
        let column = column as u32;
        segments.push(Segment::Across {
            net,
            column,
            low: 0,
            high,
        })?;
    }
    Ok(())
}

/// Brings each top pin down to its net's track.
pub(crate) fn wire_top_pins(
    segments: &mut Vec<Segment>,
    leveled: &Leveled,
) -> Result<(), AllocError>
    ensures { OnOk result (segments.new.items ≡ segments.old.items ++ by_column (top_across leveled.now.channel.now) (length leveled.now.channel.now.top)) }
{
    let channel = leveled.channel;
    for column in 0..channel.top.items().len() {
        let net = channel.top.items()[column];
        if net == 0 {
            continue;
        }
        let low = track_of(leveled, net);
        let column = column as u32;
        segments.push(Segment::Across {
            net,
            column,
            low,
            high: leveled.tracks + 1,
        })?;
    }
    Ok(())
}

/// Lays each net on its track.
pub(crate) fn lay_nets(segments: &mut Vec<Segment>, leveled: &Leveled) -> Result<(), AllocError>
    ensures { OnOk result (segments.new.items ≡ segments.old.items ++ map (along leveled.now.channel.now) leveled.now.nets.now) }
{
    for place in 0..leveled.nets.len() {
        let net = leveled.nets[place];
        let span = leveled.spans[place];
        segments.push(Segment::Along {
            net,
            track: leveled.levels[place] + 1,
            from: span.first,
            to: span.last,
        })?;
    }
    Ok(())
}

/// Sets a via where a bottom pin meets its net's track.
pub(crate) fn set_bottom_vias(vias: &mut Vec<Via>, leveled: &Leveled) -> Result<(), AllocError>
    ensures { OnOk result (vias.new.items ≡ vias.old.items ++ by_column (bottom_via leveled.now.channel.now) (length leveled.now.channel.now.top)) }
{
    let channel = leveled.channel;
    for column in 0..channel.top.items().len() {
        let net = channel.bottom.items()[column];
        if net == 0 {
            continue;
        }
        let track = track_of(leveled, net);
        let column = column as u32;
        vias.push(Via { net, column, track })?;
    }
    Ok(())
}

// Whether the via of a column with these pins is that of the top pin.
fn has_top_via(top: u32, bottom: u32) -> bool
    ensures { result ≡ not (top == 0 || not (bottom == 0)) }
{
    top != 0 && bottom == 0
}

/// Sets a via where a top pin meets its net's track, unless a bottom pin of the column has set it.
pub(crate) fn set_top_vias(vias: &mut Vec<Via>, leveled: &Leveled) -> Result<(), AllocError>
    ensures { OnOk result (vias.new.items ≡ vias.old.items ++ by_column (top_via leveled.now.channel.now) (length leveled.now.channel.now.top)) }
{
    let channel = leveled.channel;
    for column in 0..channel.top.items().len() {
        let net = channel.top.items()[column];
        if !has_top_via(net, channel.bottom.items()[column]) {
            continue;
        }
        let track = track_of(leveled, net);
        let column = column as u32;
        vias.push(Via { net, column, track })?;
    }
    Ok(())
}
