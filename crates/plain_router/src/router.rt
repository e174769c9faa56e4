//! Pins brought to their net's lower or upper track, and these joined in the net's column right of the channel.

ghost use Rattle.channel_model.specs.Nets.{AreNets};
ghost use Rattle.channel_model.specs.Wired.{Wired};
ghost use Rattle.plain_router.specs.Plain.{plain_of, for_pins, for_nets, net_segments, net_vias, bottom_across, top_across, bottom_via, top_via, lane_segments, lane_vias};
ghost use Rattle.std.specs.List.Sorted.{IsStrictlyIncreasing};
ghost use Rattle.std.specs.Prelude.{◌*◌, ◌≡◌, ◌<◌, ◌≤◌, ◌++◌, ℕ, IfOk, OnOk, Contains, length, slice_index};

use channel_model::{Channel, Reach, Segment, Via, Wiring, nets_of, place_of, reaches};
use geom_core::Items;
use limits::MOST_COLUMNS;
use std::alloc::{AllocError, Global};

// What a net owns: two tracks, and a column right of the channel.
#[derive(Clone, Copy)]
struct Lane {
    net: u32,
    lower: u32,
    upper: u32,
    column: u32,
}

impl Lane {
    // A wire along one of the tracks.
    fn along(self, track: u32, from: u32, to: u32) -> Segment
        ensures { result ≡ Segment.Along self.net track from to }
    {
        Segment::Along {
            net: self.net,
            track,
            from,
            to,
        }
    }

    // The wire that joins the two tracks.
    fn join(self) -> Segment
        ensures { result ≡ Segment.Across self.net self.column self.lower self.upper }
    {
        Segment::Across {
            net: self.net,
            column: self.column,
            low: self.lower,
            high: self.upper,
        }
    }

    // A via of the column on one of the tracks.
    fn via(self, track: u32) -> Via
        ensures { result ≡ record { net = self.net; column = self.column; track = track } }
    {
        Via {
            net: self.net,
            column: self.column,
            track,
        }
    }
}

/// The plain wiring of a channel with W columns and N nets: 2N tracks and W + N columns, in O(W log W) time.
///
/// The net at place j of the nets in number order, from 1, owns track j, track N + j and column W + j - 1. Each bottom pin is
/// brought up to its net's lower track, each top pin down to its net's upper track. A net with pins at both edges is joined in
/// its column, to which its tracks run from its first pins; a net with pins at one edge has one track, from its first pin to its
/// last. A via stands at each end of an Across that lies on a track. The segments are the Acrosses of the bottom pins and those
/// of the top pins, each by column, then net by net its joining Across, its lower and its upper Along; the vias follow the
/// Acrosses in that order, the lower end first. The one error is want of memory.
pub fn plain(alloc: Global, channel: &Channel) -> Result<Wiring, AllocError>
    ensures stated { IfOk result (λ wiring. wiring ≡ plain_of channel.now) }
    ensures wired { IfOk result (λ wiring. Wired channel.now wiring) }
{
    let nets = nets_of(alloc, channel)?;
    let top = channel.top.items();
    let bottom = channel.bottom.items();
    let mut segments = Vec::new(alloc);
    let mut vias = Vec::new(alloc);
    wire_bottom_pins(&mut segments, &mut vias, bottom, &nets)?;
    wire_top_pins(&mut segments, &mut vias, top, &nets)?;
    wire_nets(alloc, &mut segments, &mut vias, channel, &nets)?;
    Ok(Wiring {
        tracks: 2 * nets.len() as u32,
        columns: (top.len() + nets.len()) as u32,
        segments: Items::new(segments),
        vias: Items::new(vias),
    })
}

// Brings each bottom pin up to its net's lower track.
fn wire_bottom_pins(
    segments: &mut Vec<Segment>,
    vias: &mut Vec<Via>,
    side: &[u32],
    nets: &[u32],
) -> Result<(), AllocError>
    requires ascending { IsStrictlyIncreasing nets.now }
    requires listed { (column : ℕ) → 0 < slice_index side.now column → Contains nets.now (slice_index side.now column) }
    requires short { length side.now ≤ MOST_COLUMNS }
    requires few { length nets.now ≤ 2 * MOST_COLUMNS }
    ensures segments { OnOk result (segments.new.items
        ≡ segments.old.items ++ for_pins (bottom_across nets.now) side.now (length side.now)) }
    ensures vias { OnOk result (vias.new.items
        ≡ vias.old.items ++ for_pins (bottom_via nets.now) side.now (length side.now)) }
{
    for column in 0..side.len() {
        let net = side[column];
        if net == 0 {
            continue;
        }
        let track = place_of(nets, net) as u32 + 1;
        let column = column as u32;
        segments.push(Segment::Across {
            net,
            column,
            low: 0,
            high: track,
        })?;
        vias.push(Via { net, column, track })?;
    }
    Ok(())
}

// Brings each top pin down to its net's upper track.
fn wire_top_pins(
    segments: &mut Vec<Segment>,
    vias: &mut Vec<Via>,
    side: &[u32],
    nets: &[u32],
) -> Result<(), AllocError>
    requires ascending { IsStrictlyIncreasing nets.now }
    requires listed { (column : ℕ) → 0 < slice_index side.now column → Contains nets.now (slice_index side.now column) }
    requires short { length side.now ≤ MOST_COLUMNS }
    requires few { length nets.now ≤ 2 * MOST_COLUMNS }
    ensures segments { OnOk result (segments.new.items
        ≡ segments.old.items ++ for_pins (top_across nets.now) side.now (length side.now)) }
    ensures vias { OnOk result (vias.new.items
        ≡ vias.old.items ++ for_pins (top_via nets.now) side.now (length side.now)) }
{
    for column in 0..side.len() {
        let net = side[column];
        if net == 0 {
            continue;
        }
        let track = (nets.len() + place_of(nets, net)) as u32 + 1;
        let column = column as u32;
        segments.push(Segment::Across {
            net,
            column,
            low: track,
            high: 2 * nets.len() as u32 + 1,
        })?;
        vias.push(Via { net, column, track })?;
    }
    Ok(())
}

// Lays each net's tracks, and joins them where the net has pins at both edges.
fn wire_nets(
    alloc: Global,
    segments: &mut Vec<Segment>,
    vias: &mut Vec<Via>,
    channel: &Channel,
    nets: &[u32],
) -> Result<(), AllocError>
    requires nets { AreNets channel.now nets.now }
    requires few { length nets.now ≤ 2 * MOST_COLUMNS }
    ensures segments { OnOk result (segments.new.items
        ≡ segments.old.items ++ for_nets (net_segments channel.now nets.now) nets.now (length nets.now)) }
    ensures vias { OnOk result (vias.new.items
        ≡ vias.old.items ++ for_nets (net_vias channel.now nets.now) nets.now (length nets.now)) }
{
    let columns = channel.top.items().len();
    let below = reaches(alloc, channel.bottom.items(), nets)?;
    let above = reaches(alloc, channel.top.items(), nets)?;
    for place in 0..nets.len() {
        let lane = Lane {
            net: nets[place],
            lower: place as u32 + 1,
            upper: (nets.len() + place) as u32 + 1,
            column: (columns + place) as u32,
        };
        wire_net(segments, vias, lane, below[place], above[place])?;
    }
    Ok(())
}

// Lays the tracks of one net, and joins them where it has pins at both edges.
fn wire_net(
    segments: &mut Vec<Segment>,
    vias: &mut Vec<Via>,
    lane: Lane,
    below: Option<Reach>,
    above: Option<Reach>,
) -> Result<(), AllocError>
    ensures segments { OnOk result (segments.new.items ≡ segments.old.items ++ lane_segments lane below above) }
    ensures vias { OnOk result (vias.new.items ≡ vias.old.items ++ lane_vias lane below above) }
{
    match (below, above) {
        (Some(below), Some(above)) => {
            segments.push(lane.join())?;
            segments.push(lane.along(lane.lower, below.first, lane.column))?;
            segments.push(lane.along(lane.upper, above.first, lane.column))?;
            vias.push(lane.via(lane.lower))?;
            vias.push(lane.via(lane.upper))?;
        }
        (Some(below), None) => {
            segments.push(lane.along(lane.lower, below.first, below.last))?;
        }
        (None, Some(above)) => {
            segments.push(lane.along(lane.upper, above.first, above.last))?;
        }
        (None, None) => {}
    }
    Ok(())
}
