//! The notes on a layout that was made.

use crate::crossings::least_tracks;
use crate::laid::LaidLayout;
use crate::lengths::{microns, percent, shown};
use crate::wires::{Wires, wires_of};
use greedy_router::{By, Routed};
use layout_report::Taken;
use note_text::Notes;
use std::alloc::{AllocError, Global};

// How many nets are told.
const MOST_NETS: u32 = 10;

// The size of the layout, and how much of it the cells fill.
fn size_line(alloc: Global, laid: &LaidLayout<'_>) -> Result<String, AllocError> {
    let name = shown(alloc, laid.out_name.as_bytes())?;
    let summary = laid.summary;
    let width = microns(alloc, summary.width)?;
    let height = microns(alloc, summary.height)?;
    let area = summary.width.saturating_mul(summary.height);
    let whole = area / 10_000;
    let share = percent(alloc, laid.filled(), area)?;
    format!(in alloc;
        "{name}: {width} by {height} um, {whole} square um, of which cells fill {share} percent"
    )
}

// How much wire the channels have, and the rows by their feeds.
fn wire_line(alloc: Global, laid: &LaidLayout<'_>, wires: &Wires) -> Result<String, AllocError> {
    let rules = laid.rules;
    let along_layer = shown(alloc, rules.horizontal.layer.text())?;
    let across_layer = shown(alloc, rules.vertical.layer.text())?;
    let along = microns(alloc, wires.along)?;
    let across = microns(alloc, wires.across)?;
    let vias = wires.vias;
    let upright = microns(alloc, laid.units(laid.feed_wire))?;
    let feeds = laid.summary.feeds;
    format!(in alloc;
        "wire in channels: {along} um of {along_layer}, {across} um of {across_layer}, {vias} cuts; feeds in rows: {feeds}, {upright} um of {across_layer}"
    )
}

// The words for a router.
fn router_words(by: By) -> &'static str {
    match by {
        By::Greedy => "greedy",
        By::Plain => "plain",
        By::Edge => "left-edge",
    }
}

// The tracks of a channel, how many it needs at least, and which router its wiring is of.
fn channel_line(alloc: Global, number: u32, routed: &Routed) -> Result<String, AllocError> {
    let tracks = routed.wiring.tracks;
    let least = least_tracks(alloc, &routed.wiring)?;
    let router = router_words(routed.by);
    format!(in alloc; "channel {number}: tracks {tracks}, {least} at least, by the {router} router")
}

// Notes a line, if there is one.
fn note(notes: &mut Notes, line: Result<String, AllocError>) {
    if let Ok(line) = line {
        notes.note(line);
    }
}

// Notes each channel.
fn note_channels(alloc: Global, notes: &mut Notes, routed: &[Routed]) {
    let mut number: u32 = 0;
    for channel in routed {
        note(notes, channel_line(alloc, number, channel));
        number = number.saturating_add(1);
    }
}

// The nets with the most wire in channels.
fn nets_line(
    alloc: Global,
    laid: &LaidLayout<'_>,
    wires: &mut Wires,
) -> Result<String, AllocError> {
    let mut line = String::from_str(alloc, "longest nets in channels:")?;
    for k in 0..MOST_NETS {
        let Some((net, length)) = wires.take_longest() else {
            break;
        };
        let before = if k == 0 { " " } else { ", " };
        let signal = shown(alloc, laid.signal(net))?;
        let length = microns(alloc, length)?;
        line.push_str(format!(in alloc; "{before}{signal} {length} um")?.as_str())?;
    }
    Ok(line)
}

// What the rows cost, and what they did before they were annealed, where that had stages.
fn cost_line(alloc: Global, laid: &LaidLayout<'_>) -> Result<String, AllocError> {
    let rules = laid.rules;
    let cost = laid.summary.cost;
    if rules.annealing.stages == 0 {
        return format!(in alloc; "cost of the rows: {cost}");
    }
    let first = laid.first_cost;
    format!(in alloc; "cost of the rows: {cost}, {first} before annealing")
}

// Which placement was taken of several.
fn taken_line(alloc: Global, taken: Taken) -> Result<String, AllocError> {
    let Taken { rows, seed } = taken;
    format!(in alloc; "taken of the tries: {rows} rows, seed {seed}")
}

/// Notes a layout that was made: its size and what of it cells fill, the wire in its channels and that of feeds, the tracks of each channel and how many it needs at least, the ten nets
/// with the most wire in channels, the cost of its rows before and after annealing, and which placement was taken where there were several. What memory has no room for is left out.
pub fn note_layout(alloc: Global, notes: &mut Notes, laid: &LaidLayout<'_>) {
    note(notes, size_line(alloc, laid));
    if let Ok(mut wires) = wires_of(alloc, laid) {
        note(notes, wire_line(alloc, laid, &wires));
        if wires.along > 0 || wires.across > 0 {
            note(notes, nets_line(alloc, laid, &mut wires));
        }
    }
    note_channels(alloc, notes, laid.routed);
    note(notes, cost_line(alloc, laid));
    if let Some(taken) = laid.summary.taken {
        note(notes, taken_line(alloc, taken));
    }
}
