//! Whether a wiring connects its channel, looked at point by point.

use channel_model::{Channel, Segment, Via, Wiring};
use std::alloc::{AllocError, Global};

// An element as the points that it covers: on one layer or both, in columns `left` to `right` and on lines `low` to `high`.
#[derive(Clone, Copy)]
struct Element {
    net: u32,
    vertical: bool,
    horizontal: bool,
    left: u32,
    right: u32,
    low: u32,
    high: u32,
}

fn of_segment(segment: Segment) -> Element {
    match segment {
        Segment::Across {
            net,
            column,
            low,
            high,
        } => Element {
            net,
            vertical: true,
            horizontal: false,
            left: column,
            right: column,
            low,
            high,
        },
        Segment::Along {
            net,
            track,
            from,
            to,
        } => Element {
            net,
            vertical: false,
            horizontal: true,
            left: from,
            right: to,
            low: track,
            high: track,
        },
    }
}

fn of_via(via: Via) -> Element {
    Element {
        net: via.net,
        vertical: true,
        horizontal: true,
        left: via.column,
        right: via.column,
        low: via.track,
        high: via.track,
    }
}

fn elements_of(alloc: Global, wiring: &Wiring) -> Result<Vec<Element>, AllocError> {
    let mut elements = Vec::new(alloc);
    for segment in wiring.segments.items() {
        elements.push(of_segment(*segment))?;
    }
    for via in wiring.vias.items() {
        elements.push(of_via(*via))?;
    }
    Ok(elements)
}

fn share_a_point(e: Element, f: Element) -> bool {
    ((e.vertical && f.vertical) || (e.horizontal && f.horizontal))
        && e.left <= f.right
        && f.left <= e.right
        && e.low <= f.high
        && f.low <= e.high
}

// The net of an edge's pin in a column, 0 where there is none.
fn pin(side: &[u32], column: u32) -> u32 {
    side.get(column as usize).copied().unwrap_or(0)
}

// Whether an element lies within the wiring: a vertical piece goes up from line 0 at the lowest to the line above all tracks at the
// highest, and all else lies on tracks.
fn is_on_grid(wiring: &Wiring, e: Element) -> bool {
    let on_lines = if e.vertical && !e.horizontal {
        e.low < e.high && e.high as u64 <= wiring.tracks as u64 + 1
    } else {
        0 < e.low && e.high <= wiring.tracks
    };
    on_lines && e.left <= e.right && e.right < wiring.columns
}

// Whether what reaches an edge is of the net of the pin there, and the net has a pin.
fn keeps_edges(channel: &Channel, wiring: &Wiring, e: Element) -> bool {
    let top = channel.top.items();
    let bottom = channel.bottom.items();
    e.net != 0
        && (top.contains(&e.net) || bottom.contains(&e.net))
        && (e.low > 0 || pin(bottom, e.left) == e.net)
        && (e.high <= wiring.tracks || pin(top, e.left) == e.net)
}

// Whether the pins of a column are met at their edges.
fn are_pins_met(channel: &Channel, wiring: &Wiring, elements: &[Element], column: u32) -> bool {
    let below = pin(channel.bottom.items(), column);
    let above = pin(channel.top.items(), column);
    let lowest = elements
        .iter()
        .any(|e| e.net == below && e.left == column && e.low == 0);
    let highest = elements.iter().any(|e| e.net == above
        && e.left == column
        && e.high > wiring.tracks);
    (below == 0 || lowest) && (above == 0 || highest)
}

// Marks, of the elements, those that share a point with one that is marked, as often as there is one more.
fn flood(elements: &[Element], marked: &mut [bool]) {
    for _ in 0..elements.len() {
        for (i, e) in elements.iter().enumerate() {
            if marked.get(i).copied().unwrap_or(false) {
                mark_neighbours(*e, elements, marked);
            }
        }
    }
}

fn mark_neighbours(e: Element, elements: &[Element], marked: &mut [bool]) {
    for (f, mark) in elements.iter().zip(marked.iter_mut()) {
        if share_a_point(e, *f) {
            *mark = true;
        }
    }
}

// Whether all elements of a net are linked to its first one, and no others are. A later one of the net has been looked at with it.
fn is_one_net(alloc: Global, elements: &[Element], first: usize) -> Result<bool, AllocError> {
    let Some(one) = elements.get(first) else {
        return Ok(false);
    };
    if elements.iter().take(first).any(|e| e.net == one.net) {
        return Ok(true);
    }
    let mut marked = vec![in alloc; false; elements.len()]?;
    if let Some(mark) = marked.get_mut(first) {
        *mark = true;
    }
    flood(elements, &mut marked);
    Ok(
        elements
            .iter()
            .zip(marked.iter())
            .all(|(e, mark)| (e.net == one.net) == *mark),
    )
}

/// Whether a wiring connects a channel: it has the channel's columns, its elements are on the grid and are of the channel's nets,
/// no two nets share a point, only pins are met at the edges, each pin is, and each net is in one piece.
pub(crate) fn is_connected(
    alloc: Global,
    channel: &Channel,
    wiring: &Wiring,
) -> Result<bool, AllocError> {
    let elements = elements_of(alloc, wiring)?;
    let width = channel.top.items().len();
    if (wiring.columns as usize) < width {
        return Ok(false);
    }
    for e in elements.iter() {
        if !is_on_grid(wiring, *e) || !keeps_edges(channel, wiring, *e) {
            return Ok(false);
        }
    }
    for column in 0..wiring.columns {
        if !are_pins_met(channel, wiring, &elements, column) {
            return Ok(false);
        }
    }
    for first in 0..elements.len() {
        if !is_one_net(alloc, &elements, first)? {
            return Ok(false);
        }
    }
    Ok(true)
}
