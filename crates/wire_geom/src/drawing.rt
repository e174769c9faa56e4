//! The rectangles of a channel's wiring: one for each segment, and two pads and a cut for each via.

ghost use Rattle.channel_model.specs.Elements.{segment as seg, elements};
ghost use Rattle.channel_model.specs.Pins.{Pins};
ghost use Rattle.channel_model.specs.Wired.{Wired, IsOnGrid};
ghost use Rattle.std.specs.List.{All, flat_map};
ghost use Rattle.std.specs.Prelude.{◌≡◌, ◌<◌, ◌≤◌, ◌+◌, ◌*◌, ◌++◌, ◌^◌, ℕ, List, IfOk, OnOk, Some, length, map, slice_get};
ghost use Rattle.tech_rules.specs.Rules.{RuleValues, pad as side_of_pad};
ghost use Rattle.wire_geom.specs.Columns.{InColumns};
ghost use Rattle.wire_geom.specs.Contact.{KeepContact};
ghost use Rattle.wire_geom.specs.Drawing.{on_horizontal, on_vertical, on_cut, segment_piece, via_piece, via_pieces, drawn_of, drawing, upright};
ghost use Rattle.wire_geom.specs.Edges.{KeepEdges, MeetEntries, bottom_entry, top_entry};
ghost use Rattle.wire_geom.specs.Grid.{line_at};
ghost use Rattle.wire_geom.specs.Spaces.{NetsApart};
ghost use Rattle.wire_geom.specs.Widths.{AreWide};

use crate::boxes::{across_rect, along_rect, square_rect, upright_rect};
use crate::drawn::Drawn;
use channel_model::{Segment, Via, Wiring};
use geom_core::{LayerName, Rect, Shape};
use std::alloc::{AllocError, Global};
use tech_rules::Rules;

/// The rectangles of a channel's wiring, in half centimicrons; `base` is the height of the channel's lower edge in units.
///
/// An Across is drawn on the vertical layer, as wide as that layer's wires, in the middle of its column; it ends half a pad beyond
/// its tracks, and exactly at the channel's edge where it reaches one. An Along is drawn on the horizontal layer, around its
/// track, to half a pad beyond its columns. A via is drawn as a pad on the horizontal layer, one on the vertical layer, and a cut.
/// The segments come in order, then the vias. The elements have to lie within the wiring's columns and lines.
///
/// Where the wiring connects its channel, the wires are wide enough and the cuts lie in pads; rectangles of different nets keep
/// their layer's space; all lie in the wiring's columns; a rectangle comes to an edge of the channel only over an entry of its net, and ends exactly there, and each entry is so met; and
/// where elements share a point of a layer, their rectangles do. The one error is want of memory.
pub fn draw(
    alloc: Global,
    wiring: &Wiring,
    base: u32,
    rules: &Rules,
) -> Result<Vec<Drawn>, AllocError>
    requires { All (IsOnGrid wiring.now.columns wiring.now.tracks) (elements wiring.now) }
    ensures drawn { IfOk result (λ drawn. drawn.items ≡ drawing rules.now base wiring.now) }
    ensures wide { IfOk result (λ drawn. (pins : Pins) → Wired pins wiring.now → AreWide rules.now drawn.items) }
    ensures apart { IfOk result (λ drawn. (pins : Pins) → Wired pins wiring.now → NetsApart rules.now drawn.items) }
    ensures contact { IfOk result (λ drawn. (pins : Pins) → Wired pins wiring.now → KeepContact rules.now base wiring.now drawn.items) }
    ensures columns { IfOk result (λ drawn. (pins : Pins) → Wired pins wiring.now → InColumns rules.now wiring.now.columns drawn.items) }
    ensures edges { IfOk result (λ drawn. (pins : Pins) → Wired pins wiring.now
        → KeepEdges rules.now (line_at rules.now base 0) (line_at rules.now base (wiring.now.tracks + 1)) (bottom_entry pins) (top_entry pins) drawn.items) }
    ensures entries { IfOk result (λ drawn. (pins : Pins) → Wired pins wiring.now
        → MeetEntries rules.now (line_at rules.now base 0) (line_at rules.now base (wiring.now.tracks + 1)) (bottom_entry pins) (top_entry pins) drawn.items) }
{
    // That the rules are valid is known once they are asked.
    let _pad = rules.pad();
    let mut drawn = Vec::new(alloc);
    for k in 0..shapes(wiring) {
        drawn.push(shape_at(wiring, k, base, rules))?;
    }
    Ok(drawn)
}

/// How many rectangles a wiring is drawn with: one for each segment and three for each via. Takes no memory.
pub fn shapes(wiring: &Wiring) -> u64
    ensures counted { result ≡ length wiring.now.segments + 3 * length wiring.now.vias }
    ensures drawn { (r : RuleValues) (base : ℕ) → length (drawing r base wiring.now) ≡ result }
{
    wiring.segments.items().len() as u64 + 3 * wiring.vias.items().len() as u64
}

/// The rectangle with number `k` of those with which a wiring is drawn, as `draw` lists them. `base` is the height of the channel's lower edge in units. The
/// elements have to lie within the wiring's columns and lines. Takes no memory.
pub fn shape_at(wiring: &Wiring, k: u64, base: u32, rules: &Rules) -> Drawn
    requires on_grid { All (IsOnGrid wiring.now.columns wiring.now.tracks) (elements wiring.now) }
    requires within { k < length wiring.now.segments + 3 * length wiring.now.vias }
    ensures { slice_get (drawing rules.now base wiring.now) k ≡ Some result }
{
    let segments = wiring.segments.items();
    let count = segments.len() as u64;
    if k < count {
        return segment_drawn(segments[k as usize], wiring, base, rules);
    }
    let part = k - count;
    via_drawn(
        wiring.vias.items()[(part / 3) as usize],
        part % 3,
        base,
        rules,
    )
}

/// A vertical wire of a net in the middle of a column, from one height in units to a greater one, in half centimicrons. Takes no memory.
pub fn upright(rules: &Rules, low: u64, high: u64, column: u32, net: u32) -> Drawn
    requires ordered { low < high }
    requires within { high ≤ 2 ^ 33 }
    ensures { result ≡ upright rules.now low high column net }
{
    drawn_on(
        rules.vertical.layer,
        upright_rect(rules, low, high, column),
        net,
    )
}

// A rectangle of a via: its horizontal pad, its vertical pad, or its cut.
fn via_drawn(via: Via, part: u64, base: u32, rules: &Rules) -> Drawn
    requires { part < 3 }
    ensures { slice_get (map (drawn_of rules.now) (via_pieces rules.now base via)) part ≡ Some result }
{
    let side = if part == 2 {
        rules.cut.size
    } else {
        rules.pad()
    };
    let layer = match part {
        0 => rules.horizontal.layer,
        1 => rules.vertical.layer,
        _ => rules.cut.layer,
    };
    drawn_on(
        layer,
        square_rect(rules, base, side, via.column, via.track),
        via.net,
    )
}

// The rectangle of a segment.
fn segment_drawn(segment: Segment, wiring: &Wiring, base: u32, rules: &Rules) -> Drawn
    requires { IsOnGrid wiring.now.columns wiring.now.tracks (seg segment) }
    ensures { result ≡ drawn_of rules.now (segment_piece rules.now base wiring.now.tracks segment) }
{
    match segment {
        Segment::Across {
            net,
            column,
            low,
            high,
        } => drawn_on(
            rules.vertical.layer,
            across_rect(rules, base, wiring.tracks, column, low, high),
            net,
        ),
        Segment::Along {
            net,
            track,
            from,
            to,
        } => drawn_on(
            rules.horizontal.layer,
            along_rect(rules, base, track, from, to),
            net,
        ),
    }
}

// A rectangle of a net on a layer.
fn drawn_on(layer: LayerName, rect: Rect, net: u32) -> Drawn
    ensures { result ≡ record { shape = record { layer = layer; rect = rect }; net = net } }
{
    Drawn {
        shape: Shape { layer, rect },
        net,
    }
}
