//! The rectangles of wirings.

ghost use Rattle.channel_model.specs.Elements.{elements};
ghost use Rattle.channel_model.specs.Wired.{IsOnGrid};
ghost use Rattle.std.specs.List.{All};
ghost use Rattle.std.specs.Prelude.{◌≡◌, IfOk};
ghost use Rattle.channel_tests.specs.Samples.{joined_pins, near_vias};

use channel_model::{Segment, Via, Wiring};
use geom_core::{Items, Name};
use samples::sample_rules;
use std::alloc::{AllocError, Global};
use std::test::Fail;
use tech_rules::{Cut, Grid, Rules, Wires};
use wire_geom::{Drawn, draw};

// Two pins side by side, joined on the one track above them.
fn joined_pins(alloc: Global) -> Result<Wiring, AllocError>
    ensures { IfOk result (λ wiring. wiring ≡ joined_pins) }
{
    let segments = vec![in alloc;
        across(0, 0, 1),
        across(1, 0, 1),
        Segment::Along {
            net: 1,
            track: 1,
            from: 0,
            to: 1
        },
    ]?;
    Ok(Wiring {
        tracks: 1,
        columns: 2,
        segments: Items::new(segments),
        vias: Items::new(vec![in alloc; via(1, 0, 1), via(1, 1, 1)]?),
    })
}

// Vias of three nets, as near to each other as a wiring can have them.
fn near_vias(alloc: Global) -> Result<Wiring, AllocError>
    ensures { IfOk result (λ wiring. wiring ≡ near_vias) }
{
    Ok(Wiring {
        tracks: 2,
        columns: 2,
        segments: Items::new(Vec::new(alloc)),
        vias: Items::new(vec![in alloc; via(1, 0, 1), via(2, 1, 1), via(3, 0, 2)]?),
    })
}

fn across(column: u32, low: u32, high: u32) -> Segment
    ensures { result ≡ Segment.Across 1 column low high }
{
    Segment::Across {
        net: 1,
        column,
        low,
        high,
    }
}

fn via(net: u32, column: u32, track: u32) -> Via
    ensures { result ≡ record { net = net; column = column; track = track } }
{
    Via { net, column, track }
}

// Rules in which wires are as wide as pads, and pads and cuts with their spaces fill a column and a track.
fn tight_rules(alloc: Global) -> Result<Rules, AllocError> {
    let sample = sample_rules(alloc)?;
    Ok(Rules {
        version: 1,
        yal: Name::new(b"POLY".to_vec(alloc)?),
        decimals: 0,
        grid: Grid {
            column: 8,
            track: 8,
            centi: 4,
            pin: 4,
        },
        horizontal: Wires {
            width: 4,
            space: 4,
            ..sample.horizontal
        },
        vertical: Wires {
            width: 4,
            space: 4,
            ..sample.vertical
        },
        cut: Cut {
            size: 2,
            enclose: 1,
            space: 6,
            ..sample.cut
        },
        outline: sample.outline,
        annealing: sample.annealing,
    })
}

// The left, lower, right and upper side.
fn sides(drawn: &Drawn) -> [i64; 4] {
    let rect = drawn.shape.rect;
    [rect.x0, rect.y0, rect.x1, rect.y1]
}

// Whether a shape is that of a net on a layer, with these sides.
fn is_drawn(drawn: &Drawn, layer: &[u8], net: u32, expected: [i64; 4]) -> bool {
    drawn.shape.layer.text() == layer && drawn.net == net && sides(drawn) == expected
}

// Whether these are the shapes, each with its layer, its net and its sides.
fn are_drawn(drawn: &[Drawn], boxes: &[(&[u8], u32, [i64; 4])]) -> bool {
    for (drawn, (layer, net, expected)) in drawn.iter().zip(boxes) {
        if !is_drawn(drawn, layer, *net, *expected) {
            return false;
        }
    }
    drawn.len() == boxes.len()
}

// In CIF these are `B 300 1000 400 5300;` on NP and so on, where the channel lies above a row of 40 units that stands on one of 8.
const JOINED: [(&[u8], u32, [i64; 4]); 9] = [
    (b"NP", 1, [500, 9600, 1100, 11600]),
    (b"NP", 1, [2100, 9600, 2700, 11600]),
    (b"NM", 1, [400, 10900, 2800, 11500]),
    (b"NM", 1, [400, 10800, 1200, 11600]),
    (b"NP", 1, [400, 10800, 1200, 11600]),
    (b"NC", 1, [600, 11000, 1000, 11400]),
    (b"NM", 1, [2000, 10800, 2800, 11600]),
    (b"NP", 1, [2000, 10800, 2800, 11600]),
    (b"NC", 1, [2200, 11000, 2600, 11400]),
];

// Whether a wiring above this line is drawn as these shapes.
fn are_wires(
    alloc: Global,
    wiring: &Wiring,
    base: u32,
    rules: &Rules,
    boxes: &[(&[u8], u32, [i64; 4])],
) -> Result<bool, AllocError>
    requires { All (IsOnGrid wiring.now.columns wiring.now.tracks) (elements wiring.now) }
{
    let drawn = draw(alloc, wiring, base, rules)?;
    Ok(are_drawn(drawn.as_slice(), boxes))
}

fn are_joined(alloc: Global, rules: &Rules) -> Result<bool, AllocError> {
    let wiring = joined_pins(alloc)?;
    are_wires(alloc, &wiring, 48, rules, &JOINED)
}

#[test]
fn two_joined_pins_are_drawn_as_nine_boxes(rt: HostRuntime) -> Result<(), Fail> {
    let rules = sample_rules(rt.alloc())?;
    assert!(rt; are_joined(rt.alloc(), &rules)?);
    Ok(())
}

// Between pads are 4 units, which are 32 half centimicrons, and between cuts 6.
const TIGHT: [(&[u8], u32, [i64; 4]); 9] = [
    (b"NM", 1, [16, 48, 48, 80]),
    (b"NP", 1, [16, 48, 48, 80]),
    (b"NC", 1, [24, 56, 40, 72]),
    (b"NM", 2, [80, 48, 112, 80]),
    (b"NP", 2, [80, 48, 112, 80]),
    (b"NC", 2, [88, 56, 104, 72]),
    (b"NM", 3, [16, 112, 48, 144]),
    (b"NP", 3, [16, 112, 48, 144]),
    (b"NC", 3, [24, 120, 40, 136]),
];

fn are_tight(alloc: Global, rules: &Rules) -> Result<bool, AllocError> {
    let wiring = near_vias(alloc)?;
    are_wires(alloc, &wiring, 0, rules, &TIGHT)
}

#[test]
fn tight_rules_leave_just_their_spaces(rt: HostRuntime) -> Result<(), Fail> {
    let rules = tight_rules(rt.alloc())?;
    assert!(rt; are_tight(rt.alloc(), &rules)?);
    Ok(())
}
