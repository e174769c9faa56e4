//! A wire, a cut on it that shares no centre with it, a wire of the other layer on the cut, and an outline over all.

ghost use Rattle.geom_core.specs.Reach.{IsShapeInReach};
ghost use Rattle.std.specs.Prelude.{◌<◌, ◌≤◌};

use geom_core::{LayerName, Rect, Shape};
use geom_extract::shape_classes;
use samples::sample_rules;
use std::alloc::{AllocError, Global};
use std::test::Fail;

fn shape(layer: LayerName, x0: u32, y0: u32, width: u32, height: u32) -> Shape
    requires width { 0 < width }
    requires height { 0 < height }
    requires thin { width ≤ 1000 }
    requires flat { height ≤ 1000 }
    requires left { x0 ≤ 1000 }
    requires low { y0 ≤ 1000 }
    ensures { IsShapeInReach result }
{
    Shape {
        layer,
        rect: Rect {
            x0: i64::from(x0),
            y0: i64::from(y0),
            x1: i64::from(x0) + i64::from(width),
            y1: i64::from(y0) + i64::from(height),
        },
    }
}

fn classes(alloc: Global, tied: bool) -> Result<Vec<u32>, AllocError> {
    let sample = sample_rules(alloc)?;
    let rules = &sample;
    let shapes = [
        shape(rules.horizontal.layer, 0, 0, 100, 10),
        shape(rules.cut.layer, 90, 5, 10, 10),
        shape(rules.vertical.layer, 100, 15, 10, 100),
        shape(rules.outline.layer, 0, 0, 200, 200),
        shape(rules.horizontal.layer, 0, 50, 200, 10),
        shape(rules.cut.layer, 95, 10, 10, 4),
        shape(rules.vertical.layer, 300, 0, 10, 10),
    ];
    if tied {
        shape_classes(alloc, &shapes, &[(6, 4)], rules)
    } else {
        shape_classes(alloc, &shapes, &[], rules)
    }
}

// The second cut meets the first wire; the crossing wires of two layers don't conduct, nor does the outline.
#[test]
fn a_chain_of_corners(rt: HostRuntime) -> Result<(), Fail> {
    let classes = classes(rt.alloc(), false)?;
    assert_eq!(rt; classes.as_slice(), [0, 0, 0, 3, 4, 0, 6].as_slice());
    Ok(())
}

#[test]
fn a_tie_joins(rt: HostRuntime) -> Result<(), Fail> {
    let classes = classes(rt.alloc(), true)?;
    assert_eq!(rt; classes.as_slice(), [0, 0, 0, 3, 4, 0, 4].as_slice());
    Ok(())
}
