//! A million shapes of which none touch, and a million that all touch.

ghost use Rattle.geom_core.specs.Reach.{IsShapeInReach};
ghost use Rattle.std.specs.Prelude.{◌≡◌, ◌<◌, ◌≤◌, length, All, IfOk};

use geom_core::{LayerName, Rect, Shape};
use geom_extract::shape_classes;
use samples::sample_rules;
use std::alloc::{AllocError, Global};
use std::test::Fail;

// Squares of a layer, of which each begins a step right of the one before.
fn squares(
    alloc: Global,
    layer: LayerName,
    count: usize,
    step: u32,
    side: u32,
) -> Result<Vec<Shape>, AllocError>
    requires few { count ≤ 1000000 }
    requires flat { step ≤ 1000 }
    requires some { 0 < side }
    ensures len { IfOk result (λ v. length v.items ≡ count) }
    ensures reach { IfOk result (λ v. All IsShapeInReach v.items) }
{
    let mut squares = Vec::with_capacity(alloc, count)?;
    let mut at: u32 = 0;
    for _k in 0..count {
        squares.push(square(layer, at, side))?;
        at += step;
    }
    Ok(squares)
}

fn square(layer: LayerName, x: u32, side: u32) -> Shape
    requires { 0 < side }
    ensures { IsShapeInReach result }
{
    Shape {
        layer,
        rect: Rect {
            x0: i64::from(x),
            y0: 0,
            x1: i64::from(x) + i64::from(side),
            y1: i64::from(side),
        },
    }
}

#[test]
fn a_million_that_do_not_touch(rt: HostRuntime) -> Result<(), Fail> {
    let sample = sample_rules(rt.alloc())?;
    let rules = &sample;
    let shapes = squares(rt.alloc(), rules.vertical.layer, 1_000_000, 1000, 999)?;
    let classes = shape_classes(rt.alloc(), shapes.as_slice(), &[], rules)?;
    let mut number: u32 = 0;
    for class in classes.as_slice() {
        assert_eq!(rt; *class, number);
        number = number.wrapping_add(1);
    }
    Ok(())
}

#[test]
fn a_million_that_all_touch(rt: HostRuntime) -> Result<(), Fail> {
    let sample = sample_rules(rt.alloc())?;
    let rules = &sample;
    let shapes = squares(rt.alloc(), rules.horizontal.layer, 1_000_000, 1, 2_000_000)?;
    let classes = shape_classes(rt.alloc(), shapes.as_slice(), &[], rules)?;
    for class in classes.as_slice() {
        assert_eq!(rt; *class, 0);
    }
    Ok(())
}
