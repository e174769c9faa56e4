//! Shapes for tests.

ghost use Rattle.geom_core.specs.Reach.{IsShapeInReach};
ghost use Rattle.std.specs.Prelude.{◌≡◌, ◌<◌, ◌≤◌, ◌^◌, length, All, IfOk};

use geom_core::{LayerName, Rect, Shape};
use std::alloc::{AllocError, Global};
use tech_rules::Rules;

/// A layer of the rules.
#[derive(Clone, Copy)]
pub(crate) enum On {
    Horizontal,
    Vertical,
    Cut,
    Outline,
}

/// A shape in a table: its layer, its lower left corner, its width and its height.
pub(crate) type Placed = (On, u32, u32, u32, u32);

// A rectangle whose lower left corner is at a place.
pub(crate) fn shape(layer: LayerName, x: u32, y: u32, width: u32, height: u32) -> Shape
    requires across { 0 < width }
    requires up { 0 < height }
    ensures { IsShapeInReach result }
{
    Shape {
        layer,
        rect: Rect {
            x0: i64::from(x),
            y0: i64::from(y),
            x1: i64::from(x) + i64::from(width),
            y1: i64::from(y) + i64::from(height),
        },
    }
}

pub(crate) fn layer_of(rules: &Rules, on: On) -> LayerName {
    match on {
        On::Horizontal => rules.horizontal.layer,
        On::Vertical => rules.vertical.layer,
        On::Cut => rules.cut.layer,
        On::Outline => rules.outline.layer,
    }
}

// The shape of a table's entry. A side of 0 counts as 1.
fn shape_at(rules: &Rules, placed: &Placed) -> Shape
    ensures { IsShapeInReach result }
{
    let (on, x, y, width, height) = *placed;
    shape(layer_of(rules, on), x, y, width.max(1), height.max(1))
}

// The shapes of a table.
pub(crate) fn shapes_of(
    alloc: Global,
    rules: &Rules,
    table: &[Placed],
) -> Result<Vec<Shape>, AllocError>
    ensures len { IfOk result (λ v. length v.items ≡ length table.now) }
    ensures reach { IfOk result (λ v. All IsShapeInReach v.items) }
{
    let mut shapes = Vec::new(alloc);
    for placed in table {
        shapes.push(shape_at(rules, placed))?;
    }
    Ok(shapes)
}

// So many squares, of which each begins a step right of and above the one before.
pub(crate) fn stairs(
    alloc: Global,
    layer: LayerName,
    count: usize,
    step: u32,
    side: u32,
) -> Result<Vec<Shape>, AllocError>
    requires few { count ≤ 1000000 }
    requires flat { step ≤ 1000 }
    requires some { 0 < side }
    ensures len { IfOk result (λ v. length v.items ≡ count) }
    ensures reach { IfOk result (λ v. All IsShapeInReach v.items) }
{
    let mut squares = Vec::with_capacity(alloc, count)?;
    let mut at: u32 = 0;
    for _k in 0..count {
        squares.push(shape(layer, at, at, side, side))?;
        at += step;
    }
    Ok(squares)
}

// Squares in rows and columns, which touch where their side is the pitch.
pub(crate) fn grid(
    alloc: Global,
    layer: LayerName,
    rows: usize,
    columns: usize,
    pitch: u32,
    side: u32,
) -> Result<Vec<Shape>, AllocError>
    requires few_rows { rows ≤ 1000 }
    requires few_columns { columns ≤ 1000 }
    requires near { pitch ≤ 1000 }
    requires some { 0 < side }
    ensures len { IfOk result (λ v. length v.items < 2 ^ 32) }
    ensures reach { IfOk result (λ v. All IsShapeInReach v.items) }
{
    let mut squares = Vec::new(alloc);
    let mut y: u32 = 0;
    for _row in 0..rows {
        let mut x: u32 = 0;
        for _column in 0..columns {
            squares.push(shape(layer, x, y, side, side))?;
            x += pitch;
        }
        y += pitch;
    }
    Ok(squares)
}

// Numbers from 0 on, of which those from place `own` on are their places and the others are 0.
pub(crate) fn numbers(alloc: Global, count: usize, own: usize) -> Result<Vec<u32>, AllocError>
    requires { count < 2 ^ 32 }
    ensures { IfOk result (λ v. length v.items ≡ count) }
{
    let mut numbers = Vec::with_capacity(alloc, count)?;
    for k in 0..count {
        numbers.push(number(k as u32, own))?;
    }
    Ok(numbers)
}

fn number(k: u32, own: usize) -> u32 {
    if (k as usize) < own { 0 } else { k }
}
