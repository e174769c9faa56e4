//! The shapes of a cell kind: its outline, and a pin of the vertical layer at each position.

ghost use Rattle.design_model.specs.Drawing.{drawing_of, extent_of, middle_of, outline_shape, pin_high, pin_low, position_shape};
ghost use Rattle.design_model.specs.Netlist.{IsKind};
ghost use Rattle.design_model.specs.declared.design.CellKind.{CellKind as Kind};
ghost use Rattle.design_model.specs.Room.{least_height};
ghost use Rattle.std.specs.Prelude.{◌≡◌, ◌<◌, ◌≤◌, ◌+◌, ◌*◌, length, slice_get, IfOk, IfSome};

use crate::design::{CellKind, Design, Position};
use geom_core::{Rect, Shape};
use limits::{MOST_HEIGHT, MOST_KIND_COLUMNS, MOST_LENGTH};
use std::alloc::{AllocError, Global};
use tech_rules::Rules;

/// The drawing of the cell kind with this number, in half centimicrons, its lower left corner at (0, 0): its outline, and
/// then for each of its positions in order a pin of the vertical layer and width, in the middle of its column, that reaches
/// inward from its edge. The one error is want of memory.
pub fn drawing(
    alloc: Global,
    design: &Design,
    rules: &Rules,
    kind: u32,
) -> Result<Vec<Shape>, AllocError>
    requires kind { kind < length design.now.kinds }
    requires high { IfSome (slice_get design.now.kinds kind) (λ k. least_height rules.now ≤ k.height) }
    ensures { IfOk result (λ shapes. (k : Kind) → slice_get design.now.kinds kind ≡ Some k → shapes.items ≡ drawing_of rules.now k) }
{
    shapes_of(alloc, rules, &design.kinds.items()[kind as usize])
}

// The drawing of a kind.
fn shapes_of(alloc: Global, rules: &Rules, kind: &CellKind) -> Result<Vec<Shape>, AllocError>
    requires kind { IsKind kind.now }
    requires high { least_height rules.now ≤ kind.now.height }
    ensures { IfOk result (λ shapes. shapes.items ≡ drawing_of rules.now kind.now) }
{
    let mut shapes = Vec::new(alloc);
    shapes.push(outline_shape(rules, kind))?;
    for position in kind.positions.items() {
        shapes.push(position_shape(rules, kind.height, *position))?;
    }
    Ok(shapes)
}

#[tactic(auto, unfolding(crate::specs::Drawing::outline_shape))]
fn outline_shape(rules: &Rules, kind: &CellKind) -> Shape
    requires some { 0 < kind.now.columns }
    requires few { kind.now.columns ≤ MOST_KIND_COLUMNS }
    requires high { least_height rules.now ≤ kind.now.height }
    requires low { kind.now.height ≤ MOST_HEIGHT }
    ensures { result ≡ outline_shape rules.now kind.now }
{
    let width = u64::from(kind.columns) * u64::from(rules.grid.column);
    Shape {
        layer: rules.outline.layer,
        rect: rect_of(
            u64::from(rules.grid.centi),
            0,
            0,
            2 * width,
            2 * u64::from(kind.height),
        ),
    }
}

#[tactic(auto, unfolding(crate::specs::Drawing::position_shape))]
fn position_shape(rules: &Rules, height: u32, position: Position) -> Shape
    requires column { position.column < MOST_KIND_COLUMNS }
    requires high { least_height rules.now ≤ height }
    requires low { height ≤ MOST_HEIGHT }
    ensures { result ≡ position_shape rules.now height position }
{
    let middle = middle_of(u64::from(rules.grid.column), u64::from(position.column));
    let width = u64::from(rules.vertical.width);
    let pin = u64::from(rules.grid.pin);
    let (low, high) = pin_ends(pin, u64::from(height), position.top);
    Shape {
        layer: rules.vertical.layer,
        rect: rect_of(
            u64::from(rules.grid.centi),
            middle - width,
            low,
            middle + width,
            high,
        ),
    }
}

// The middle of a column in half units.
fn middle_of(pitch: u64, column: u64) -> u64
    requires few { column < MOST_KIND_COLUMNS }
    requires narrow { pitch ≤ MOST_LENGTH }
    ensures is { result ≡ middle_of pitch column }
    ensures beyond { pitch ≤ result }
    ensures within { result ≤ 200000001000 }
{
    2 * (column * pitch) + pitch
}

// The lower and the upper end of a pin in half units.
fn pin_ends(pin: u64, height: u64, top: bool) -> (u64, u64)
    requires some { 0 < pin }
    requires high { 2 * pin ≤ height }
    requires low { height ≤ MOST_HEIGHT }
    ensures low { result.0 ≡ pin_low pin height top }
    ensures high { result.1 ≡ pin_high pin height top }
    ensures apart { result.0 < result.1 }
    ensures within { result.1 ≤ 400000000 }
{
    if top {
        (2 * (height - pin), 2 * height)
    } else {
        (0, 2 * pin)
    }
}

// The rectangle with these sides in half units.
fn rect_of(centi: u64, x0: u64, y0: u64, x1: u64, y1: u64) -> Rect
    requires some { 0 < centi }
    requires few { centi ≤ MOST_LENGTH }
    requires wide { x0 < x1 }
    requires high { y0 < y1 }
    requires x { x1 ≤ 400000000000 }
    requires y { y1 ≤ 400000000000 }
    ensures { result ≡ extent_of centi x0 y0 x1 y1 }
{
    Rect {
        x0: (x0 * centi) as i64,
        y0: (y0 * centi) as i64,
        x1: (x1 * centi) as i64,
        y1: (y1 * centi) as i64,
    }
}
