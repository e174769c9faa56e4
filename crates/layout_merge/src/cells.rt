//! The shapes of cells: those of their kinds' drawings, where they cover the same.

ghost use Rattle.design_model.specs.Drawing.{drawing_of};
ghost use Rattle.design_model.specs.Room.{HasRoom};
ghost use Rattle.design_model.specs.declared.design.CellKind.{CellKind as Kind};
ghost use Rattle.geom_core.specs.Moving.{moved_shape};
ghost use Rattle.geom_core.specs.Reach.{IsInReach, IsShapeInReach};
ghost use Rattle.layout_check.specs.CellFaults.{are_shapes, is_shape};
ghost use Rattle.layout_check.specs.Measured.{IsCellAmong};
ghost use Rattle.layout_merge.specs.Drawn.{as_drawn, drawn, is_instance, is_known, kind_named};
ghost use Rattle.std.specs.Option.{option_and_then};
ghost use Rattle.std.specs.Prelude.{◌≡◌, ◌<◌, length, map, slice_get, All, IfOk, IfSome, Some};

use crate::shapes::merged_shapes;
use design_model::{Design, drawing};
use geom_core::{Cell, Layout, Name, Shape, Turn, moved};
use std::alloc::{AllocError, Global};
use tech_rules::Rules;

// Whether two shapes are the same.
fn is_shape(shape: &Shape, other: &Shape) -> bool
    ensures { result ≡ is_shape shape.now other.now }
{
    let a = &shape.rect;
    let b = &other.rect;
    let low = a.x0 == b.x0 && a.y0 == b.y0;
    let high = a.x1 == b.x1 && a.y1 == b.y1;
    shape.layer.text() == other.layer.text() && (low && high)
}

// Whether two lists of shapes are the same.
fn are_shapes(shapes: &[Shape], others: &[Shape]) -> bool
    ensures { result ≡ are_shapes shapes.now others.now }
{
    let mut rest = shapes;
    let mut left = others;
    while let Some((shape, after)) = rest.split_first() {
        let Some((other, later)) = left.split_first() else {
            return false;
        };
        if !is_shape(shape, other) {
            return false;
        }
        rest = after;
        left = later;
    }
    left.is_empty()
}

// The number of the kind of a design that bears the name of a symbol.
fn kind_named(design: &Design, symbol: &Name) -> Option<u32>
    ensures is { option_and_then (slice_get design.now.kinds) result ≡ kind_named design.now symbol.now }
    ensures within { IfSome result (λ n. n < length design.now.kinds) }
{
    let kinds = design.kinds.items();
    for n in 0..kinds.len() {
        if kinds[n].name.items() == symbol.items() {
            return Some(n as u32);
        }
    }
    None
}

// Whether a name is that of an instance.
fn is_instance(design: &Design, name: &Name) -> bool
    ensures { result ≡ is_instance design.now name.now }
{
    let mut rest = design.instances.items();
    while let Some((instance, after)) = rest.split_first() {
        if instance.name.items() == name.items() {
            return true;
        }
        rest = after;
    }
    false
}

/// Whether a call is a cell of the design: it calls one of its kinds, or bears the name of one of its instances.
pub(crate) fn is_known(design: &Design, cell: &Cell) -> bool
    ensures { result ≡ is_known design.now cell.now }
{
    kind_named(design, &cell.symbol).is_some() || is_instance(design, &cell.name)
}

// The shapes of a drawing under a turn.
fn turned(alloc: Global, drawing: &[Shape], turn: &Turn) -> Result<Vec<Shape>, AllocError>
    requires reach { All IsShapeInReach drawing.now }
    requires across { IsInReach turn.now.dx }
    requires up { IsInReach turn.now.dy }
    ensures { IfOk result (λ v. v.items ≡ map (moved_shape turn.now) drawing.now) }
{
    let mut shapes = Vec::with_capacity(alloc, drawing.len())?;
    for n in 0..drawing.len() {
        shapes.push(Shape {
            layer: drawing[n].layer,
            rect: moved(&drawing[n].rect, turn),
        })?;
    }
    Ok(shapes)
}

// The drawing of a kind, which is within reach.
fn kind_drawing(
    alloc: Global,
    rules: &Rules,
    design: &Design,
    kind: u32,
) -> Result<Vec<Shape>, AllocError>
    requires room { HasRoom rules.now design.now }
    requires within { kind < length design.now.kinds }
    ensures is { IfOk result (λ v. (k : Kind) → slice_get design.now.kinds kind ≡ Some k → v.items ≡ drawing_of rules.now k) }
    ensures reach { IfOk result (λ v. All IsShapeInReach v.items) }
{
    let _ = &rules.version;
    let _ = &design.height;
    let shapes = drawing(alloc, design, rules, kind)?;
    Ok(shapes)
}

// The shapes of a drawing, where these cover the same, and else these.
fn as_drawn(
    alloc: Global,
    rules: &Rules,
    shapes: &[Shape],
    drawn: Vec<Shape>,
) -> Result<Vec<Shape>, AllocError>
    ensures { IfOk result (λ v. v.items ≡ as_drawn rules.now shapes.now drawn.items) }
{
    let ours = merged_shapes(alloc, rules, shapes)?;
    let wanted = merged_shapes(alloc, rules, drawn.as_slice())?;
    if are_shapes(ours.as_slice(), wanted.as_slice()) {
        Ok(drawn)
    } else {
        shapes.to_vec(alloc)
    }
}

/// The shapes of a cell of a layout: those of its kind's drawing, where they cover the same. The one error is want of memory.
#[tactic(auto, unfolding(crate::specs::Drawn::drawn))]
pub(crate) fn drawn(
    alloc: Global,
    rules: &Rules,
    design: &Design,
    layout: &Layout,
    cell: &Cell,
) -> Result<Vec<Shape>, AllocError>
    requires room { HasRoom rules.now design.now }
    requires cell { IsCellAmong (length layout.now.shapes) cell.now }
    ensures { IfOk result (λ v. v.items ≡ drawn rules.now design.now layout.now cell.now) }
{
    let first = cell.first as usize;
    let end = first + cell.count as usize;
    let shapes = &layout.shapes.items()[first..end];
    let Some(kind) = kind_named(design, &cell.symbol) else {
        return shapes.to_vec(alloc);
    };
    let drawing = kind_drawing(alloc, rules, design, kind)?;
    let drawn = turned(alloc, drawing.as_slice(), &cell.turn)?;
    as_drawn(alloc, rules, shapes, drawn)
}
