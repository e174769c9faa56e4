//! The drawing of each cell kind, and whether a cell is a copy of one under its turn.

ghost use Rattle.geom_core.specs.Moving.{moved_shape};
ghost use Rattle.geom_core.specs.Reach.{IsInReach, IsShapeInReach};
ghost use Rattle.layout_check.specs.CellFaults.{are_shapes, is_extent, is_shape};
ghost use Rattle.layout_check.specs.Drawings.{drawings_of, is_copy_with, AreForKinds};
ghost use Rattle.layout_check.specs.Measured.{IsCellAmong};
ghost use Rattle.std.specs.Prelude.{◌≡◌, length, map, All, IfOk};

use crate::case::Case;
use design_model::drawing;
use geom_core::{Cell, Items, Layout, Name, Rect, Shape, Turn, moved};
use std::alloc::{AllocError, Global};

/// The drawing of each kind of a design. The one error is want of memory.
pub(crate) fn drawings(alloc: Global, case: &Case) -> Result<Vec<Items<Shape>>, AllocError>
    ensures is { IfOk result (λ v. v.items ≡ drawings_of case.now.rules.now case.now.design.now) }
    ensures kinds { IfOk result (λ v. AreForKinds case.now.design.now v.items) }
{
    let design = case.design;
    let rules = case.rules;
    let _ = &rules.version;
    let kinds = design.kinds.items();
    let mut drawings = Vec::with_capacity(alloc, kinds.len())?;
    for n in 0..kinds.len() {
        drawings.push(Items::new(drawing(alloc, design, rules, n as u32)?))?;
    }
    Ok(drawings)
}

/// Whether a cell is a copy of the symbol of this name, upright, mirrored perhaps, with the shapes of a drawing under its turn as its own.
pub(crate) fn is_copy_with(layout: &Layout, name: &Name, drawing: &[Shape], cell: &Cell) -> bool
    requires cell { IsCellAmong (length layout.now.shapes) cell.now }
    requires reach { All IsShapeInReach drawing.now }
    ensures { result ≡ is_copy_with layout.now name.now drawing.now cell.now }
{
    if cell.symbol.items() != name.items() {
        return false;
    }
    if cell.turn.quarters != 0 {
        return false;
    }
    let first = cell.first as usize;
    let end = first + cell.count as usize;
    are_moved(&layout.shapes.items()[first..end], drawing, &cell.turn)
}

// Whether these shapes are those of a drawing under a turn.
fn are_moved(shapes: &[Shape], drawing: &[Shape], turn: &Turn) -> bool
    requires reach { All IsShapeInReach drawing.now }
    requires across { IsInReach turn.now.dx }
    requires up { IsInReach turn.now.dy }
    ensures { result ≡ are_shapes shapes.now (map (moved_shape turn.now) drawing.now) }
{
    let mut rest = shapes;
    let mut left = drawing;
    while let Some((shape, after)) = rest.split_first() {
        let Some((next, later)) = left.split_first() else {
            return false;
        };
        if !is_moved(shape, next, turn) {
            return false;
        }
        rest = after;
        left = later;
    }
    left.is_empty()
}

// Whether a shape is this one under a turn.
fn is_moved(shape: &Shape, drawn: &Shape, turn: &Turn) -> bool
    requires reach { IsShapeInReach drawn.now }
    requires across { IsInReach turn.now.dx }
    requires up { IsInReach turn.now.dy }
    ensures { result ≡ is_shape shape.now (moved_shape turn.now drawn.now) }
{
    let stands = is_rect(&shape.rect, &moved(&drawn.rect, turn));
    shape.layer.text() == drawn.layer.text() && stands
}

// Whether two rectangles have the same sides.
fn is_rect(a: &Rect, b: &Rect) -> bool
    ensures { result ≡ is_extent a.now b.now }
{
    let low = a.x0 == b.x0 && a.y0 == b.y0;
    let high = a.x1 == b.x1 && a.y1 == b.y1;
    low && high
}
