//! Whether the cells of a layout are those of a design, in the order of the instances.

ghost use Rattle.design_model.specs.CellsMatch.{CellsMatch, shapes_of};
ghost use Rattle.extract_tests.specs.InOrder.{AreInOrder, IsCellOf};
ghost use Rattle.geom_core.specs.Moving.{moved_shape};
ghost use Rattle.geom_core.specs.Reach.{IsExtentInReach, IsInReach};
ghost use Rattle.std.specs.Bool.{OnTrue};
ghost use Rattle.std.specs.Prelude.{◌≡◌, ◌≤◌, ◌<◌, length, map, true, IfOk};

use design_model::{Design, Inst, drawing};
use geom_core::{Cell, Layout, Rect, Shape, Turn, moved};
use std::alloc::{AllocError, Global};
use tech_rules::Rules;

fn is_in_reach(n: i64) -> bool
    ensures { OnTrue result (IsInReach n) }
{
    -1_000_000_000_000_000 <= n && n <= 1_000_000_000_000_000
}

fn is_rect_in_reach(rect: &Rect) -> bool
    ensures { OnTrue result (IsExtentInReach rect.now) }
{
    is_in_reach(rect.x0) && is_in_reach(rect.y0) && is_in_reach(rect.x1) && is_in_reach(rect.y1)
}

fn is_turn_in_reach(turn: &Turn) -> bool
    ensures across { OnTrue result (IsInReach turn.now.dx) }
    ensures up { OnTrue result (IsInReach turn.now.dy) }
{
    is_in_reach(turn.dx) && is_in_reach(turn.dy)
}

// Whether two rectangles have the same sides.
fn are_equal(a: &Rect, b: &Rect) -> bool
    ensures { OnTrue result (a.now ≡ b.now) }
{
    if a.x0 != b.x0 || a.y0 != b.y0 {
        return false;
    }
    if a.x1 != b.x1 || a.y1 != b.y1 {
        return false;
    }
    true
}

// Whether a shape is this one under a turn.
fn is_moved(shape: &Shape, drawn: &Shape, turn: &Turn) -> bool
    ensures { OnTrue result (shape.now ≡ moved_shape turn.now drawn.now) }
{
    if !is_rect_in_reach(&drawn.rect) || !is_turn_in_reach(turn) {
        return false;
    }
    if shape.layer.text() != drawn.layer.text() {
        return false;
    }
    are_equal(&shape.rect, &moved(&drawn.rect, turn))
}

// Whether these shapes are those of a drawing under a turn.
fn are_moved(shapes: &[Shape], drawn: &[Shape], turn: &Turn) -> bool
    ensures { OnTrue result (shapes.now ≡ map (moved_shape turn.now) drawn.now) }
{
    let mut rest = shapes;
    let mut left = drawn;
    while let Some((shape, after)) = rest.split_first() {
        let Some((next, later)) = left.split_first() else {
            return false;
        };
        if !is_moved(shape, next, turn) {
            return false;
        }
        rest = after;
        left = later;
    }
    left.is_empty()
}

// Whether the shapes of a cell are those of a drawing under its turn.
fn has_shapes(layout: &Layout, cell: &Cell, drawn: &[Shape]) -> bool
    ensures { OnTrue result (shapes_of layout.now cell.now ≡ map (moved_shape cell.now.turn) drawn.now) }
{
    let shapes = layout.shapes.items();
    let first = cell.first as usize;
    let count = cell.count as usize;
    if first + count > shapes.len() {
        return false;
    }
    are_moved(&shapes[first..first + count], drawn, &cell.turn)
}

// Whether a cell has the name of an instance, and is an upright copy of its kind.
fn is_cell_of(
    alloc: Global,
    layout: &Layout,
    design: &Design,
    rules: &Rules,
    inst: &Inst,
    cell: &Cell,
) -> Result<bool, AllocError>
    requires kind { inst.now.kind < length design.now.kinds }
    ensures { IfOk result (λ b. OnTrue b (IsCellOf rules.now design.now layout.now inst.now cell.now)) }
{
    let kind = &design.kinds.items()[inst.kind as usize];
    if kind.height < 2 * rules.grid.pin + rules.vertical.space {
        return Ok(false);
    }
    let drawn = drawing(alloc, design, rules, inst.kind)?;
    if cell.name != inst.name {
        return Ok(false);
    }
    if cell.symbol != kind.name || cell.turn.quarters != 0 {
        return Ok(false);
    }
    Ok(has_shapes(layout, cell, drawn.as_slice()))
}

// Whether each cell is that of the instance at its place.
fn are_in_order(
    alloc: Global,
    layout: &Layout,
    design: &Design,
    rules: &Rules,
) -> Result<bool, AllocError>
    ensures { IfOk result (λ b. OnTrue b (AreInOrder rules.now design.now layout.now)) }
{
    let cells = layout.cells.items();
    let instances = design.instances.items();
    if cells.len() != instances.len() {
        return Ok(false);
    }
    for n in 0..instances.len() {
        if !is_cell_of(alloc, layout, design, rules, &instances[n], &cells[n])? {
            return Ok(false);
        }
    }
    Ok(true)
}

/// Whether the cells of a layout are those of a design, in the order of the instances. The one error is want of memory.
pub(crate) fn cells_match(
    alloc: Global,
    layout: &Layout,
    design: &Design,
    rules: &Rules,
) -> Result<bool, AllocError>
    ensures { IfOk result (λ b. OnTrue b (CellsMatch rules.now design.now layout.now)) }
{
    // What every design keeps is known once a field is read.
    let _pins = &design.pins;
    are_in_order(alloc, layout, design, rules)
}
