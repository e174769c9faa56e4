//! The shapes of a cell, and their extent.

ghost use Rattle.shape_extents.specs.CellShapes.{cell_extent, cell_shapes};
ghost use Rattle.std.specs.Prelude.{◌≡◌, drop, take};

use crate::extents::extent_of;
use geom_core::{Cell, Layout, Rect, Shape};

// The shapes from this number on.
fn behind(shapes: &[Shape], first: u32) -> &[Shape]
    ensures { result.now ≡ drop first shapes.now }
{
    let first = first as usize;
    if first < shapes.len() {
        &shapes[first..]
    } else {
        &[]
    }
}

// The first so many shapes, or all where there are fewer.
fn front(shapes: &[Shape], count: u32) -> &[Shape]
    ensures { result.now ≡ take count shapes.now }
{
    let count = count as usize;
    if count < shapes.len() {
        &shapes[..count]
    } else {
        shapes
    }
}

/// The shapes of a cell of a layout: so many as it has from its first on, or as there are. Takes no memory.
pub fn shapes_of<'l>(layout: &'l Layout, cell: &Cell) -> &'l [Shape]
    ensures { result.now ≡ cell_shapes layout.now cell.now }
{
    front(behind(layout.shapes.items(), cell.first), cell.count)
}

/// The least rectangle round the shapes of a cell of a layout, or None exactly where it has none. Takes no memory.
pub fn cell_extent(layout: &Layout, cell: &Cell) -> Option<Rect>
    ensures { result ≡ cell_extent layout.now cell.now }
{
    extent_of(shapes_of(layout, cell))
}
