//! The rectangles of shapes and cells, and boxes for them.

ghost use Rattle.finding_markers.specs.Markers.{boxes_text};
ghost use Rattle.finding_markers.specs.Places.{cell_place, shape_place};
ghost use Rattle.shelf_io.specs.Wrote.{Writes};
ghost use Rattle.std.specs.Option.{option_to_list};
ghost use Rattle.std.specs.Prelude.{◌≡◌, ◌++◌};

use geom_core::{Layout, Rect};
use marker_text::append_box;
use shape_extents::cell_extent;
use shelf_io::{Buffer, Failed, Sink};

/// The rectangle of a shape, if there is one of this number.
pub(crate) fn shape_place(layout: &Layout, i: u32) -> Option<Rect>
    ensures { result ≡ shape_place layout.now i }
{
    match layout.shapes.items().get(i as usize) {
        Some(shape) => Some(shape.rect),
        None => None,
    }
}

/// The extent of the shapes of a cell, if there is one of this number that has shapes.
pub(crate) fn cell_place(layout: &Layout, c: u32) -> Option<Rect>
    ensures { result ≡ cell_place layout.now c }
{
    match layout.cells.items().get(c as usize) {
        Some(cell) => cell_extent(layout, cell),
        None => None,
    }
}

/// Puts the box of a place, if there is one, behind what is buffered.
pub(crate) fn append_place<K: Sink>(
    buffer: &mut Buffer,
    out: &mut K,
    place: Option<Rect>,
) -> Result<(), Failed>
    ensures { Writes result (boxes_text (option_to_list place)) buffer.old buffer.new (K.written out.old) (K.written out.new) (K.faults out.old) (K.faults out.new) (K.same_place out.old out.new) (K.else_same out.old out.new) }
{
    match place {
        Some(rect) => append_box(buffer, out, &rect),
        None => Ok(()),
    }
}

/// Puts the boxes of two places behind what is buffered.
pub(crate) fn append_two_places<K: Sink>(
    buffer: &mut Buffer,
    out: &mut K,
    first: Option<Rect>,
    second: Option<Rect>,
) -> Result<(), Failed>
    ensures { Writes result (boxes_text (option_to_list first ++ option_to_list second)) buffer.old buffer.new (K.written out.old) (K.written out.new) (K.faults out.old) (K.faults out.new) (K.same_place out.old out.new) (K.else_same out.old out.new) }
{
    append_place(buffer, out, first)?;
    append_place(buffer, out, second)
}
