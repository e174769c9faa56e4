//! The groups of cells, with their names.

ghost use Rattle.layout_picture.specs.Cells.{cell_text, cells_text, does_fit, group_text, letter_height, letter_width, met_text, name_text, placed_text};
ghost use Rattle.shelf_io.specs.Wrote.{Writes};
ghost use Rattle.std.specs.Prelude.{◌≡◌};

use crate::pieces::Piece::{Name, Place, Size, Text, Way};
use crate::pieces::append_pieces;
use crate::shapes::append_sides;
use crate::view::do_meet;
use geom_core::{Cell, Layout, Rect};
use shape_extents::cell_extent;
use shelf_io::{Buffer, Failed, Sink};

// How high the letters in a rectangle are.
fn letter_height(rect: &Rect) -> u64
    ensures { result ≡ letter_height rect.now }
{
    rect.y1.abs_diff(rect.y0) / 12 + 1
}

// How wide.
fn letter_width(rect: &Rect) -> u64
    ensures { result ≡ letter_width rect.now }
{
    rect.y1.abs_diff(rect.y0) / 20 + 1
}

// Whether a name fits into a rectangle.
fn does_fit(name: &[u8], rect: &Rect) -> bool
    ensures { result ≡ does_fit name.now rect.now }
{
    name.len() as u64 <= rect.x1.abs_diff(rect.x0) / letter_width(rect)
}

// Puts a name, where it fits, and the end of its group behind what is buffered.
fn append_name<K: Sink>(
    buffer: &mut Buffer,
    out: &mut K,
    frame: &Rect,
    name: &[u8],
    rect: &Rect,
) -> Result<(), Failed>
    ensures { Writes result (name_text frame.now name.now rect.now) buffer.old buffer.new (K.written out.old) (K.written out.new) (K.faults out.old) (K.faults out.new) (K.same_place out.old out.new) (K.else_same out.old out.new) }
{
    if !does_fit(name, rect) {
        return buffer.append(out, b"    </g>\n");
    }
    let text = [
        Text(b"     <text x=\""),
        Place(rect.x0),
        Text(b"\" y=\""),
        Way(rect.y0, frame.y1),
        Text(b"\" dy=\"-0.25em\" font-size=\""),
        Size(letter_height(rect)),
        Text(b"\">"),
        Name(name),
        Text(b"</text>\n    </g>\n"),
    ];
    append_pieces(buffer, out, &text)
}

// Puts the group of a cell that has this name and this extent behind what is buffered.
fn append_group<K: Sink>(
    buffer: &mut Buffer,
    out: &mut K,
    frame: &Rect,
    name: &[u8],
    rect: &Rect,
) -> Result<(), Failed>
    ensures { Writes result (group_text frame.now name.now rect.now) buffer.old buffer.new (K.written out.old) (K.written out.new) (K.faults out.old) (K.faults out.new) (K.same_place out.old out.new) (K.else_same out.old out.new) }
{
    let title = [
        Text(b"    <g>\n     <title>"),
        Name(name),
        Text(b"</title>\n     <rect"),
    ];
    append_pieces(buffer, out, &title)?;
    append_sides(buffer, out, frame, rect)?;
    append_name(buffer, out, frame, name, rect)
}

// Puts that of a name with an extent that meets the frame, and nothing of another.
fn append_met<K: Sink>(
    buffer: &mut Buffer,
    out: &mut K,
    frame: &Rect,
    name: &[u8],
    rect: &Rect,
) -> Result<(), Failed>
    ensures { Writes result (met_text frame.now name.now rect.now) buffer.old buffer.new (K.written out.old) (K.written out.new) (K.faults out.old) (K.faults out.new) (K.same_place out.old out.new) (K.else_same out.old out.new) }
{
    if do_meet(frame, rect) {
        append_group(buffer, out, frame, name, rect)
    } else {
        Ok(())
    }
}

// Puts that of a name with an extent that is shown, and nothing of another.
fn append_placed<K: Sink>(
    buffer: &mut Buffer,
    out: &mut K,
    frame: &Rect,
    name: &[u8],
    extent: Option<Rect>,
) -> Result<(), Failed>
    ensures { Writes result (placed_text frame.now name.now extent) buffer.old buffer.new (K.written out.old) (K.written out.new) (K.faults out.old) (K.faults out.new) (K.same_place out.old out.new) (K.else_same out.old out.new) }
{
    match extent {
        Some(rect) => append_met(buffer, out, frame, name, &rect),
        None => Ok(()),
    }
}

// Puts the group of a cell, if it is shown, behind what is buffered.
fn append_cell<K: Sink>(
    buffer: &mut Buffer,
    out: &mut K,
    frame: &Rect,
    layout: &Layout,
    cell: &Cell,
) -> Result<(), Failed>
    ensures { Writes result (cell_text frame.now layout.now cell.now) buffer.old buffer.new (K.written out.old) (K.written out.new) (K.faults out.old) (K.faults out.new) (K.same_place out.old out.new) (K.else_same out.old out.new) }
{
    append_placed(
        buffer,
        out,
        frame,
        cell.name.items(),
        cell_extent(layout, cell),
    )
}

/// Puts the groups of the cells that are shown behind what is buffered.
pub(crate) fn append_cells<K: Sink>(
    buffer: &mut Buffer,
    out: &mut K,
    frame: &Rect,
    layout: &Layout,
    cells: &[Cell],
) -> Result<(), Failed>
    ensures { Writes result (cells_text frame.now layout.now cells.now) buffer.old buffer.new (K.written out.old) (K.written out.new) (K.faults out.old) (K.faults out.new) (K.same_place out.old out.new) (K.else_same out.old out.new) }
{
    let mut rest = cells;
    while let Some((cell, after)) = rest.split_first() {
        append_cell(buffer, out, frame, layout, cell)?;
        rest = after;
    }
    Ok(())
}
