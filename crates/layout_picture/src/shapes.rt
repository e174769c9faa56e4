//! The rectangles of shapes.

ghost use Rattle.layout_picture.specs.Elements.{shape_text, shapes_text, shown_text, sides_text};
ghost use Rattle.shelf_io.specs.Wrote.{Writes};

use crate::pieces::Piece::{Place, Text, Way};
use crate::pieces::append_pieces;
use crate::view::do_meet;
use geom_core::{Rect, Shape};
use shelf_io::{Buffer, Failed, Sink};

/// Puts the place and the size of a rectangle, and the end of its element, behind what is buffered.
pub(crate) fn append_sides<K: Sink>(
    buffer: &mut Buffer,
    out: &mut K,
    frame: &Rect,
    rect: &Rect,
) -> Result<(), Failed>
    ensures { Writes result (sides_text frame.now rect.now) buffer.old buffer.new (K.written out.old) (K.written out.new) (K.faults out.old) (K.faults out.new) (K.same_place out.old out.new) (K.else_same out.old out.new) }
{
    let sides = [
        Text(b" x=\""),
        Place(rect.x0),
        Text(b"\" y=\""),
        Way(rect.y1, frame.y1),
        Text(b"\" width=\""),
        Way(rect.x0, rect.x1),
        Text(b"\" height=\""),
        Way(rect.y0, rect.y1),
        Text(b"\"/>\n"),
    ];
    append_pieces(buffer, out, &sides)
}

// Puts the rectangle of a shape behind what is buffered.
fn append_shape<K: Sink>(
    buffer: &mut Buffer,
    out: &mut K,
    frame: &Rect,
    shape: &Shape,
) -> Result<(), Failed>
    ensures { Writes result (shape_text frame.now shape.now) buffer.old buffer.new (K.written out.old) (K.written out.new) (K.faults out.old) (K.faults out.new) (K.same_place out.old out.new) (K.else_same out.old out.new) }
{
    let class = [
        Text(b"    <rect class=\"layer-"),
        Text(shape.layer.text()),
        Text(b"\""),
    ];
    append_pieces(buffer, out, &class)?;
    append_sides(buffer, out, frame, &shape.rect)
}

// Puts that of a shape that is shown, and nothing of another.
fn append_shown<K: Sink>(
    buffer: &mut Buffer,
    out: &mut K,
    frame: &Rect,
    shape: &Shape,
) -> Result<(), Failed>
    ensures { Writes result (shown_text frame.now shape.now) buffer.old buffer.new (K.written out.old) (K.written out.new) (K.faults out.old) (K.faults out.new) (K.same_place out.old out.new) (K.else_same out.old out.new) }
{
    if do_meet(frame, &shape.rect) {
        append_shape(buffer, out, frame, shape)
    } else {
        Ok(())
    }
}

/// Puts the rectangles of the shapes that are shown behind what is buffered.
pub(crate) fn append_shapes<K: Sink>(
    buffer: &mut Buffer,
    out: &mut K,
    frame: &Rect,
    shapes: &[Shape],
) -> Result<(), Failed>
    ensures { Writes result (shapes_text frame.now shapes.now) buffer.old buffer.new (K.written out.old) (K.written out.new) (K.faults out.old) (K.faults out.new) (K.same_place out.old out.new) (K.else_same out.old out.new) }
{
    let mut rest = shapes;
    while let Some((shape, after)) = rest.split_first() {
        append_shown(buffer, out, frame, shape)?;
        rest = after;
    }
    Ok(())
}
