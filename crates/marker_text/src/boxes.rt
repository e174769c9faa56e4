//! The value of a box.

ghost use Rattle.marker_text.specs.Boxes.{box_text, corner};
ghost use Rattle.shelf_io.specs.Wrote.{Writes};

use crate::lengths::append_length;
use geom_core::Rect;
use shelf_io::{Buffer, Failed, Sink};

// Puts a corner, and what stands before it, behind what is buffered.
fn append_corner<K: Sink>(
    buffer: &mut Buffer,
    out: &mut K,
    before: &[u8],
    x: i64,
    y: i64,
) -> Result<(), Failed>
    ensures { Writes result (corner before.now x y) buffer.old buffer.new (K.written out.old) (K.written out.new) (K.faults out.old) (K.faults out.new) (K.same_place out.old out.new) (K.else_same out.old out.new) }
{
    buffer.append(out, before)?;
    append_length(buffer, out, x)?;
    buffer.append(out, b",")?;
    append_length(buffer, out, y)
}

// Puts the line of a value that is a rectangle with these sides behind what is buffered.
fn append_sides<K: Sink>(
    buffer: &mut Buffer,
    out: &mut K,
    x0: i64,
    y0: i64,
    x1: i64,
    y1: i64,
) -> Result<(), Failed>
    ensures { Writes result (box_text (record { x0 = x0; y0 = y0; x1 = x1; y1 = y1 })) buffer.old buffer.new (K.written out.old) (K.written out.new) (K.faults out.old) (K.faults out.new) (K.same_place out.old out.new) (K.else_same out.old out.new) }
{
    append_corner(buffer, out, b"    <value>box: (", x0, y0)?;
    append_corner(buffer, out, b";", x1, y1)?;
    buffer.append(out, b")</value>\n")
}

/// Puts the line of a value that is a rectangle behind what is buffered. Takes no memory.
pub fn append_box<K: Sink>(buffer: &mut Buffer, out: &mut K, rect: &Rect) -> Result<(), Failed>
    ensures { Writes result (box_text rect.now) buffer.old buffer.new (K.written out.old) (K.written out.new) (K.faults out.old) (K.faults out.new) (K.same_place out.old out.new) (K.else_same out.old out.new) }
{
    append_sides(buffer, out, rect.x0, rect.y0, rect.x1, rect.y1)
}
