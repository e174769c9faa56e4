//! A picture, put to a sink or written into a file.

ghost use Rattle.marker_text.specs.Held.{HoldsFront};
ghost use Rattle.layout_picture.specs.Pictures.{drawing_text, end_text, opening_text, picture_text, sheet_text};
ghost use Rattle.shelf_io.specs.Count.{Rose};
ghost use Rattle.shelf_io.specs.OtherFiles.{OthersSame};
ghost use Rattle.shelf_io.specs.Told.{Refines};
ghost use Rattle.shelf_io.specs.Wrote.{Puts, Writes};
ghost use Rattle.std.specs.Prelude.{◌≡◌, Some, is_ok, OnErr, OnOk};

use crate::cells::append_cells;
use crate::colours::append_styles;
use crate::legend::append_entries;
use crate::picture::Picture;
use crate::pieces::Piece::{Place, Text, Way};
use crate::pieces::append_pieces;
use crate::scale::append_scale;
use crate::shapes::append_shapes;
use crate::texts::{Part, text_of_part};
use crate::view::{Roles, frame_of};
use geom_core::{LayerName, Layout, Rect};
use shelf_io::{Buffer, Failed, FileSink, Shelf, Sink};

// Puts the beginning with the style sheet behind what is buffered.
fn append_sheet<K: Sink>(
    buffer: &mut Buffer,
    out: &mut K,
    layers: &[LayerName],
) -> Result<(), Failed>
    ensures { Writes result (sheet_text (layers.now)) buffer.old buffer.new (K.written out.old) (K.written out.new) (K.faults out.old) (K.faults out.new) (K.same_place out.old out.new) (K.else_same out.old out.new) }
{
    buffer.append(out, text_of_part(Part::Begin))?;
    append_styles(buffer, out, layers)?;
    buffer.append(out, text_of_part(Part::StylesEnd))
}

// Puts the elements that fit the frame into a square and cut at its sides, which are begun, behind what is buffered.
fn append_opening<K: Sink>(buffer: &mut Buffer, out: &mut K, frame: &Rect) -> Result<(), Failed>
    ensures { Writes result (opening_text frame.now) buffer.old buffer.new (K.written out.old) (K.written out.new) (K.faults out.old) (K.faults out.new) (K.same_place out.old out.new) (K.else_same out.old out.new) }
{
    let opening = [
        Text(b" <svg width=\"1000\" height=\"1000\" viewBox=\""),
        Place(frame.x0),
        Text(b" 0 "),
        Way(frame.x0, frame.x1),
        Text(b" "),
        Way(frame.y0, frame.y1),
        Text(b"\">\n  <svg x=\""),
        Place(frame.x0),
        Text(b"\" width=\""),
        Way(frame.x0, frame.x1),
        Text(b"\" height=\""),
        Way(frame.y0, frame.y1),
        Text(b"\" viewBox=\""),
        Place(frame.x0),
        Text(b" 0 "),
        Way(frame.x0, frame.x1),
        Text(b" "),
        Way(frame.y0, frame.y1),
        Text(b"\">\n"),
    ];
    append_pieces(buffer, out, &opening)
}

// Puts shapes and cells behind what is buffered.
fn append_drawing<K: Sink>(
    buffer: &mut Buffer,
    out: &mut K,
    frame: &Rect,
    layout: &Layout,
) -> Result<(), Failed>
    ensures { Writes result (drawing_text frame.now layout.now) buffer.old buffer.new (K.written out.old) (K.written out.new) (K.faults out.old) (K.faults out.new) (K.same_place out.old out.new) (K.else_same out.old out.new) }
{
    buffer.append(out, text_of_part(Part::Shapes))?;
    append_shapes(buffer, out, frame, layout.shapes.items())?;
    buffer.append(out, text_of_part(Part::Cells))?;
    append_cells(buffer, out, frame, layout, layout.cells.items())?;
    buffer.append(out, text_of_part(Part::CellsEnd))
}

// Puts scale bar and legend behind what is buffered.
fn append_end<K: Sink>(
    buffer: &mut Buffer,
    out: &mut K,
    frame: &Rect,
    roles: &Option<Roles>,
    layers: &[LayerName],
) -> Result<(), Failed>
    ensures { Writes result (end_text frame.now roles.now (layers.now)) buffer.old buffer.new (K.written out.old) (K.written out.new) (K.faults out.old) (K.faults out.new) (K.same_place out.old out.new) (K.else_same out.old out.new) }
{
    append_scale(buffer, out, frame)?;
    buffer.append(out, text_of_part(Part::Legend))?;
    append_entries(buffer, out, roles, layers)?;
    buffer.append(out, text_of_part(Part::End))
}

/// Puts a picture as a text of SVG, in pieces of 4,096 bytes where the sink takes them so. It errs where the sink failed, whose count then rose, and leaves a front of
/// the text. Takes no memory.
pub fn put_picture<K: Sink>(out: &mut K, picture: &Picture) -> Result<(), Failed>
    ensures { Puts result (picture_text picture.now.layout.now picture.now.view) (K.written out.old) (K.written out.new) (K.faults out.old) (K.faults out.new) (K.same_place out.old out.new) (K.else_same out.old out.new) }
{
    let mut buffer = Buffer::new();
    let frame = frame_of(picture.layout, &picture.view);
    append_sheet(&mut buffer, out, picture.layers())?;
    append_opening(&mut buffer, out, &frame)?;
    append_drawing(&mut buffer, out, &frame, picture.layout)?;
    append_end(
        &mut buffer,
        out,
        &frame,
        &picture.view.roles,
        picture.layers(),
    )?;
    buffer.flush(out)
}

// Puts a picture to a file's end.
fn put_file<S: Shelf>(shelf: &mut S, file: &str, picture: &Picture) -> Result<(), Failed>
    ensures { Puts result (picture_text picture.now.layout.now picture.now.view) (S.holds shelf.old file.now) (S.holds shelf.new file.now) (S.write_faults shelf.old file.now) (S.write_faults shelf.new file.now) (Unit {0}) (λ calm. OthersSame calm file.now (S.holds shelf.old) (S.holds shelf.new) (S.read_faults shelf.old) (S.read_faults shelf.new) (S.write_faults shelf.old) (S.write_faults shelf.new)) }
{
    let mut out = FileSink::new(shelf, file);
    put_picture(&mut out, picture)
}

/// Makes a file hold a picture as a text of SVG, and nothing else. Takes no memory. After Failed, which comes only where the file's write count rose, the file holds
/// what it held before, or a front of the text.
pub fn write_picture<S: Shelf>(shelf: &mut S, file: &str, picture: &Picture) -> Result<(), Failed>
    ensures text { OnOk result (Refines (S.holds shelf.new file.now) (Some (picture_text picture.now.layout.now picture.now.view))) }
    ensures front { OnErr result (HoldsFront (picture_text picture.now.layout.now picture.now.view) (S.holds shelf.old file.now) (S.holds shelf.new file.now)) }
    ensures others { OthersSame (is_ok result) file.now (S.holds shelf.old) (S.holds shelf.new) (S.read_faults shelf.old) (S.read_faults shelf.new) (S.write_faults shelf.old) (S.write_faults shelf.new) }
    ensures cause { OnErr result (Rose (S.write_faults shelf.old file.now) (S.write_faults shelf.new file.now)) }
{
    shelf.begin(file)?;
    put_file(shelf, file, picture)
}
