//! The places of pins, and boxes for them.

ghost use Rattle.command_ends.specs.FindingLines.{instance_of_pin};
ghost use Rattle.design_model.specs.CellsMatch.{shapes_of};
ghost use Rattle.finding_markers.specs.Markers.{boxes_text};
ghost use Rattle.finding_markers.specs.Places.{pin_places, pins_drawn, place_at, places_drawn, positions_of_pin, terminal_number};
ghost use Rattle.shelf_io.specs.Wrote.{Writes};
ghost use Rattle.std.specs.Prelude.{◌≡◌, ◌++◌, drop, slice_get};

use crate::places::append_place;
use command_ends::instance_of_pin;
use design_model::{Design, Position};
use geom_core::{Cell, Layout, Rect, Shape};
use shape_extents::shapes_of;
use shelf_io::{Buffer, Failed, Sink};

// The positions of the kind of a pin's instance.
fn positions_of(design: &Design, p: u32) -> &[Position]
    ensures { result.now ≡ positions_of_pin design.now (slice_get design.now.pins p) }
{
    let Some(pin) = design.pins.items().get(p as usize) else {
        return &[];
    };
    let Some(instance) = design.instances.items().get(pin.instance as usize) else {
        return &[];
    };
    match design.kinds.items().get(instance.kind as usize) {
        Some(kind) => kind.positions.items(),
        None => &[],
    }
}

// The number of a pin's terminal.
fn terminal_of(design: &Design, p: u32) -> u32
    ensures { result ≡ terminal_number (slice_get design.now.pins p) }
{
    match design.pins.items().get(p as usize) {
        Some(pin) => pin.terminal,
        None => 0,
    }
}

// The shapes of a cell behind its outline.
fn pins_of_cell<'l>(layout: &'l Layout, cell: &Cell) -> &'l [Shape]
    ensures { result.now ≡ drop 1 (shapes_of layout.now cell.now) }
{
    match shapes_of(layout, cell).split_first() {
        Some((_, pins)) => pins,
        None => &[],
    }
}

// Those of the first cell of a name.
fn pins_drawn<'l>(layout: &'l Layout, name: &[u8]) -> &'l [Shape]
    ensures { result.now ≡ pins_drawn layout.now name.now }
{
    let mut rest = layout.cells.items();
    while let Some((cell, after)) = rest.split_first() {
        if cell.name.items() == name {
            return pins_of_cell(layout, cell);
        }
        rest = after;
    }
    &[]
}

// The rectangle of a shape that draws a position, if that is one of this terminal.
fn place_at(terminal: u32, position: &Position, shape: &Shape) -> Option<Rect>
    ensures { result ≡ place_at terminal position.now shape.now }
{
    if position.terminal == terminal {
        Some(shape.rect)
    } else {
        None
    }
}

// Puts the boxes of the shapes that draw the positions of a terminal behind what is buffered.
fn append_drawn<K: Sink>(
    buffer: &mut Buffer,
    out: &mut K,
    terminal: u32,
    positions: &[Position],
    shapes: &[Shape],
) -> Result<(), Failed>
    ensures { Writes result (boxes_text (places_drawn terminal positions.now shapes.now)) buffer.old buffer.new (K.written out.old) (K.written out.new) (K.faults out.old) (K.faults out.new) (K.same_place out.old out.new) (K.else_same out.old out.new) }
{
    let mut left = positions;
    let mut rest = shapes;
    while let Some((position, later)) = left.split_first() {
        let Some((shape, others)) = rest.split_first() else {
            return Ok(());
        };
        append_place(buffer, out, place_at(terminal, position, shape))?;
        left = later;
        rest = others;
    }
    Ok(())
}

// Puts the boxes of a pin behind what is buffered.
fn append_pin<K: Sink>(
    buffer: &mut Buffer,
    out: &mut K,
    design: &Design,
    layout: &Layout,
    p: u32,
) -> Result<(), Failed>
    ensures { Writes result (boxes_text (pin_places design.now layout.now p)) buffer.old buffer.new (K.written out.old) (K.written out.new) (K.faults out.old) (K.faults out.new) (K.same_place out.old out.new) (K.else_same out.old out.new) }
{
    let shapes = pins_drawn(layout, instance_of_pin(design, p));
    append_drawn(
        buffer,
        out,
        terminal_of(design, p),
        positions_of(design, p),
        shapes,
    )
}

/// Puts the boxes of two pins behind what is buffered.
pub(crate) fn append_pins<K: Sink>(
    buffer: &mut Buffer,
    out: &mut K,
    design: &Design,
    layout: &Layout,
    p: u32,
    q: u32,
) -> Result<(), Failed>
    ensures { Writes result (boxes_text (pin_places design.now layout.now p ++ pin_places design.now layout.now q)) buffer.old buffer.new (K.written out.old) (K.written out.new) (K.faults out.old) (K.faults out.new) (K.same_place out.old out.new) (K.else_same out.old out.new) }
{
    append_pin(buffer, out, design, layout, p)?;
    append_pin(buffer, out, design, layout, q)
}
