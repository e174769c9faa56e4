//! The labels of cells, and of the nets that begin at their pins: their names, and where they stand.

ghost use Rattle.cif_writer.specs.InReach.{IsPlaceInReach};
ghost use Rattle.cif_writer.specs.LabelParts.{shape_beside, AreLabelParts, IsExtentInTwiceReach, IsLabelled, IsLabelledCell};
ghost use Rattle.cif_writer.specs.Labels.{begun_net, first_pins, pin_at, placed_marks, terminal_mark};
ghost use Rattle.design_model.specs.PinOrder.{instance_terminals};
ghost use Rattle.geom_core.specs.Moving.{moved_shape, turn_at};
ghost use Rattle.geom_core.specs.Names.{is_name as is_name_text, is_name_byte as is_shown};
ghost use Rattle.geom_core.specs.Reach.{IsShapeInReach};
ghost use Rattle.std.specs.List.{list_all};
ghost use Rattle.std.specs.Prelude.{◌≡◌, ◌<◌, ◌-◌, ◌^◌, [], None, length, option_map, slice_get, IfSome, IsSome};

use crate::net_firsts::FirstPins;
use channel_stack::PlacedItem;
use design_model::{CellKind, Design, Inst, Pin, Position};
use feed_cells::Item;
use geom_core::{Items, Name, Place, Shape, Turn, moved};
use tech_rules::Rules;

/// What rows are written from: a design, the drawings of its symbols under rules, and the first pins of its nets where labels are written.
#[derive(Drop)]
pub(crate) struct RowParts<'p> {
    pub(crate) design: &'p Design,
    pub(crate) rules: &'p Rules,
    pub(crate) drawings: &'p [Items<Shape>],
    pub(crate) labels: Option<&'p FirstPins>,
}

/// A cell whose labels are written: where it stands, the number and the name of its instance, its kind, and the drawing of its kind in its outline and the rectangles of
/// the positions.
#[derive(Drop)]
pub(crate) struct LabelledCell<'p> {
    pub(crate) place: &'p Place,
    pub(crate) instance: u32,
    pub(crate) name: &'p Name,
    pub(crate) kind: &'p CellKind,
    pub(crate) outline: &'p Shape,
    pub(crate) pins: &'p [Shape],
}

/// A label: its name, and the shape in whose middle it stands, on the shape's layer.
#[derive(Drop)]
pub(crate) struct Label<'p> {
    pub(crate) name: &'p Name,
    pub(crate) shape: Shape,
}

// Whether a byte of a name can be written.
fn is_shown_byte(byte: u8) -> bool
    ensures { result ≡ is_shown byte }
{
    byte >= 33 && byte <= 126 && byte != b';'
}

// Whether each byte of a name can be written.
fn are_shown(text: &[u8]) -> bool
    ensures { result ≡ list_all is_shown text.now }
{
    text.iter().all(|byte| is_shown_byte(*byte))
}

// Whether a name can be written.
fn is_name(text: &[u8]) -> bool
    ensures { result ≡ is_name_text text.now }
{
    text.len() >= 1 && are_shown(text)
}

// The pin of this number, if there is one.
fn pin_of(design: &Design, n: u32) -> Option<Pin>
    ensures { result ≡ slice_get design.now.pins n }
{
    match design.pins.items().get(n as usize) {
        Some(pin) => Some(*pin),
        None => None,
    }
}

// The name of net n, from 1, if there is one.
fn net_name(design: &Design, n: u32) -> Option<&Name>
    requires { 0 < n }
    ensures { option_map (λ name. name.now) result ≡ slice_get design.now.nets (n - 1) }
{
    match design.nets.items().get(n as usize - 1) {
        Some(name) => Some(name),
        None => None,
    }
}

// The instance of this number, if there is one.
fn instance_of(design: &Design, n: u32) -> Option<&Inst>
    ensures { option_map (λ inst. inst.now) result ≡ slice_get design.now.instances n }
{
    match design.instances.items().get(n as usize) {
        Some(inst) => Some(inst),
        None => None,
    }
}

// The kind of this number, if there is one.
fn kind_of(design: &Design, n: u32) -> Option<&CellKind>
    ensures { option_map (λ kind. kind.now) result ≡ slice_get design.now.kinds n }
{
    match design.kinds.items().get(n as usize) {
        Some(kind) => Some(kind),
        None => None,
    }
}

// The drawing of the symbol of this number, from 0, if there is one.
fn drawing_of(drawings: &[Items<Shape>], n: u32) -> Option<&[Shape]>
    ensures { option_map (λ shapes. shapes.now) result ≡ slice_get drawings.now n }
{
    match drawings.get(n as usize) {
        Some(drawing) => Some(drawing.items()),
        None => None,
    }
}

// The name of the net that begins with the pin of this number, if it can be written; None where the pin is not its net's first one.
fn begun_net<'p>(design: &'p Design, firsts: &FirstPins, pin: u32) -> Option<&'p Name>
    requires { firsts.now ≡ first_pins design.now }
    ensures { option_map (λ name. name.now) result ≡ begun_net design.now pin }
{
    let _pins = &design.pins;
    let Some(found) = pin_of(design, pin) else {
        return None;
    };
    let Some(first) = firsts.of(found.net) else {
        return None;
    };
    if first != pin {
        return None;
    }
    let Some(name) = net_name(design, found.net) else {
        return None;
    };
    if is_name(name.items()) {
        return Some(name);
    }
    None
}

// The number of the pin at a terminal of an instance, if there is one.
fn pin_at(design: &Design, instance: u32, terminal: u32) -> Option<u32>
    requires instance { instance < length design.now.instances }
    requires terminal { terminal < length (instance_terminals design.now instance) }
    ensures { result ≡ pin_at design.now.pins instance terminal }
{
    let _pins = &design.pins;
    design.pin(instance, terminal)
}

// The shape that stands beside the first position of a terminal.
fn shape_beside<'p>(positions: &[Position], shapes: &'p [Shape], terminal: u64) -> Option<&'p Shape>
    ensures shape { option_map (λ shape. shape.now) result ≡ shape_beside terminal positions.now shapes.now }
    ensures small { IsSome result → terminal < 2 ^ 32 }
{
    let mut rest = positions;
    let mut beside = shapes;
    while let Some((position, others)) = rest.split_first() {
        let Some((shape, behind)) = beside.split_first() else {
            return None;
        };
        if u64::from(position.terminal) == terminal {
            return Some(shape);
        }
        rest = others;
        beside = behind;
    }
    None
}

/// A shape of a cell's drawing, where the cell stands at a place.
pub(crate) fn moved_shape(shape: &Shape, place: &Place) -> Shape
    requires shape { IsShapeInReach shape.now }
    requires place { IsPlaceInReach place.now }
    ensures { result ≡ moved_shape (turn_at place.now) shape.now }
{
    let turn = Turn {
        flip: place.mirror,
        quarters: 0,
        dx: place.dx,
        dy: place.dy,
    };
    Shape {
        layer: shape.layer,
        rect: moved(&shape.rect, &turn),
    }
}

/// The label of the net that begins at a terminal of a cell, if one does.
pub(crate) fn terminal_label<'p>(
    parts: &RowParts<'p>,
    firsts: &FirstPins,
    cell: &LabelledCell<'p>,
    terminal: u64,
) -> Option<Label<'p>>
    requires firsts { firsts.now ≡ first_pins parts.now.design.now }
    requires cell { IsLabelled parts.now.rules.now parts.now.design.now cell.now.instance cell.now.kind.now cell.now.pins.now }
    requires place { IsPlaceInReach cell.now.place.now }
    requires terminal { terminal < length cell.now.kind.now.terminals }
    ensures label { option_map (λ label. record { name = label.name.now; shape = label.shape }) result ≡ terminal_mark parts.now.rules.now parts.now.design.now cell.now.instance cell.now.kind.now cell.now.place.now terminal }
    ensures near { IfSome result (λ label. IsExtentInTwiceReach label.shape.rect) }
{
    let Some(shape) = shape_beside(cell.kind.positions.items(), cell.pins, terminal) else {
        return None;
    };
    let Some(pin) = pin_at(parts.design, cell.instance, terminal as u32) else {
        return None;
    };
    let Some(name) = begun_net(parts.design, firsts, pin) else {
        return None;
    };
    Some(Label {
        name,
        shape: moved_shape(shape, cell.place),
    })
}

/// The cell of an item; None of a feed, which has no labels.
pub(crate) fn labelled_cell<'p>(
    parts: &RowParts<'p>,
    placed: &'p PlacedItem,
) -> Option<LabelledCell<'p>>
    requires { AreLabelParts parts.now.rules.now parts.now.design.now parts.now.drawings.now (option_map (λ firsts. firsts.now) parts.now.labels) }
    ensures none { result ≡ None → placed_marks parts.now.rules.now parts.now.design.now placed.now.item placed.now.place ≡ [] }
    ensures cell { IfSome result (λ cell. IsLabelledCell parts.now.rules.now parts.now.design.now placed.now cell.place.now cell.instance cell.name.now cell.kind.now cell.outline.now cell.pins.now) }
{
    let design = parts.design;
    let Item::Cell(seat) = placed.item else {
        return None;
    };
    let Some(inst) = instance_of(design, seat.instance) else {
        return None;
    };
    let Some(kind) = kind_of(design, inst.kind) else {
        return None;
    };
    let Some(drawing) = drawing_of(parts.drawings, inst.kind) else {
        return None;
    };
    let Some((outline, pins)) = drawing.split_first() else {
        return None;
    };
    Some(LabelledCell {
        place: &placed.place,
        instance: seat.instance,
        name: &inst.name,
        kind,
        outline,
        pins,
    })
}
