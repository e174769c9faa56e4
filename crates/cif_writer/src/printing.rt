//! Pieces of the written text, each put behind what is buffered.

ghost use Rattle.cif_text.specs.Printing.{line, text_of, HasLine};
ghost use Rattle.cif_text.specs.Written.{box_of, call_to, change, copy_commands, label_command, label_commands, middle, name_commands, shape_commands, shapes_commands, symbol_commands};
ghost use Rattle.cif_text.specs.declared.command.CifCommand.TheVariants as commands;
ghost use Rattle.cif_writer.specs.LabelParts.{IsExtentInTwiceReach, IsInTwiceReach};
ghost use Rattle.geom_core.specs.Reach.{IsShapeInReach};
ghost use Rattle.shelf_io.specs.Wrote.{Writes};
ghost use Rattle.std.specs.List.{AllByRecursion};
ghost use Rattle.std.specs.Prelude.{◌≡◌, ◌≤◌, ◌∷◌, ◌++◌, [], ◌-ℤ◌, int_div, pos, List, ℕ, None, option_map, drop};

use cif_text::{CifCommand, UserKind, print_command, print_label_end};
use geom_core::{LayerName, Name, Place, Shape};
use shelf_io::{Buffer, Failed, Sink};

/// Puts the line of a command that is no user command.
pub(crate) fn put_command<K: Sink>(
    buffer: &mut Buffer,
    out: &mut K,
    command: &CifCommand,
) -> Result<(), Failed>
    requires { HasLine command.now }
    ensures { Writes result (line command.now) buffer.old buffer.new (K.written out.old) (K.written out.new) (K.faults out.old) (K.faults out.new) (K.same_place out.old out.new) (K.else_same out.old out.new) }
{
    let mut text = [0; 192];
    let start = print_command(command, &mut text, 192);
    buffer.append(out, &text[start..])
}

// What the line of a user command begins with.
fn digits_of(kind: UserKind) -> &'static [u8]
    ensures { (text : List ℕ) → line (commands.User kind text) ≡ result.now ++ (text ++ 59 ∷ 10 ∷ []) }
{
    match kind {
        UserKind::SymbolName => b"9 ",
        UserKind::InstanceName => b"91 ",
        UserKind::Label => b"94 ",
        UserKind::Other => b"0 ",
    }
}

// Puts the line of a user command with a name, if there is one.
fn put_name<K: Sink>(
    buffer: &mut Buffer,
    out: &mut K,
    kind: UserKind,
    name: Option<&Name>,
) -> Result<(), Failed>
    ensures { Writes result (text_of (name_commands kind (option_map (λ n. n.now) name.entry))) buffer.old buffer.new (K.written out.old) (K.written out.new) (K.faults out.old) (K.faults out.new) (K.same_place out.old out.new) (K.else_same out.old out.new) }
{
    let Some(name) = name else {
        return Ok(());
    };
    buffer.append(out, digits_of(kind))?;
    buffer.append(out, name.items())?;
    buffer.append(out, b";\n")
}

// The box of a shape, in centimicrons.
fn box_of(shape: &Shape) -> CifCommand
    requires { IsExtentInTwiceReach shape.now.rect }
    ensures shape { result ≡ box_of shape.now.rect }
    ensures line { HasLine result }
{
    let rect = shape.rect;
    CifCommand::Box {
        length: length_of(rect.x0, rect.x1),
        width: length_of(rect.y0, rect.y1),
        cx: middle_of(rect.x0, rect.x1),
        cy: middle_of(rect.y0, rect.y1),
        upright: false,
    }
}

// The length between two places in half centimicrons, in centimicrons.
fn length_of(low: i64, high: i64) -> i64
    requires low { IsInTwiceReach low }
    requires high { IsInTwiceReach high }
    ensures { result ≡ int_div (high -ℤ low) (pos 2) }
{
    (high - low) / 2
}

// The middle of two places in half centimicrons, in centimicrons.
fn middle_of(low: i64, high: i64) -> i64
    requires low { IsInTwiceReach low }
    requires high { IsInTwiceReach high }
    ensures { result ≡ middle low high }
{
    (low + high) / 4
}

// The call of a numbered symbol at a place.
fn call_of(number: u64, place: &Place) -> CifCommand
    ensures call { result ≡ call_to number place.now }
    ensures line { HasLine result }
{
    CifCommand::Call {
        n: number,
        flip: place.mirror,
        quarters: 0,
        dx: place.dx / 2,
        dy: place.dy / 2,
    }
}

// Writes a layer's line, where it is not the layer written last, so that it ends at `end`, and gives where it starts.
fn print_change(
    last: Option<LayerName>,
    layer: LayerName,
    into: &mut [u8; 192],
    end: usize,
) -> usize
    requires room { 91 ≤ end }
    requires inside { end ≤ 192 }
    ensures text { drop result into.new ≡ text_of (change last layer) ++ drop end into.old }
    ensures start { result ≤ end }
{
    if let Some(last) = last {
        if last == layer {
            return end;
        }
    }
    print_command(&CifCommand::Layer(layer), into, end)
}

// Puts a layer's line where it is not the layer written last.
fn put_layer<K: Sink>(
    buffer: &mut Buffer,
    out: &mut K,
    last: Option<LayerName>,
    layer: LayerName,
) -> Result<(), Failed>
    ensures { Writes result (text_of (change last layer)) buffer.old buffer.new (K.written out.old) (K.written out.new) (K.faults out.old) (K.faults out.new) (K.same_place out.old out.new) (K.else_same out.old out.new) }
{
    let mut text = [0; 192];
    let start = print_change(last, layer, &mut text, 192);
    buffer.append(out, &text[start..])
}

/// Puts a shape as a box, with the line of its layer where it is not the layer written last.
pub(crate) fn put_shape<K: Sink>(
    buffer: &mut Buffer,
    out: &mut K,
    last: Option<LayerName>,
    shape: &Shape,
) -> Result<(), Failed>
    requires { IsShapeInReach shape.now }
    ensures { Writes result (text_of (shape_commands last shape.now)) buffer.old buffer.new (K.written out.old) (K.written out.new) (K.faults out.old) (K.faults out.new) (K.same_place out.old out.new) (K.else_same out.old out.new) }
{
    let mut text = [0; 192];
    let start = print_command(&box_of(shape), &mut text, 192);
    let start = print_change(last, shape.layer, &mut text, start);
    buffer.append(out, &text[start..])
}

// Puts shapes, where no layer was written before.
fn put_shapes<K: Sink>(buffer: &mut Buffer, out: &mut K, shapes: &[Shape]) -> Result<(), Failed>
    requires { AllByRecursion IsShapeInReach shapes.now }
    ensures { Writes result (text_of (shapes_commands None shapes.now)) buffer.old buffer.new (K.written out.old) (K.written out.new) (K.faults out.old) (K.faults out.new) (K.same_place out.old out.new) (K.else_same out.old out.new) }
{
    let mut last = None;
    let mut rest = shapes;
    while let Some((shape, after)) = rest.split_first() {
        put_shape(buffer, out, last, shape)?;
        last = Some(shape.layer);
        rest = after;
    }
    Ok(())
}

/// Puts a numbered symbol with its name, if it has one, and its shapes.
pub(crate) fn put_symbol<K: Sink>(
    buffer: &mut Buffer,
    out: &mut K,
    number: u64,
    name: Option<&Name>,
    shapes: &[Shape],
) -> Result<(), Failed>
    requires { AllByRecursion IsShapeInReach shapes.now }
    ensures { Writes result (text_of (symbol_commands number (record { name = option_map (λ n. n.now) name.entry; shapes = shapes.now }))) buffer.old buffer.new (K.written out.old) (K.written out.new) (K.faults out.old) (K.faults out.new) (K.same_place out.old out.new) (K.else_same out.old out.new) }
{
    let start = CifCommand::Start {
        n: number,
        a: 1,
        b: 1,
    };
    put_command(buffer, out, &start)?;
    put_name(buffer, out, UserKind::SymbolName, name)?;
    put_shapes(buffer, out, shapes)?;
    put_command(buffer, out, &CifCommand::Finish)
}

/// Puts the call of a numbered symbol at a place, behind the copy's name, if it has one.
pub(crate) fn put_copy<K: Sink>(
    buffer: &mut Buffer,
    out: &mut K,
    name: Option<&Name>,
    number: u64,
    place: &Place,
) -> Result<(), Failed>
    ensures { Writes result (text_of (copy_commands (option_map (λ n. n.now) name.entry) number place.now)) buffer.old buffer.new (K.written out.old) (K.written out.new) (K.faults out.old) (K.faults out.new) (K.same_place out.old out.new) (K.else_same out.old out.new) }
{
    put_name(buffer, out, UserKind::InstanceName, name)?;
    put_command(buffer, out, &call_of(number, place))
}

// Puts the line of a label with this name in the middle of a shape.
fn put_label_line<K: Sink>(
    buffer: &mut Buffer,
    out: &mut K,
    name: &Name,
    shape: &Shape,
) -> Result<(), Failed>
    requires { IsExtentInTwiceReach shape.now.rect }
    ensures { Writes result (line (label_command name.now shape.now)) buffer.old buffer.new (K.written out.old) (K.written out.new) (K.faults out.old) (K.faults out.new) (K.same_place out.old out.new) (K.else_same out.old out.new) }
{
    let rect = shape.rect;
    let mut text = [0; 192];
    let start = print_label_end(
        middle_of(rect.x0, rect.x1),
        middle_of(rect.y0, rect.y1),
        &mut text,
    );
    buffer.append(out, digits_of(UserKind::Label))?;
    buffer.append(out, name.items())?;
    buffer.append(out, &text[start..])
}

/// Puts a label with this name in the middle of a shape, with the line of its layer where it is not the layer written last.
pub(crate) fn put_label<K: Sink>(
    buffer: &mut Buffer,
    out: &mut K,
    last: Option<LayerName>,
    name: &Name,
    shape: &Shape,
) -> Result<(), Failed>
    requires { IsExtentInTwiceReach shape.now.rect }
    ensures { Writes result (text_of (label_commands last name.now shape.now)) buffer.old buffer.new (K.written out.old) (K.written out.new) (K.faults out.old) (K.faults out.new) (K.same_place out.old out.new) (K.else_same out.old out.new) }
{
    put_layer(buffer, out, last, shape.layer)?;
    put_label_line(buffer, out, name, shape)
}
