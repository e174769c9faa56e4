//! Names what is called by the label inside its outline.

ghost use Rattle.cif_reader.specs.Levels.{is_drawing};
ghost use Rattle.cif_text.specs.Sound.{IsSound};
ghost use Rattle.label_reader.specs.Naming.{holds, is_between, is_on, label_on, name_of, named};
ghost use Rattle.std.specs.List.{list_any};
ghost use Rattle.std.specs.Prelude.{◌≡◌, IfOk, option_map, true};

use crate::labels::PlacedName;
use cif_reader::{Expander, WideCorner};
use cif_text::CifCommand;
use geom_core::{LayerName, Name, Rect, Shape};
use std::alloc::{AllocError, Global};

// Whether a number lies between two others, or is one of them.
#[tactic(auto, using(std_laws::proofs::Integers::read_back))]
fn is_between(low: i64, z: i128, high: i64) -> bool
    ensures { result ≡ is_between low z high }
{
    i128::from(low) <= z && z <= i128::from(high)
}

// Whether a place lies in a rectangle or on its edge.
#[tactic(auto, using(std_laws::proofs::Integers::read_back))]
fn holds(rect: &Rect, place: &WideCorner) -> bool
    ensures { result ≡ holds rect.now place.now }
{
    is_between(rect.x0, place.x, rect.x1) && is_between(rect.y0, place.y, rect.y1)
}

// Whether a label lies in a shape on the outline layer.
fn is_on(outline: &LayerName, label: &PlacedName, shape: &Shape) -> bool
    ensures { result ≡ is_on outline.now label.now shape.now }
{
    shape.layer.text() == outline.text() && holds(&shape.rect, &label.place)
}

// Whether a label lies inside the outline of what is called.
fn is_on_any(outline: &LayerName, label: &PlacedName, shapes: &[Shape]) -> bool
    ensures { result ≡ list_any (is_on outline.now label.now) shapes.now }
{
    let mut rest = shapes;
    while let Some((shape, after)) = rest.split_first() {
        if is_on(outline, label, shape) {
            return true;
        }
        rest = after;
    }
    false
}

// The first label inside the outline of what is called.
fn label_on<'l>(
    outline: &LayerName,
    labels: &'l [PlacedName],
    shapes: &[Shape],
) -> Option<&'l PlacedName>
    ensures { option_map (λ label. label.now) result ≡ label_on outline.now labels.now shapes.now }
{
    let mut rest = labels;
    while let Some((label, after)) = rest.split_first() {
        if is_on_any(outline, label, shapes) {
            return Some(label);
        }
        rest = after;
    }
    None
}

// The name of the first label inside the outline of what is called, in memory of its own.
fn name_on(
    alloc: Global,
    outline: &LayerName,
    labels: &[PlacedName],
    shapes: &[Shape],
) -> Result<Option<Name>, AllocError>
    ensures { IfOk result (λ name. name ≡ option_map name_of (label_on outline.now labels.now shapes.now)) }
{
    // What calls nothing needs no look at the labels.
    if shapes.is_empty() {
        return Ok(None);
    }
    match label_on(outline, labels, shapes) {
        Some(label) => Ok(Some(label.name.copied(alloc)?)),
        None => Ok(None),
    }
}

/// The name of the label inside what a command calls waits for it, where there are labels; else all is as before. The one error is want of memory.
pub(crate) fn named(
    alloc: Global,
    expander: Expander,
    outline: &LayerName,
    labels: &[PlacedName],
    command: &CifCommand,
) -> Result<Expander, AllocError>
    requires sound { IsSound command.now }
    requires drawing { is_drawing command.now ≡ true }
    ensures { IfOk result (λ e. e ≡ named outline.now labels.now expander command.now) }
{
    if labels.is_empty() {
        return Ok(expander);
    }
    let shapes = expander.called_shapes(alloc, command)?;
    let name = name_on(alloc, outline, labels, shapes.as_slice())?;
    Ok(expander.with_waiting(name))
}
