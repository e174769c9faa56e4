//! The labels of the top on the outline layer.

ghost use Rattle.cif_text.specs.Meaning.{layer_behind};
ghost use Rattle.cif_text.specs.Printable.{IsPart};
ghost use Rattle.label_reader.specs.Labelled.{labels};
ghost use Rattle.cif_text.specs.Labels.{label_of};
ghost use Rattle.label_reader.specs.Naming.{label_by, placed_at};
ghost use Rattle.std.specs.Option.{option_and_then, option_to_list};
ghost use Rattle.std.specs.Prelude.{◌≡◌, ◌<◌, ◌++◌, ◌^◌, length, IfOk, OnOk};

use crate::definitions::DefinitionPlace;
use crate::tops::{is_at_top, is_open_behind};
use cif_reader::{WideCorner, place_at_scale};
use cif_text::{CifCommand, Label, UserKind, label_of};
use geom_core::{Corner, LayerName, Name};
use std::alloc::{AllocError, Global};

/// The scale of the top: its numbers count as `a / b` centimicrons each.
#[derive(Clone, Copy, Debug)]
pub(crate) struct TopScale {
    pub(crate) a: u64,
    pub(crate) b: u64,
    ghost a_is: { IsPart a },
    ghost b_is: { IsPart b },
}

/// A label of the top on the outline layer: its name, and its place in half centimicrons.
#[derive(Debug, Drop)]
pub(crate) struct PlacedName {
    pub(crate) name: Name,
    pub(crate) place: WideCorner,
}

// The label at its place in half centimicrons, where that is whole.
fn placed_at(
    alloc: Global,
    scale: TopScale,
    label: &Label,
) -> Result<Option<PlacedName>, AllocError>
    ensures { IfOk result (λ placed. placed ≡ placed_at scale.a scale.b label.now) }
{
    let corner = Corner {
        x: label.x,
        y: label.y,
    };
    match place_at_scale(scale.a, scale.b, corner) {
        Some(place) => Ok(Some(PlacedName {
            name: Name::new(label.name.to_vec(alloc)?),
            place,
        })),
        None => Ok(None),
    }
}

// The label that a text gives, at its place.
fn label_in(alloc: Global, scale: TopScale, text: &[u8]) -> Result<Option<PlacedName>, AllocError>
    ensures { IfOk result (λ placed. placed ≡ option_and_then (placed_at scale.a scale.b) (label_of text.now)) }
{
    match label_of(text) {
        Some(label) => placed_at(alloc, scale, &label),
        None => Ok(None),
    }
}

// The label that a command puts on the outline layer, where that is the present one.
fn label_by(
    alloc: Global,
    scale: TopScale,
    outline: &LayerName,
    layer: &Option<LayerName>,
    command: &CifCommand,
) -> Result<Option<PlacedName>, AllocError>
    ensures { IfOk result (λ placed. placed ≡ label_by scale.a scale.b outline.now layer.now command.now) }
{
    let Some(layer) = layer else {
        return Ok(None);
    };
    if layer.text() != outline.text() {
        return Ok(None);
    }
    match command {
        CifCommand::User { kind, text } => match kind {
            UserKind::Label => label_in(alloc, scale, text.items()),
            UserKind::SymbolName | UserKind::InstanceName | UserKind::Other => Ok(None),
        },
        _ => Ok(None),
    }
}

// Takes the layer that a command names.
fn follow(layer: &mut Option<LayerName>, command: &CifCommand)
    ensures { layer.new ≡ layer_behind layer.old command.now }
{
    if let CifCommand::Layer(name) = command {
        *layer = Some(*name);
    }
}

// Puts a label behind others, if there is one.
fn push_label(found: &mut Vec<PlacedName>, label: Option<PlacedName>) -> Result<(), AllocError>
    ensures { OnOk result (found.new.items ≡ found.old.items ++ option_to_list label) }
{
    if let Some(label) = label {
        found.push(label)?;
    }
    Ok(())
}

/// The labels of the top on the outline layer, in their order. The one error is want of memory.
pub(crate) fn labels(
    alloc: Global,
    commands: &[CifCommand],
    top: Option<DefinitionPlace>,
    scale: TopScale,
    outline: &LayerName,
) -> Result<Vec<PlacedName>, AllocError>
    requires { length commands.now < 2 ^ 32 }
    ensures { IfOk result (λ found. found.items ≡ labels top (scale.a, scale.b) outline.now commands.now) }
{
    let mut found = Vec::new(alloc);
    let mut at: u32 = 0;
    let mut inside = false;
    let mut layer = None;
    let mut rest = commands;
    while let Some((command, after)) = rest.split_first() {
        if is_at_top(top, at, inside) {
            let label = label_by(alloc, scale, outline, &layer, command)?;
            push_label(&mut found, label)?;
            follow(&mut layer, command);
        }
        inside = is_open_behind(inside, command);
        at += 1;
        rest = after;
    }
    Ok(found)
}
