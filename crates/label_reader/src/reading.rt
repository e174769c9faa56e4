//! The layout of commands whose cells are told by labels.

ghost use Rattle.cif_reader.specs.Expanding.{told_of};
ghost use Rattle.cif_reader.specs.Within.{IsLayoutWithin};
ghost use Rattle.cif_text.specs.Sound.{AreSound, IsSound};
ghost use Rattle.label_reader.specs.Labelled.{labelled, top_command, top_scale, top_taken};
ghost use Rattle.read_base.specs.Answers.{AnswersAs};
ghost use Rattle.std.specs.List.{AllByRecursion};
ghost use Rattle.std.specs.Prelude.{◌≡◌, ◌<◌, ◌^◌, false, is_some, length, IfOk};

use crate::defining::{in_order, stays, taken};
use crate::definitions::{DefinitionPlace, definitions};
use crate::labels::{PlacedName, TopScale, labels};
use crate::naming::named;
use crate::tops::{is_at_top, is_open_behind, top};
use cif_reader::{ExpandFault, Expander};
use cif_text::CifCommand;
use geom_core::{LayerName, Layout};
use std::alloc::Global;

// Takes the command of this number at the top, where the labels name what it calls.
fn taken_at_top(
    alloc: Global,
    expander: Expander,
    outline: &LayerName,
    labels: &[PlacedName],
    command: &CifCommand,
    at: u32,
) -> Result<Expander, ExpandFault>
    requires { IsSound command.now }
    ensures takes { AnswersAs (λ e. e) told_of result (top_command outline.now labels.now at expander command.now) }
{
    if !stays(command) {
        return Ok(expander);
    }
    match named(alloc, expander, outline, labels, command) {
        Ok(expander) => taken(alloc, expander, command, at),
        Err(_) => Err(ExpandFault::Memory),
    }
}

// Takes the commands of the top.
fn top_taken(
    alloc: Global,
    expander: Expander,
    commands: &[CifCommand],
    top: Option<DefinitionPlace>,
    outline: &LayerName,
    labels: &[PlacedName],
) -> Result<Expander, ExpandFault>
    requires sound { AllByRecursion IsSound commands.now }
    requires few { length commands.now < 2 ^ 32 }
    ensures takes { AnswersAs (λ e. e) told_of result (top_taken top outline.now labels.now 0 false expander commands.now) }
{
    let mut expander = expander;
    let mut at: u32 = 0;
    let mut inside = false;
    let mut rest = commands;
    while let Some((command, after)) = rest.split_first() {
        if is_at_top(top, at, inside) {
            expander = taken_at_top(alloc, expander, outline, labels, command, at)?;
        }
        inside = is_open_behind(inside, command);
        at += 1;
        rest = after;
    }
    Ok(expander)
}

// The scale of the top.
fn top_scale(commands: &[CifCommand], top: Option<DefinitionPlace>) -> TopScale
    requires { AllByRecursion IsSound commands.now }
    ensures { (result.a, result.b) ≡ top_scale commands.now top }
{
    let Some(place) = top else {
        return TopScale { a: 1, b: 1 };
    };
    match commands.get(place.start as usize) {
        Some(CifCommand::Start { a, b, .. }) => TopScale { a: *a, b: *b },
        _ => TopScale { a: 1, b: 1 },
    }
}

/// The layout of commands whose cells are told by labels, within the limits of the reader, in half centimicrons. The commands are sound, as those that `read_commands` of
/// `cif_text` gives, and fewer than 2^32. The definitions come first, in an order in which each stands behind those that it calls; where the main level has no content, or is one
/// call without a name and a turn, the layout is the last definition, or the one that is called. A call at that level is the cell that the first label inside its outline names; without a
/// label on the outline layer names are told by `91`, as `expand` of `cif_reader` has it. Bad comes exactly where a command is refused, with the number of the first such command
/// in that order and the first reason that applies to it; want of memory may come at any time.
#[tactic(auto, unfolding(crate::specs::Labelled::labelled))]
pub fn expand_labelled(
    alloc: Global,
    commands: &[CifCommand],
    outline: &LayerName,
) -> Result<Layout, ExpandFault>
    requires sound { AreSound false commands.now }
    requires few { length commands.now < 2 ^ 32 }
    ensures expands { AnswersAs (λ layout. layout) told_of result (labelled outline.now commands.now) }
    ensures within { IfOk result (λ layout. IsLayoutWithin (length commands.now) layout) }
{
    let Ok(places) = definitions(alloc, commands) else {
        return Err(ExpandFault::Memory);
    };
    let top = top(commands, places.as_slice());
    let scale = top_scale(commands, top);
    let Ok(labels) = labels(alloc, commands, top, scale, outline) else {
        return Err(ExpandFault::Memory);
    };
    let expander = in_order(alloc, Expander::new(alloc), commands, places)?;
    let expander = expander.at_scale(scale.a, scale.b);
    let expander = top_taken(alloc, expander, commands, top, outline, labels.as_slice())?;
    Ok(expander.end())
}
