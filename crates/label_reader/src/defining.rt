//! Defines the symbols of a text, each behind those that it calls.

ghost use Rattle.cif_reader.specs.Expanding.{told_of};
ghost use Rattle.cif_text.specs.Sound.{IsSound};
ghost use Rattle.label_reader.specs.Definitions.{definitions};
ghost use Rattle.label_reader.specs.Defining.{all_defined, all_taken, calls_only, defined, in_order, is_ready, passed, stays, taken};
ghost use Rattle.read_base.specs.Answers.{AnswersAs};
ghost use Rattle.std.specs.List.{AllByRecursion};
ghost use Rattle.std.specs.Prelude.{◌≡◌, ◌<◌, ◌+◌, ◌++◌, ◌∷◌, ◌^◌, [], false, length, is_some, IfErr, IfOk, OnOk};

use crate::definitions::{DefinitionPlace, body};
use cif_reader::{ExpandFault, Expander};
use cif_text::CifCommand;
use limits::DEEPEST;
use std::alloc::{AllocError, Global};

/// Whether a command neither starts nor finishes a definition, nor ends the text.
pub(crate) fn stays(command: &CifCommand) -> bool
    ensures { result ≡ stays command.now }
{
    !matches!(
        command,
        CifCommand::Start { .. } | CifCommand::Finish | CifCommand::End
    )
}

/// Takes the command of this number, if it stays.
pub(crate) fn taken(
    alloc: Global,
    expander: Expander,
    command: &CifCommand,
    at: u32,
) -> Result<Expander, ExpandFault>
    requires { IsSound command.now }
    ensures takes { AnswersAs (λ e. e) told_of result (taken at expander command.now) }
    ensures inside { IfOk result (λ e. is_some e.state.inside ≡ is_some expander.state.inside) }
{
    if stays(command) {
        expander.take(alloc, command, at)
    } else {
        Ok(expander)
    }
}

// Takes commands, of which the first has this number, one after another.
fn all_taken(
    alloc: Global,
    expander: Expander,
    commands: &[CifCommand],
    first: u32,
) -> Result<Expander, ExpandFault>
    requires sound { AllByRecursion IsSound commands.now }
    requires few { first + length commands.now < 2 ^ 32 }
    ensures takes { AnswersAs (λ e. e) told_of result (all_taken first expander commands.now) }
    ensures inside { IfOk result (λ e. is_some e.state.inside ≡ is_some expander.state.inside) }
{
    let mut expander = expander;
    let mut at = first;
    let mut rest = commands;
    while let Some((command, after)) = rest.split_first() {
        expander = taken(alloc, expander, command, at)?;
        at += 1;
        rest = after;
    }
    Ok(expander)
}

// Defines the symbol of a definition, where no other is open.
#[tactic(auto, unfolding(crate::specs::Defining::defined))]
fn defined(
    alloc: Global,
    expander: Expander,
    commands: &[CifCommand],
    place: DefinitionPlace,
) -> Result<Expander, ExpandFault>
    requires sound { AllByRecursion IsSound commands.now }
    requires few { length commands.now < 2 ^ 32 }
    requires outside { is_some expander.state.inside ≡ false }
    ensures takes { AnswersAs (λ e. e) told_of result (defined commands.now expander place) }
    ensures outside { IfOk result (λ e. is_some e.state.inside ≡ false) }
{
    let Some(command) = commands.get(place.start as usize) else {
        return Ok(expander);
    };
    let CifCommand::Start { .. } = command else {
        return Ok(expander);
    };
    let finish = CifCommand::Finish;
    let expander = expander.take(alloc, command, place.start)?;
    let expander = all_taken(alloc, expander, body(commands, place), place.start + 1)?;
    expander.take(alloc, &finish, place.finish)
}

// Whether a command calls no symbol but those that are defined.
fn calls_only(expander: &Expander, command: &CifCommand) -> bool
    ensures { result ≡ calls_only expander.now.state.symbols command.now }
{
    match command {
        CifCommand::Call { n, .. } => expander.is_defined(*n),
        _ => true,
    }
}

// Whether a definition calls only symbols that are defined.
fn is_ready(expander: &Expander, commands: &[CifCommand], place: DefinitionPlace) -> bool
    ensures { result ≡ is_ready commands.now expander.now place }
{
    let mut rest = body(commands, place);
    while let Some((command, after)) = rest.split_first() {
        if !calls_only(expander, command) {
            return false;
        }
        rest = after;
    }
    true
}

// What stands behind a pass, and the definitions that it left.
#[derive(Drop)]
struct Pass {
    expander: Expander,
    left: Vec<DefinitionPlace>,
}

// Leaves a definition for the next pass.
fn leave(left: &mut Vec<DefinitionPlace>, place: DefinitionPlace) -> Result<(), ExpandFault>
    ensures ok { OnOk result (left.new.items ≡ left.old.items ++ (place ∷ [])) }
    ensures memory { IfErr result (λ fault. fault ≡ ExpandFault.Memory) }
{
    match left.push(place) {
        Ok(()) => Ok(()),
        Err(_) => Err(ExpandFault::Memory),
    }
}

// A pass over definitions: those that call only symbols that are defined are defined, and the others are left.
fn passed(
    alloc: Global,
    expander: Expander,
    commands: &[CifCommand],
    places: &[DefinitionPlace],
) -> Result<Pass, ExpandFault>
    requires sound { AllByRecursion IsSound commands.now }
    requires few { length commands.now < 2 ^ 32 }
    requires outside { is_some expander.state.inside ≡ false }
    ensures takes { AnswersAs (λ pass. (pass.expander, pass.left.items)) told_of result (passed commands.now expander [] places.now) }
    ensures outside { IfOk result (λ pass. is_some pass.expander.state.inside ≡ false) }
{
    let mut expander = expander;
    let mut left = Vec::new(alloc);
    let mut rest = places;
    while let Some((place, after)) = rest.split_first() {
        if is_ready(&expander, commands, *place) {
            expander = defined(alloc, expander, commands, *place)?;
        } else {
            leave(&mut left, *place)?;
        }
        rest = after;
    }
    Ok(Pass { expander, left })
}

// Defines the symbols of definitions in their order.
fn all_defined(
    alloc: Global,
    expander: Expander,
    commands: &[CifCommand],
    places: &[DefinitionPlace],
) -> Result<Expander, ExpandFault>
    requires sound { AllByRecursion IsSound commands.now }
    requires few { length commands.now < 2 ^ 32 }
    requires outside { is_some expander.state.inside ≡ false }
    ensures takes { AnswersAs (λ e. e) told_of result (all_defined commands.now expander places.now) }
    ensures outside { IfOk result (λ e. is_some e.state.inside ≡ false) }
{
    let mut expander = expander;
    let mut rest = places;
    while let Some((place, after)) = rest.split_first() {
        expander = defined(alloc, expander, commands, *place)?;
        rest = after;
    }
    Ok(expander)
}

/// Defines the symbols of a text, whose definitions stand at these places, each behind those that it calls. What can't be put into such an order is refused, as a call of an undefined symbol or as too deep.
pub(crate) fn in_order(
    alloc: Global,
    expander: Expander,
    commands: &[CifCommand],
    places: Vec<DefinitionPlace>,
) -> Result<Expander, ExpandFault>
    requires sound { AllByRecursion IsSound commands.now }
    requires few { length commands.now < 2 ^ 32 }
    requires outside { is_some expander.state.inside ≡ false }
    requires places { places.items ≡ definitions commands.now }
    ensures takes { AnswersAs (λ e. e) told_of result (in_order commands.now expander) }
    ensures outside { IfOk result (λ e. is_some e.state.inside ≡ false) }
{
    let mut pass = Pass {
        expander,
        left: places,
    };
    let mut passes = 0;
    while passes < DEEPEST {
        let Pass { expander, left } = pass;
        pass = passed(alloc, expander, commands, left.as_slice())?;
        passes += 1;
    }
    all_defined(alloc, pass.expander, commands, pass.left.as_slice())
}
