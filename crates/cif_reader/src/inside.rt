//! Commands inside an open definition: its boxes, calls, present layer and symbol name.

ghost use Rattle.cif_reader.specs.Levels.{definition_given};
ghost use Rattle.cif_reader.specs.Refusals.{Takes};
ghost use Rattle.cif_reader.specs.Standing.{IsInsideBehind, IsOpen, definition_seen};
ghost use Rattle.cif_text.specs.Meaning.{name_behind};
ghost use Rattle.std.specs.Prelude.{◌≡◌, OnOk};

use crate::drawing_command::DrawingCommand;
use crate::growing::push;
use crate::level::Pen;
use crate::refusal::ExpandStop;
use crate::symbol_table::SymbolTable;
use crate::table::Kept;
use cif_text::{CifCommand, UserKind};
use geom_core::Name;
use std::alloc::{AllocError, Global};

/// A definition that is open: its symbol so far, and how its level draws.
#[derive(Debug, Drop)]
pub(crate) struct Open {
    pub(crate) kept: Kept,
    pub(crate) pen: Pen,
}

/// Takes the name that a command gives a symbol.
fn rename(alloc: Global, name: &mut Option<Name>, command: DrawingCommand) -> Result<(), AllocError>
    ensures { OnOk result (name.new ≡ name_behind name.old command.entry.command.now) }
{
    if let CifCommand::User {
        kind: UserKind::SymbolName,
        text,
    } = command.command
    {
        *name = Some(text.copied(alloc)?);
    }
    Ok(())
}

/// A command inside the definition that is open.
pub(crate) fn step_inside(
    alloc: Global,
    table: &SymbolTable,
    definition: &mut Open,
    command: DrawingCommand,
) -> Result<(), ExpandStop>
    requires { IsOpen table.now.symbols definition.old }
    ensures { Takes result
        (definition_given table.now.symbols table.now.depths (definition_seen table.now.symbols definition.old) command.entry.command.now)
        (IsInsideBehind table.now.symbols definition.old definition.new) }
{
    let before = definition.kept.count as usize;
    let given = match definition.pen.given(alloc, table, before, command) {
        Ok(given) => given,
        Err(refusal) => return Err(refusal),
    };
    let depth = given.depth()?;
    push(&mut definition.kept, &given, depth)?;
    definition.pen.follow(command);
    rename(alloc, &mut definition.kept.name, command)?;
    Ok(())
}
