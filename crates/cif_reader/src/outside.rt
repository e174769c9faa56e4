//! Commands at the main level: its boxes and calls, and the named cells that the calls give.

ghost use Rattle.cif_reader.specs.Levels.{main_given, named};
ghost use Rattle.cif_reader.specs.Limits.{most_shapes};
ghost use Rattle.cif_reader.specs.Refusals.{Answers, Takes};
ghost use Rattle.cif_reader.specs.Standing.{IsOutsideBehind, cells_made, main_seen, shapes_made};
ghost use Rattle.cif_text.specs.Meaning.{waiting_behind};
ghost use Rattle.std.specs.Option.{option_to_list};
ghost use Rattle.std.specs.Prelude.{◌≡◌, ◌≤◌, length, IfOk, OnOk, ◌++◌};

use crate::drawing_command::DrawingCommand;
use crate::fault::ExpandKind;
use crate::level::{Given, Pen};
use crate::refusal::ExpandStop;
use crate::symbol_table::SymbolTable;
use cif_text::{CifCommand, UserKind};
use geom_core::{Cell, Name, Shape, Turn};
use std::alloc::{AllocError, Global};

/// The main level: how it draws, its shapes and its cells so far, the name that waits for a call, and its depth.
#[derive(Debug, Drop)]
pub(crate) struct Main {
    pub(crate) pen: Pen,
    pub(crate) shapes: Vec<Shape>,
    pub(crate) cells: Vec<Cell>,
    pub(crate) waiting: Option<Name>,
    pub(crate) depth: u32,
}

fn named_cell(
    alloc: Global,
    name: &Name,
    symbol: &Name,
    turn: Turn,
    first: u32,
    count: u32,
) -> Result<Cell, AllocError>
    ensures { IfOk result (λ cell. cell ≡ record { name = name.now; symbol = symbol.now; turn = turn; first = first; count = count }) }
{
    let name = name.copied(alloc)?;
    let symbol = symbol.copied(alloc)?;
    Ok(Cell {
        name,
        symbol,
        turn,
        first,
        count,
    })
}

/// The cell of what a command gives, where a name waits for a call.
fn cell_of(
    alloc: Global,
    waiting: &Option<Name>,
    given: &Given,
    first: u32,
) -> Result<Option<Cell>, ExpandStop>
    ensures { Answers option_to_list result (named (cells_made waiting.now first given.now)) }
{
    let Some(name) = waiting else {
        return Ok(None);
    };
    let Given::Copied(call) = given else {
        return Ok(None);
    };
    let kept = call.symbol.kept();
    let Some(symbol) = &kept.name else {
        return Err(ExpandStop::Because(ExpandKind::NoSymbolName));
    };
    match named_cell(alloc, name, symbol, *call.turn.turn(), first, kept.count) {
        Ok(cell) => Ok(Some(cell)),
        Err(_) => Err(ExpandStop::Memory),
    }
}

fn push_cell(cells: &mut Vec<Cell>, cell: Option<Cell>) -> Result<(), AllocError>
    ensures { OnOk result (cells.new.items ≡ cells.old.items ++ option_to_list cell) }
{
    if let Some(cell) = cell {
        cells.push(cell)?;
    }
    Ok(())
}

/// Draws what a command gives.
pub(crate) fn draw(alloc: Global, shapes: &mut Vec<Shape>, given: &Given) -> Result<(), AllocError>
    ensures { OnOk result (shapes.new.items ≡ shapes.old.items ++ shapes_made given.now) }
{
    match given {
        Given::Nothing => Ok(()),
        Given::Own(shape) => {
            shapes.push(*shape)?;
            Ok(())
        }
        Given::Several(several) => shapes.extend_from_slice(several.items()),
        Given::Copied(call) => call.symbol.push_copy(alloc, &call.turn, shapes),
    }
}

/// Lets a name wait for a call, or no longer, as a command says.
fn wait(
    alloc: Global,
    waiting: &mut Option<Name>,
    command: DrawingCommand,
) -> Result<(), AllocError>
    ensures { OnOk result (waiting.new ≡ waiting_behind waiting.old command.entry.command.now) }
{
    match command.command {
        CifCommand::User { kind, text } => match kind {
            UserKind::InstanceName => *waiting = Some(text.copied(alloc)?),
            UserKind::SymbolName => *waiting = None,
            UserKind::Label | UserKind::Other => {}
        },
        CifCommand::Comment | CifCommand::Finish | CifCommand::End => {}
        _ => *waiting = None,
    }
    Ok(())
}

/// A command of the main level that neither starts nor finishes a definition.
pub(crate) fn step_outside(
    alloc: Global,
    table: &SymbolTable,
    main: &mut Main,
    command: DrawingCommand,
) -> Result<(), ExpandStop>
    requires { length main.old.shapes.items ≤ most_shapes }
    ensures { Takes result
        (main_given table.now.symbols table.now.depths (main_seen main.old) command.entry.command.now) (IsOutsideBehind main.old main.new) }
{
    let before = main.shapes.len();
    let given = match main.pen.given(alloc, table, before, command) {
        Ok(given) => given,
        Err(refusal) => return Err(refusal),
    };
    let cell = cell_of(alloc, &main.waiting, &given, before as u32)?;
    let depth = given.depth()?;
    draw(alloc, &mut main.shapes, &given)?;
    push_cell(&mut main.cells, cell)?;
    main.pen.follow(command);
    main.depth = main.depth.max(depth);
    wait(alloc, &mut main.waiting, command)?;
    Ok(())
}
