//! The commands one after another, each at the main level or in the open definition, from its start to its finish.

ghost use Rattle.cif_reader.specs.Behind.{IsBehind, IsFinished, IsOpened, IsStanding, seen};
ghost use Rattle.cif_reader.specs.Expansion.{advance, at_first};
ghost use Rattle.cif_reader.specs.Refusals.{Takes};
ghost use Rattle.cif_reader.specs.Table.{IsKeptBehind};
ghost use Rattle.cif_text.specs.CifReads.{is_open_behind};
ghost use Rattle.cif_text.specs.Sound.{IsInPlace};
ghost use Rattle.std.specs.Prelude.{◌≡◌, true, false, is_some, OnOk};

use crate::drawing_command::DrawingCommand;
use crate::fault::ExpandKind;
use crate::found::Found;
use crate::inside::{Open, step_inside};
use crate::level::Pen;
use crate::outside::{Main, step_outside};
use crate::refusal::ExpandStop;
use crate::scales::Scale;
use crate::symbol_table::SymbolTable;
use crate::table::Kept;
use cif_text::CifCommand;
use std::alloc::{AllocError, Global};

/// What stands behind some commands: the main level, the symbols whose definitions have ended, and the definition that is open.
#[derive(Debug, Drop)]
pub(crate) struct Standing {
    pub(crate) main: Main,
    pub(crate) table: SymbolTable,
    pub(crate) definition: Option<Open>,
}

/// What stands before the first command.
pub(crate) fn at_first(alloc: Global) -> Standing
    ensures seen { seen result ≡ at_first }
    ensures is { IsStanding result }
    ensures outside { result.definition ≡ None }
{
    Standing {
        main: Main {
            pen: Pen {
                scale: Scale::whole(),
                layer: None,
            },
            shapes: Vec::new(alloc),
            cells: Vec::new(alloc),
            waiting: None,
            depth: 1,
        },
        table: SymbolTable::new(alloc),
        definition: None,
    }
}

fn finished(standing: &mut Standing, definition: Open) -> Result<(), AllocError>
    requires { IsKeptBehind standing.old.table.symbols definition.kept }
    ensures { OnOk result (IsFinished standing.old standing.new definition) }
{
    standing.main.depth = definition.kept.depth;
    standing.definition = None;
    standing.table.push(definition.kept)
}

fn step_finish(standing: &mut Standing) -> Result<(), ExpandStop>
    requires is { IsStanding standing.old }
    requires inside { is_some standing.old.definition ≡ true }
    ensures { Takes result (advance (seen standing.old) CifCommand.Finish) (IsBehind standing.new false) }
{
    match standing.definition.take() {
        Some(definition) => match finished(standing, definition) {
            Ok(()) => Ok(()),
            Err(_) => Err(ExpandStop::Memory),
        },
        None => Ok(()),
    }
}

fn opened(alloc: Global, n: u64, scale: Scale) -> Open
    ensures { IsOpened n scale.a scale.b result }
{
    Open {
        kept: Kept {
            number: n,
            name: None,
            items: Vec::new(alloc),
            count: 0,
            bounds: None,
            depth: 1,
        },
        pen: Pen { scale, layer: None },
    }
}

fn step_start(
    alloc: Global,
    standing: &mut Standing,
    n: u64,
    scale: Scale,
) -> Result<(), ExpandStop>
    requires is { IsStanding standing.old }
    requires outside { standing.old.definition ≡ None }
    ensures { Takes result (advance (seen standing.old) (CifCommand.Start n scale.a scale.b)) (IsBehind standing.new true) }
{
    match Found::by_number(&standing.table, n) {
        Some(_) => Err(ExpandStop::Because(ExpandKind::Twice(n))),
        None => {
            standing.main.waiting = None;
            standing.definition = Some(opened(alloc, n, scale));
            Ok(())
        }
    }
}

fn step_drawing(
    alloc: Global,
    standing: &mut Standing,
    command: DrawingCommand,
) -> Result<(), ExpandStop>
    requires { IsStanding standing.old }
    ensures { Takes result (advance (seen standing.old) command.entry.command.now) (IsBehind standing.new (is_some standing.old.definition)) }
{
    match &mut standing.definition {
        Some(definition) => step_inside(alloc, &standing.table, definition, command),
        None => step_outside(alloc, &standing.table, &mut standing.main, command),
    }
}

/// What stands behind a command.
pub(crate) fn step(
    alloc: Global,
    standing: &mut Standing,
    command: &CifCommand,
) -> Result<(), ExpandStop>
    requires is { IsStanding standing.old }
    requires place { IsInPlace (is_some standing.old.definition) command.now }
    ensures { Takes result (advance (seen standing.old) command.now)
        (IsBehind standing.new (is_open_behind (is_some standing.old.definition) command.now)) }
{
    match command {
        CifCommand::Start { n, a, b } => step_start(alloc, standing, *n, Scale { a: *a, b: *b }),
        CifCommand::Finish => step_finish(standing),
        _ => step_drawing(alloc, standing, DrawingCommand { command }),
    }
}
