//! What a drawing command gives a level, that of a definition or the main level.
ghost use Rattle.cif_reader.specs.Levels.{given};
ghost use Rattle.cif_reader.specs.Limits.{most_shapes};
ghost use Rattle.cif_reader.specs.Refusals.{Answers};
ghost use Rattle.cif_reader.specs.Standing.{IsGiven, depth_made, level_seen, shapes_made};
ghost use Rattle.cif_text.specs.Meaning.{layer_behind};
ghost use Rattle.std.specs.Prelude.{◌≡◌, ◌≤◌, List, length, IfOk};

use crate::calls::{CalledSymbol, called, depth_above};
use crate::drawing_command::DrawingCommand;
use crate::fault::ExpandKind;
use crate::limit_passing::boxed;
use crate::polygons::polygon_shapes;
use crate::refusal::ExpandStop;
use crate::scales::Scale;
use crate::symbol_table::SymbolTable;
use crate::unscaled::{UnscaledBox, UnscaledTurn};
use crate::wires::wire_shapes;
use cif_text::CifCommand;
use geom_core::{Items, LayerName, Shape};
use std::alloc::Global;

/// How a level draws: its scale, and its present layer.
#[derive(Clone, Copy, Debug)]
pub(crate) struct Pen {
    pub(crate) scale: Scale,
    pub(crate) layer: Option<LayerName>,
}

/// What a command gives its level to draw: nothing, a shape, several shapes, or the shapes of a called symbol under its turn.
#[derive(Drop)]
pub(crate) enum Given<'t> {
    Nothing,
    Own(Shape),
    Several(Items<Shape>),
    Copied(CalledSymbol<'t>),
}

impl Pen {
    /// Takes the layer that a command names.
    pub(crate) fn follow(&mut self, command: DrawingCommand)
        ensures { self.new ≡ record self.old { layer = layer_behind self.old.layer command.entry.command.now } }
    {
        if let CifCommand::Layer(layer) = command.command {
            self.layer = Some(*layer);
        }
    }

    /// What a command gives the level that draws so and has so many shapes before it.
    pub(crate) fn given<'t>(
        &self,
        alloc: Global,
        table: &'t SymbolTable,
        before: usize,
        command: DrawingCommand,
    ) -> Result<Given<'t>, ExpandStop>
        ensures gives { (shapes : List Shape) → length shapes ≡ before → before ≤ most_shapes → Answers shapes_made result
            (given table.now.symbols (level_seen self.now shapes) command.entry.command.now) }
        ensures is { IfOk result (λ given. (shapes : List Shape) → length shapes ≡ before
            → IsGiven table.now (level_seen self.now shapes) command.entry.command.now given) }
    {
        match command.command {
            CifCommand::Box {
                length,
                width,
                cx,
                cy,
                upright,
            } => {
                let numbers = UnscaledBox {
                    length: *length,
                    width: *width,
                    cx: *cx,
                    cy: *cy,
                    upright: *upright,
                };
                let sides = self.scale.scaled_sides(numbers.sides());
                match boxed(self.layer, before, sides) {
                    Ok(shape) => Ok(Given::Own(shape)),
                    Err(kind) => Err(ExpandStop::Because(kind)),
                }
            }
            CifCommand::Wire { width, path } => {
                match wire_shapes(alloc, self, before, *width, path.items()) {
                    Ok(shapes) => Ok(Given::Several(shapes)),
                    Err(refusal) => Err(refusal),
                }
            }
            CifCommand::Polygon { path } => {
                match polygon_shapes(alloc, self, before, path.items()) {
                    Ok(shapes) => Ok(Given::Several(shapes)),
                    Err(refusal) => Err(refusal),
                }
            }
            CifCommand::Call {
                n,
                flip,
                quarters,
                dx,
                dy,
            } => {
                let turn = UnscaledTurn {
                    flip: *flip,
                    quarters: *quarters,
                    dx: *dx,
                    dy: *dy,
                };
                let turn = self.scale.scaled_turn(turn);
                match called(alloc, table, before, *n, turn) {
                    Ok(call) => Ok(Given::Copied(call)),
                    Err(refusal) => Err(refusal),
                }
            }
            _ => Ok(Given::Nothing),
        }
    }
}

impl Given<'_> {
    /// The depth that it makes.
    pub(crate) fn depth(&self) -> Result<u32, ExpandKind>
        ensures { result ≡ depth_made self.now }
    {
        match self {
            Given::Nothing | Given::Own(_) | Given::Several(_) => Ok(1),
            Given::Copied(call) => depth_above(call.symbol.kept().depth),
        }
    }
}
