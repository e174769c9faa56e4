//! The cell kind of a module: its sides, terminals and positions, or why it does not fit the grid.

ghost use Rattle.netlist_core.specs.Answers.{Agrees};
ghost use Rattle.netlist_core.specs.Cells.{grid_of, kind_fault, kind_of};
ghost use Rattle.std.specs.Prelude.{◌≡◌, IfOk};

use crate::fault::DesignFault;
use crate::numbered::Numbered;
use crate::outline::{Outline, outline_of};
use crate::positions::{Columns, are_on_layer, has_clash};
use crate::terminals::{NumberedSpot, Terminals};
use design_model::{CellKind, Position};
use geom_core::Items;
use std::alloc::{AllocError, Global};
use tech_rules::Rules;

/// The cell kind of a module, of its own height. It errs with NoShape where the corners are no rectangle, OffGrid where the width
/// is no multiple of the column or a position is not in the middle of one of the columns or not at an edge, TooLow where the height
/// is below two pins and the vertical space, PinClash where two positions share a point, and WrongLayer where a position's layer is
/// not the rules' word, ASCII case aside: the first of these that holds. Positions of power terminals do not count.
#[tactic(auto, unfolding(crate::specs::Cells::kind_of))]
pub(crate) fn kind_of(
    alloc: Global,
    rules: &Rules,
    numbered: &Numbered,
) -> Result<CellKind, DesignFault>
    ensures { Agrees (λ kind. kind) result (kind_of rules.now numbered.now) }
{
    let module = numbered.module;
    let terminals = Terminals::new(alloc, module.lines.items())?;
    let list = terminals.list(alloc)?;
    let spots = terminals.spots(alloc)?;
    let grid = grid_of(alloc, rules, numbered, spots.as_slice())?;
    Ok(CellKind {
        name: module.name.copied(alloc)?,
        columns: grid.columns,
        height: grid.height,
        terminals: Items::new(list),
        positions: grid.positions,
    })
}

/// The sides of a module that lies on the grid, and its positions.
#[derive(Drop)]
struct Grid {
    /// Its width in columns.
    columns: u32,
    /// Its height in units.
    height: u32,
    positions: Items<Position>,
}

// The sides and the positions of a module that has these spots, or why it is no kind.
#[tactic(auto, unfolding(crate::specs::Cells::grid_of))]
fn grid_of(
    alloc: Global,
    rules: &Rules,
    numbered: &Numbered,
    spots: &[NumberedSpot],
) -> Result<Grid, DesignFault>
    ensures { Agrees (λ grid. grid) result (grid_of rules.now numbered.now.0 numbered.now.1.corners spots.now) }
{
    let n = numbered.number;
    let Some(outline) = outline_of(numbered.corners()) else {
        return Err(DesignFault::NoShape(n));
    };
    let columns = Columns {
        outline,
        pitch: rules.grid.column,
    };
    let Some(positions) = columns.grid_positions(alloc, spots)? else {
        return Err(DesignFault::OffGrid(n));
    };
    if let Some(fault) = kind_fault(alloc, rules, n, outline, spots, &positions)? {
        return Err(fault);
    }
    Ok(Grid {
        columns: columns.count(),
        height: outline.height,
        positions: Items::new(positions),
    })
}

// Why a module on the grid is no kind, or None where it is one. The one error is want of memory.
#[tactic(auto, unfolding(crate::specs::Cells::kind_fault))]
fn kind_fault(
    alloc: Global,
    rules: &Rules,
    n: u32,
    outline: Outline,
    spots: &[NumberedSpot],
    positions: &[Position],
) -> Result<Option<DesignFault>, AllocError>
    ensures { IfOk result (λ fault. fault ≡ kind_fault rules.now n outline spots.now positions.now) }
{
    if outline.height < 2 * rules.grid.pin + rules.vertical.space {
        return Ok(Some(DesignFault::TooLow(n)));
    }
    if has_clash(alloc, positions)? {
        return Ok(Some(DesignFault::PinClash(n)));
    }
    if are_on_layer(rules.yal.items(), spots) {
        return Ok(None);
    }
    Ok(Some(DesignFault::WrongLayer(n)))
}
