//! The cost of given rows, found from nothing: the wires of their nets, and how far row widths miss the target.

ghost use Rattle.row_board.specs.Cost.{cost_of};
ghost use Rattle.row_model.specs.Rows.{ArePlaced};
ghost use Rattle.std.specs.Prelude.{◌≡◌, IfOk};

use crate::building::standings_of;
use crate::net_costs::NetCosts;
use crate::row_lengths::RowLengths;
use crate::trial::total_of;
use crate::weights::Weights;
use design_model::Design;
use row_model::{PlacedRows, Rows};
use std::alloc::{AllocError, Global};

/// What rows of a design cost, in columns: the sum, over its nets, of the columns between the net's pins and, for each row between them, the
/// weight of a row; and for each column by which a row's width misses the target the weight of a length. The one error is want of memory.
pub fn cost(
    alloc: Global,
    design: &Design,
    rows: &Rows,
    weights: Weights,
) -> Result<u64, AllocError>
    requires { ArePlaced design.now rows.now }
    ensures { IfOk result (λ c. c ≡ cost_of design.now rows.now weights) }
{
    let placed = PlacedRows::new(design, rows);
    let standings = standings_of(alloc, &placed)?;
    let lengths = RowLengths::of(alloc, &placed)?;
    let costs = NetCosts::new(alloc, design, weights, standings)?;
    Ok(total_of(&costs, &lengths))
}
