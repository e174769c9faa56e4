//! The ties in the cells of instances: each position is tied with the first of its terminal.

ghost use Rattle.design_model.specs.Netlist.{IsKind};
ghost use Rattle.geom_extract.specs.CellTies.{cell_ties, first_places};
ghost use Rattle.std.specs.Prelude.{◌≡◌, ◌<◌, ◌+◌, ◌++◌, ◌^◌, length, OnOk};

use design_model::CellKind;
use std::alloc::AllocError;

// Puts the ties in a cell of this kind behind others: each position is tied with the first of its terminal.
pub(crate) fn push_ties(
    ties: &mut Vec<(u32, u32)>,
    start: usize,
    kind: &CellKind,
    firsts: &[usize],
) -> Result<(), AllocError>
    requires kind { IsKind kind.now }
    requires firsts { firsts.now ≡ first_places kind.now }
    requires room { start + length kind.now.positions < 2 ^ 32 }
    ensures { OnOk result (ties.new.items ≡ ties.old.items ++ cell_ties start kind.now.positions) }
{
    let positions = kind.positions.items();
    for place in 0..positions.len() {
        let first = firsts[positions[place].terminal as usize];
        if first != place {
            ties.push(((start + first) as u32, (start + place) as u32))?;
        }
    }
    Ok(())
}
