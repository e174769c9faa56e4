//! Rows of cells between a row of the ports at the lower edge and one of those at the upper.

ghost use Rattle.port_rows.specs.PortRows.{cells_in, port_row, with_port_rows, HaveEdges, HoldCells};
ghost use Rattle.row_model.specs.Rows.{ArePlaced};
ghost use Rattle.row_model.specs.Start.{seats_from};
ghost use Rattle.std.specs.Prelude.{◌≡◌, ◌≤◌, ◌+◌, ◌++◌, length, IfOk, OnOk};

use crate::ported::Ported;
use geom_core::Items;
use limits::MOST_INSTANCES;
use row_model::{Rows, Seat};
use std::alloc::{AllocError, Global};

/// The rows of a design with ports: the ports of the lower edge side by side as a new lowest row, where there are any, then rows of all
/// other instances, and the ports of the upper edge as a new highest row, where there are any. Each row of ports begins in column 0
/// and has them in the order of their instances; none of them is mirrored. The one error is want of memory.
#[tactic(auto, unfolding(crate::specs::PortRows::with_port_rows))]
pub fn port_rows(alloc: Global, ported: &Ported, rows: &Rows) -> Result<Rows, AllocError>
    requires { HoldCells ported.now rows.now }
    ensures is { IfOk result (λ made. made ≡ with_port_rows ported.now rows.now) }
    ensures placed { IfOk result (λ made. ArePlaced ported.now.design made) }
    ensures edges { IfOk result (λ made. HaveEdges ported.now made) }
{
    let first = cells_in(ported);
    let mut made = Vec::new(alloc);
    add_port_row(alloc, &mut made, first, ported.south)?;
    add_rows(alloc, &mut made, rows.rows.items())?;
    add_port_row(alloc, &mut made, first + ported.south, ported.north)?;
    Ok(Rows::new(Items::new(made)))
}

// How many instances are no ports.
fn cells_in(ported: &Ported) -> u32
    requires { ported.now.south + ported.now.north ≤ length ported.now.design.instances }
    ensures is { result ≡ cells_in ported.now }
    ensures few { result + (ported.now.south + ported.now.north) ≤ MOST_INSTANCES }
{
    let instances = ported.design.instances.items().len() as u32;
    instances - (ported.south + ported.north)
}

// Puts a row of so many ports from this instance on behind others, if there are any. The one error is want of memory.
fn add_port_row(
    alloc: Global,
    rows: &mut Vec<Items<Seat>>,
    first: u32,
    count: u32,
) -> Result<(), AllocError>
    requires { first + count ≤ MOST_INSTANCES }
    ensures { OnOk result (rows.new.items ≡ rows.old.items ++ port_row first count) }
{
    if count == 0 {
        return Ok(());
    }
    rows.push(Items::new(seats_from(alloc, first, count)?))?;
    Ok(())
}

// So many instances from this one on in their seats, upright. The one error is want of memory.
fn seats_from(alloc: Global, first: u32, count: u32) -> Result<Vec<Seat>, AllocError>
    requires { first + count ≤ MOST_INSTANCES }
    ensures { IfOk result (λ seats. seats.items ≡ seats_from first count) }
{
    let mut seats = Vec::new(alloc);
    for n in 0..count {
        seats.push(Seat {
            instance: first + n,
            mirror: false,
        })?;
    }
    Ok(seats)
}

// Puts copies of rows behind others. The one error is want of memory.
fn add_rows(
    alloc: Global,
    rows: &mut Vec<Items<Seat>>,
    more: &[Items<Seat>],
) -> Result<(), AllocError>
    ensures { OnOk result (rows.new.items ≡ rows.old.items ++ more.now) }
{
    for row in more {
        rows.push(copied_row(alloc, row.items())?)?;
    }
    Ok(())
}

fn copied_row(alloc: Global, seats: &[Seat]) -> Result<Items<Seat>, AllocError>
    ensures { IfOk result (λ copy. copy ≡ seats.now) }
{
    Ok(Items::new(seats.to_vec(alloc)?))
}
