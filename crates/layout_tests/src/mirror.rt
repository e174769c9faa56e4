//! Rows whose cells are mirrored.

ghost use Rattle.design_model.specs.Netlist.{Netlist};
ghost use Rattle.layout_tests.specs.Mirrored.{turned, turned_rows};
ghost use Rattle.row_model.specs.Rows.{ArePlaced};
ghost use Rattle.std.specs.Prelude.{◌≡◌, map, IfOk};

use geom_core::Items;
use row_model::{Rows, Seat};
use std::alloc::{AllocError, Global};

/// The same seats, each turned over.
fn turned_seats(alloc: Global, seats: &[Seat]) -> Result<Vec<Seat>, AllocError>
    ensures { IfOk result (λ v. v.items ≡ map turned seats.now) }
{
    let mut turned = Vec::new(alloc);
    let mut rest = seats;
    while let Some((seat, after)) = rest.split_first() {
        turned.push(Seat {
            instance: seat.instance,
            mirror: !seat.mirror,
        })?;
        rest = after;
    }
    Ok(turned)
}

/// The same rows of seats, each turned over.
fn turned_rows(alloc: Global, rows: &[Items<Seat>]) -> Result<Vec<Items<Seat>>, AllocError>
    ensures { IfOk result (λ v. v.items ≡ turned_rows rows.now) }
{
    let mut turned = Vec::new(alloc);
    let mut rest = rows;
    while let Some((seats, above)) = rest.split_first() {
        turned.push(Items::new(turned_seats(alloc, seats.items())?))?;
        rest = above;
    }
    Ok(turned)
}

/// The same rows with each cell turned over. They hold the instances that the rows held.
pub(crate) fn mirrored(alloc: Global, rows: &Rows) -> Result<Rows, AllocError>
    ensures is { IfOk result (λ made. made ≡ turned_rows rows.now) }
    ensures placed { IfOk result (λ made. (d : Netlist) → ArePlaced d rows.now → ArePlaced d made) }
{
    let made = turned_rows(alloc, rows.rows.items())?;
    Ok(Rows::new(Items::new(made)))
}
