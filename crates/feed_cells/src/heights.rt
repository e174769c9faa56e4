//! The heights of rows: each is as high as its highest cell.

ghost use Rattle.feed_cells.specs.Fed.{heights_of, row_height};
ghost use Rattle.row_model.specs.Widths.{cell_height};
ghost use Rattle.row_model.specs.declared.rows.Seat.{Seat as Seated};
ghost use Rattle.std.specs.Prelude.{◌≡◌, fold, map, max, IfOk};

use design_model::Design;
use geom_core::Items;
use row_model::{Seat, cell_height};
use std::alloc::{AllocError, Global};

/// The height of each of these rows in units: that of its highest cell, or where no cell stands in it that of the highest kind. The one error is want of
/// memory.
pub(crate) fn heights_of(
    alloc: Global,
    design: &Design,
    rows: &[Items<Seat>],
) -> Result<Vec<u32>, AllocError>
    ensures { IfOk result (λ heights. heights.items ≡ heights_of design.now rows.now) }
{
    let mut heights = Vec::with_capacity(alloc, rows.len())?;
    for row in rows {
        heights.push(row_height(design, row.items()))?;
    }
    Ok(heights)
}

// The height of a row in units.
fn row_height(design: &Design, seats: &[Seat]) -> u32
    ensures { result ≡ row_height design.now seats.now }
{
    match seats.split_first() {
        None => design.height,
        Some((first, rest)) => greatest(design, cell_height(design, first.instance), rest),
    }
}

// The greatest of a height and those of the cells of seats.
fn greatest(design: &Design, height: u32, seats: &[Seat]) -> u32
    ensures { result ≡ fold max height (map (λ (s : Seated). cell_height design.now s.instance) seats.now) }
{
    let mut most = height;
    let mut rest = seats;
    while let Some((seat, after)) = rest.split_first() {
        most = most.max(cell_height(design, seat.instance));
        rest = after;
    }
    most
}
