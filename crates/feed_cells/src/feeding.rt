//! Puts a feed into the rows of a design wherever a net crosses a row in which it has no through pin.

ghost use Rattle.feed_cells.specs.Fed.{fed_rows, IsFed, cells_in};
ghost use Rattle.feed_cells.specs.Placement.{placement_of};
ghost use Rattle.row_model.specs.Rows.{ArePlaced};
ghost use Rattle.std.specs.Prelude.{◌≡◌, IfOk};

use crate::fed::FedRows;
use crate::fed_rows::fed_rows;
use crate::heights::heights_of;
use crate::placement::Placement;
use crate::row_feeds::feeds_by_row;
use crate::totals::{counts_in, greatest_width};
use design_model::Design;
use geom_core::Items;
use row_model::Rows;
use std::alloc::{AllocError, Global};

/// The rows with a feed wherever a net crosses a row in which it has no through pin, by where the pins and nets of the design stand: before the first
/// cell that does not begin left of the middle of the net's pins, or behind the last; feeds at one place in the order of their nets. Then the height of
/// each row, the width of the widest, and how many nets stand in each channel. The cells stand as before. The one error is want of memory.
#[tactic(auto, using(crate::proofs::RowFeedLaws::fed_laws), unfolding(crate::specs::Placement::placement_of))]
pub fn insert_feeds(
    alloc: Global,
    design: &Design,
    rows: &Rows,
    placement: &Placement,
) -> Result<FedRows, AllocError>
    requires placed { ArePlaced design.now rows.now }
    requires placement { placement.now ≡ placement_of design.now rows.now }
    ensures is { IfOk result (λ fed. fed ≡ fed_rows design.now rows.now) }
    ensures fed { IfOk result (λ fed. IsFed design.now fed) }
    ensures cells { IfOk result (λ fed. cells_in fed.rows ≡ rows.now) }
{
    // The bounds of the design's type are known once a field is read.
    let _pins = &design.pins;
    let rows = rows.rows.items();
    let heights = heights_of(alloc, design, rows)?;
    let nets = placement.nets.items();
    let feeds = feeds_by_row(alloc, rows.len(), nets)?;
    let fed = fed_rows(alloc, design, rows, &feeds, nets)?;
    let width = greatest_width(design, fed.as_slice());
    let counts = counts_in(alloc, rows.len() + 1, nets)?;
    Ok(FedRows {
        rows: Items::new(fed),
        heights: Items::new(heights),
        width,
        nets: Items::new(counts),
    })
}
