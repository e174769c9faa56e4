//! The rows that a design begins with, with their feeds.

ghost use Rattle.feed_cells.specs.Fed.{IsFed};
ghost use Rattle.row_model.specs.Rows.{ArePlaced};
ghost use Rattle.std.specs.Prelude.{◌<◌, ◌≤◌, IfOk};

use design_model::Design;
use feed_cells::{FedRows, insert_feeds, place};
use row_model::{Rows, start};
use std::alloc::{AllocError, Global};
use tech_rules::StartBy;

/// So many rows of a design, with their feeds.
pub(crate) fn fed_rows_of(alloc: Global, design: &Design, count: u32) -> Result<FedRows, AllocError>
    requires some { 0 < count }
    requires few { count ≤ 512 }
    ensures { IfOk result (IsFed design.now) }
{
    let rows = start(alloc, design, count, StartBy::Width)?;
    with_feeds(alloc, design, &rows)
}

/// Rows with their feeds.
fn with_feeds(alloc: Global, design: &Design, rows: &Rows) -> Result<FedRows, AllocError>
    requires { ArePlaced design.now rows.now }
    ensures { IfOk result (IsFed design.now) }
{
    let placement = place(alloc, design, rows)?;
    insert_feeds(alloc, design, rows, &placement)
}
