//! Makes rows of cells and feeds from rows of seats, row by row.

ghost use Rattle.feed_cells.specs.Crossings.{all_nets};
ghost use Rattle.feed_cells.specs.Fed.{fed_from, fed_row};
ghost use Rattle.feed_cells.specs.Feeds.{is_fed};
ghost use Rattle.feed_cells.specs.Placement.{net_place};
ghost use Rattle.feed_cells.specs.RowFeeds.{AreFeeds};
ghost use Rattle.row_model.specs.NearStands.{AreShort};
ghost use Rattle.row_model.specs.declared.rows.Seat.{Seat as Sitting};
ghost use Rattle.std.specs.Prelude.{◌≡◌, ◌≤◌, List, filter, length, map, IfOk};

use crate::fed::Item;
use crate::net_places::NetPlace;
use crate::places::lefts_of;
use crate::row_feeds::feeds_by_place;
use crate::row_items::row_items;
use design_model::Design;
use geom_core::Items;
use limits::{MOST_INSTANCES, MOST_PLACED_ROWS};
use list_facts::Lists;
use row_model::Seat;
use std::alloc::{AllocError, Global};

/// Rows with the feeds of these nets, by where the nets stand. The one error is want of memory.
pub(crate) fn fed_rows(
    alloc: Global,
    design: &Design,
    rows: &[Items<Seat>],
    feeds: &Lists<u32>,
    nets: &[NetPlace],
) -> Result<Vec<Items<Item>>, AllocError>
    requires few { length rows.now ≤ MOST_PLACED_ROWS }
    requires short { AreShort rows.now }
    ensures { IfOk result (λ v. AreFeeds design.now rows.now nets.now feeds.now → v.items ≡ fed_from design.now rows.now 0 rows.now) }
{
    let mut fed = Vec::new(alloc);
    let mut row = 0;
    let mut rest = rows;
    while let Some((seats, after)) = rest.split_first() {
        let items = fed_row(alloc, design, row, seats.items(), feeds.at(row), nets)?;
        fed.push(items)?;
        row += 1;
        rest = after;
    }
    Ok(fed)
}

// A row of a design in rows with the feeds of these nets.
#[tactic(auto, using(crate::proofs::RowFeedLaws::row_laws))]
fn fed_row(
    alloc: Global,
    design: &Design,
    row: usize,
    seats: &[Seat],
    feeds: &[u32],
    nets: &[NetPlace],
) -> Result<Items<Item>, AllocError>
    requires short { length seats.now ≤ MOST_INSTANCES }
    ensures { IfOk result (λ items. (rows : List (List Sitting)) → nets.now ≡ map (net_place design.now rows) (all_nets design.now)
        → feeds.now ≡ filter (is_fed design.now rows row) (all_nets design.now) → items ≡ fed_row design.now rows row seats.now) }
{
    let lefts = lefts_of(alloc, design, seats)?;
    let places = feeds_by_place(alloc, feeds, nets, lefts.as_slice())?;
    Ok(Items::new(row_items(alloc, seats, &places)?))
}
