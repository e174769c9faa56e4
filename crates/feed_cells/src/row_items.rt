//! The items of one row from left to right: each cell behind the feeds of its place, then the last feeds.

ghost use Rattle.feed_cells.specs.RowFeeds.{laid};
ghost use Rattle.feed_cells.specs.declared.fed.Item.TheVariants.{Feed};
ghost use Rattle.std.specs.Prelude.{◌≡◌, ◌≤◌, ◌++◌, map, length, IfOk, OnOk};

use crate::fed::Item;
use limits::MOST_INSTANCES;
use list_facts::Lists;
use row_model::Seat;
use std::alloc::{AllocError, Global};

/// The seats of a row, each behind the feeds of its place, and the feeds behind the last. The one error is want of memory.
pub(crate) fn row_items(
    alloc: Global,
    seats: &[Seat],
    feeds: &Lists<u32>,
) -> Result<Vec<Item>, AllocError>
    requires short { length seats.now ≤ MOST_INSTANCES }
    ensures { IfOk result (λ v. v.items ≡ laid feeds.now 0 seats.now) }
{
    let mut items = Vec::new(alloc);
    let mut place = 0;
    let mut rest = seats;
    while let Some((seat, after)) = rest.split_first() {
        push_feeds(&mut items, feeds.at(place))?;
        items.push(Item::Cell(*seat))?;
        place += 1;
        rest = after;
    }
    push_feeds(&mut items, feeds.at(place))?;
    items.shrink_to_fit();
    Ok(items)
}

// Puts the feeds of these nets behind the items of a row.
fn push_feeds(items: &mut Vec<Item>, nets: &[u32]) -> Result<(), AllocError>
    ensures { OnOk result (items.new.items ≡ items.old.items ++ map Feed nets.now) }
{
    let mut rest = nets;
    while let Some((net, after)) = rest.split_first() {
        items.push(Item::Feed(*net))?;
        rest = after;
    }
    Ok(())
}
