//! The items of the row with a number, and of the row below a channel.

ghost use Rattle.list_facts.specs.Lists.{list_there};
ghost use Rattle.pin_assign.specs.Tables.{row_below};
ghost use Rattle.std.specs.Prelude.{◌≡◌, slice_get};

use feed_cells::Item;
use geom_core::Items;

/// The items of the row with this number, none where there is no such row.
pub(crate) fn items_at<'r>(rows: &'r [Items<Item>], row: u32) -> &'r [Item]
    ensures { result.now ≡ list_there (slice_get rows.now row) }
{
    match rows.get(row as usize) {
        Some(items) => items.items(),
        None => &[],
    }
}

/// The items of the row below the channel with this number, none for channel 0.
pub(crate) fn items_below<'r>(rows: &'r [Items<Item>], channel: u32) -> &'r [Item]
    ensures { result.now ≡ list_there (row_below rows.now channel) }
{
    if channel == 0 {
        return &[];
    }
    items_at(rows, channel - 1)
}
