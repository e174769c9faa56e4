//! Mirrored cells: where their pins stand, and which channels' tables they enter. Nothing in the program mirrors cells yet.

ghost use Rattle.feed_cells.specs.Fed.{IsFed, cells_in};
ghost use Rattle.feed_cells.specs.Placement.{placement_of};
ghost use Rattle.row_model.specs.Rows.{ArePlaced};
ghost use Rattle.std.specs.Prelude.{◌≡◌, ◌<◌, ◌≤◌};

use crate::support::{designed_with, rows_of};
use channel_model::Channel;
use design_model::Design;
use feed_cells::{FedRows, Placement, insert_feeds, place};
use pin_assign::channels;
use row_model::{PinPlace, Rows, pin_places};
use std::alloc::Global;
use std::test::Fail;

/// The row, the columns in the cell as it is drawn of the first positions on the lower and the upper edge, and the column in the row, of a pin.
type Place = (u16, Option<u32>, Option<u32>, u64);

/// Whether pins stand there.
fn are_at(places: &[PinPlace], wanted: &[Place]) -> bool {
    for (place, (row, bottom, top, column)) in places.iter().zip(wanted) {
        if place.row != *row
            || place.bottom != *bottom
            || place.top != *top
            || place.column != *column
        {
            return false;
        }
    }
    places.len() == wanted.len()
}

/// Whether the pins of a design stand there in rows.
fn are_pins(alloc: Global, design: &Design, rows: &Rows, wanted: &[Place]) -> Result<bool, Fail>
    requires { ArePlaced design.now rows.now }
{
    let places = pin_places(alloc, design, rows)?;
    Ok(are_at(places.as_slice(), wanted))
}

/// Whether they stand there in so many rows of mirrored cells.
fn are_pins_in(alloc: Global, design: &Design, count: u32, wanted: &[Place]) -> Result<bool, Fail>
    requires some { 0 < count }
    requires few { count ≤ 512 }
{
    let rows = rows_of(alloc, design, count, true)?;
    are_pins(alloc, design, &rows, wanted)
}

/// The same of these calls.
fn have_pins(alloc: Global, calls: &str, count: u32, wanted: &[Place]) -> Result<bool, Fail>
    requires some { 0 < count }
    requires few { count ≤ 512 }
{
    let design = designed_with(alloc, calls)?;
    are_pins_in(alloc, &design, count, wanted)
}

/// Where pins stand in a row: position k of the four columns of LEAN stands at 3 - k, `a` below at 3, `y` above at 0, and `b` below at 2 of 4, so at 1.
const IN_ONE: [Place; 4] = [
    (0, Some(0), Some(1), 3),
    (0, None, Some(3), 0),
    (0, Some(2), None, 1),
    (0, Some(0), None, 4),
];

/// The same in two rows: LEAN alone is as wide as the 5 columns divided by 2, rounded up.
const IN_TWO: [Place; 4] = [
    (0, Some(0), Some(1), 3),
    (0, None, Some(3), 0),
    (0, Some(2), None, 1),
    (1, Some(0), None, 0),
];

#[test]
fn pins_of_mirrored_cells_are_turned_over(rt: HostRuntime) -> Result<(), Fail> {
    let calls = "u LEAN n k p; v INV n;";
    assert!(rt; have_pins(rt.alloc(), calls, 1, &IN_ONE)?);
    assert!(rt; have_pins(rt.alloc(), calls, 2, &IN_TWO)?);
    Ok(())
}

/// The nets at the upper and at the lower edge of a channel.
type Table = (&'static [u32], &'static [u32]);

/// Whether channels have these nets.
fn are_channels(channels: &[Channel], wanted: &[Table]) -> bool {
    if channels.len() != wanted.len() {
        return false;
    }
    for (channel, (top, bottom)) in channels.iter().zip(wanted) {
        if channel.top.items() != *top || channel.bottom.items() != *bottom {
            return false;
        }
    }
    true
}

/// Whether the channels of rows with feeds have these nets.
fn has_channels(
    alloc: Global,
    design: &Design,
    fed: &FedRows,
    placement: &Placement,
    wanted: &[Table],
) -> Result<bool, Fail>
    requires fed { IsFed design.now fed.now }
    requires placement { placement.now ≡ placement_of design.now (cells_in fed.now.rows) }
{
    if fed.width > 4000000 {
        return Ok(false);
    }
    let made = channels(alloc, design, fed, placement)?;
    Ok(are_channels(made.as_slice(), wanted))
}

/// Whether the channels of rows have these nets, once the rows have their feeds.
fn have_channels(
    alloc: Global,
    design: &Design,
    rows: &Rows,
    placement: &Placement,
    wanted: &[Table],
) -> Result<bool, Fail>
    requires placed { ArePlaced design.now rows.now }
    requires placement { placement.now ≡ placement_of design.now rows.now }
{
    let fed = insert_feeds(alloc, design, rows, placement)?;
    has_channels(alloc, design, &fed, placement, wanted)
}

/// Whether those of placed rows do.
fn are_tables(alloc: Global, design: &Design, rows: &Rows, wanted: &[Table]) -> Result<bool, Fail>
    requires { ArePlaced design.now rows.now }
{
    let placement = place(alloc, design, rows)?;
    have_channels(alloc, design, rows, &placement, wanted)
}

/// Whether those of a design in one row of mirrored cells do.
fn has_tables(alloc: Global, design: &Design, wanted: &[Table]) -> Result<bool, Fail> {
    let rows = rows_of(alloc, design, 1, true)?;
    are_tables(alloc, design, &rows, wanted)
}

/// Whether those of these calls do.
fn is_tabled(alloc: Global, calls: &str, wanted: &[Table]) -> Result<bool, Fail> {
    let design = designed_with(alloc, calls)?;
    has_tables(alloc, &design, wanted)
}

/// n is net 1, y of the first cell net 2, and its b net 3: a at 3 and 4 + 3 and b at 1 and 4 + 1, all below; y at 0 and 4, above.
const TWO_LEAN: [Table; 2] = [
    (&[0, 3, 0, 1, 0, 3, 0, 1], &[0; 8]),
    (&[0; 8], &[2, 0, 0, 0, 2, 0, 0, 0]),
];

#[test]
fn mirrored_pins_enter_channels(rt: HostRuntime) -> Result<(), Fail> {
    assert!(rt; is_tabled(rt.alloc(), "u LEAN n k p; v LEAN n k p;", &TWO_LEAN)?);
    Ok(())
}

/// k leads from y of the first cell, at 0 above, to b of the third, at 8 + 1 below. Its middle is 4, so that its feed stands in column 4, before the second cell; were
/// the cells upright, it would be 6, and the feed would stand before the third. So n is at 3 and at 5 + 3; k at the feed and at 9 + 1.
const THREE_LEAN: [Table; 2] = [
    (&[0, 0, 0, 1, 2, 0, 0, 0, 1, 0, 2, 0, 0], &[0; 13]),
    (&[0; 13], &[2, 0, 0, 0, 2, 0, 0, 0, 0, 0, 0, 0, 0]),
];

#[test]
fn a_feed_stands_by_mirrored_pins(rt: HostRuntime) -> Result<(), Fail> {
    let calls = "u LEAN n k p; v LEAN n r s; w LEAN q t k;";
    assert!(rt; is_tabled(rt.alloc(), calls, &THREE_LEAN)?);
    Ok(())
}
