//! The nets that a row enters into a channel over an edge, column by column, from its cells' pins and its feeds.

ghost use Rattle.pin_assign.specs.Tabled.{enters_as, laid, laid_entries, tabled_entries};
ghost use Rattle.pin_assign.specs.Tables.{padded};
ghost use Rattle.std.specs.List.{flat_map};
ghost use Rattle.std.specs.Option.{option_map};
ghost use Rattle.std.specs.Prelude.{◌≡◌, ◌++◌, ℕ, fold, slice_get, IfOk, OnOk};

use design_model::Design;
use feed_cells::{Crossing, Item, PlacedPin};
use list_facts::Lists;
use row_model::{columns_of, turned_column};
use std::alloc::{AllocError, Global};

/// The entries of a row into a channel over an edge, the upper where `top` holds, padded to so many columns, by a table of the instances' pins. The one
/// error is want of memory. Takes steps as the number of columns and of pins.
#[tactic(auto, unfolding(crate::specs::Tabled::tabled_entries))]
pub(crate) fn row_entries(
    alloc: Global,
    design: &Design,
    table: &Lists<PlacedPin>,
    items: &[Item],
    top: bool,
    channel: u32,
    width: usize,
) -> Result<Vec<u32>, AllocError>
    ensures { IfOk result (λ v. v.items ≡ padded width (flat_map (tabled_entries design.now table.now top channel) items.now)) }
{
    let mut entries = Vec::new(alloc);
    let mut rest = items;
    while let Some((item, after)) = rest.split_first() {
        add_item(alloc, &mut entries, design, table, *item, top, channel)?;
        rest = after;
    }
    let empty = vec![in alloc; 0; width.saturating_sub(entries.len())]?;
    entries.extend_from_slice(empty.as_slice())?;
    Ok(entries)
}

// Puts the entries of an item behind others.
#[tactic(auto, unfolding(crate::specs::Tabled::tabled_entries))]
fn add_item(
    alloc: Global,
    entries: &mut Vec<u32>,
    design: &Design,
    table: &Lists<PlacedPin>,
    item: Item,
    top: bool,
    channel: u32,
) -> Result<(), AllocError>
    ensures { OnOk result (entries.new.items ≡ entries.old.items ++ tabled_entries design.now table.now top channel item) }
{
    match item {
        Item::Cell(seat) => {
            let pins = table.at(seat.instance as usize);
            let columns = columns_of(design, seat.instance);
            let cell = laid_entries(alloc, seat.mirror, columns, top, channel, pins)?;
            entries.extend_from_slice(cell.as_slice())?;
        }
        Item::Feed(net) => entries.push(net)?,
    }
    Ok(())
}

// The entries of a cell of so many columns, which may be mirrored, over an edge into a channel.
#[tactic(auto, unfolding(crate::specs::Tabled::laid_entries))]
fn laid_entries(
    alloc: Global,
    mirror: bool,
    columns: u32,
    top: bool,
    channel: u32,
    pins: &[PlacedPin],
) -> Result<Vec<u32>, AllocError>
    ensures { IfOk result (λ v. v.items ≡ laid_entries mirror columns top channel pins.now) }
{
    let mut entries = vec![in alloc; 0; columns as usize]?;
    lay_all(entries.as_mut_slice(), mirror, columns, top, channel, pins);
    Ok(entries)
}

// Lays the entries of pins, each into a column without one.
fn lay_all(
    entries: &mut [u32],
    mirror: bool,
    columns: u32,
    top: bool,
    channel: u32,
    pins: &[PlacedPin],
)
    ensures { (k : ℕ) → slice_get entries.new k ≡ option_map (λ (net : ℕ). fold (laid mirror columns top channel k) net pins.now) (slice_get entries.old k) }
{
    let mut rest = pins;
    while let Some((pin, after)) = rest.split_first() {
        lay(entries, mirror, columns, top, channel, *pin);
        rest = after;
    }
}

// Lays the entry of a pin, if it has one and its column has none.
fn lay(entries: &mut [u32], mirror: bool, columns: u32, top: bool, channel: u32, pin: PlacedPin)
    ensures { (k : ℕ) → slice_get entries.new k ≡ option_map (λ (net : ℕ). laid mirror columns top channel k net pin) (slice_get entries.old k) }
{
    if !enters(pin, channel) {
        return;
    }
    let Some(own) = pin.place.edge(top) else {
        return;
    };
    let column = turned_column(mirror, columns, own) as usize;
    if column < entries.len() && entries[column] == 0 {
        entries[column] = pin.place.pin.net;
    }
}

// Whether a pin enters a channel.
fn enters(pin: PlacedPin, channel: u32) -> bool
    ensures { result ≡ enters_as pin.crossing pin channel }
{
    match pin.crossing {
        Crossing::Alone => false,
        Crossing::One(only) => channel == only,
        Crossing::Many { lo, .. } => {
            let row = u32::from(pin.place.row);
            channel == pin.place.lowest().max(lo)
                || pin.through && (channel == row || channel == row + 1)
        }
    }
}
