//! The channels between rows with feeds, from the lowest up, with the net of each entry at both edges.

ghost use Rattle.feed_cells.specs.Fed.{IsFed, cells_in};
ghost use Rattle.feed_cells.specs.Placement.{placement_of};
ghost use Rattle.pin_assign.specs.ChannelTables.{AreTablesFor};
ghost use Rattle.pin_assign.specs.Tabled.{AreTabled, of_instance};
ghost use Rattle.pin_assign.specs.Tables.{table_of, tables_of};
ghost use Rattle.std.specs.Prelude.{◌≡◌, ◌<◌, ◌≤◌, ℕ, Some, slice_get, IfOk};

use crate::entries::row_entries;
use crate::rows_beside::{items_at, items_below};
use channel_model::Channel;
use design_model::Design;
use feed_cells::{FedRows, PlacedPin, Placement};
use limits::MOST_COLUMNS;
use list_facts::Lists;
use std::alloc::{AllocError, Global};

/// The channels between rows with their feeds, from the lowest up, one more than there are rows, by where the pins of the design stand: which net enters which
/// channel in which column. Rows that
/// are within the limit of the grid are at most 4,000,000 columns wide. Each net of a channel has two entries in it, or more. The one error is want of memory.
pub fn channels(
    alloc: Global,
    design: &Design,
    fed: &FedRows,
    placement: &Placement,
) -> Result<Vec<Channel>, AllocError>
    requires fed { IsFed design.now fed.now }
    requires placement { placement.now ≡ placement_of design.now (cells_in fed.now.rows) }
    requires narrow { fed.now.width ≤ MOST_COLUMNS }
    ensures is { IfOk result (λ v. v.items ≡ tables_of design.now fed.now) }
    ensures tables { IfOk result (λ v. AreTablesFor fed.now v.items) }
{
    // The bounds of the design's type are known once a field is read.
    let _pins = &design.pins;
    let table = table_of_pins(alloc, design, fed, placement)?;
    let mut channels = Vec::new(alloc);
    channels.push(channel_at(alloc, design, fed, &table, 0)?)?;
    let mut channel = 1;
    let mut rest = fed.rows.items();
    while let Some((_, after)) = rest.split_first() {
        channels.push(channel_at(alloc, design, fed, &table, channel)?)?;
        channel += 1;
        rest = after;
    }
    Ok(channels)
}

// The pins of each instance.
#[tactic(auto, unfolding(feed_cells::specs::Placement::placement_of))]
fn table_of_pins(
    alloc: Global,
    design: &Design,
    fed: &FedRows,
    placement: &Placement,
) -> Result<Lists<PlacedPin>, AllocError>
    requires { placement.now ≡ placement_of design.now (cells_in fed.now.rows) }
    ensures { IfOk result (λ table. AreTabled design.now (cells_in fed.now.rows) table) }
{
    // The bounds of the design's type are known once a field is read.
    let _pins = &design.pins;
    let count = design.instances.items().len();
    pins_by_instance(alloc, count, placement.pins.items())
}

// The pins of each of so many instances, by the numbers of the instances.
fn pins_by_instance(
    alloc: Global,
    count: usize,
    pins: &[PlacedPin],
) -> Result<Lists<PlacedPin>, AllocError>
    ensures { IfOk result (λ table. (i : ℕ) → i < count → slice_get table i ≡ Some (of_instance i pins.now)) }
{
    let mut table = Lists::new(alloc, count)?;
    let mut rest = pins;
    while let Some((pin, after)) = rest.split_first() {
        table.push(pin.place.pin.instance as usize, *pin)?;
        rest = after;
    }
    Ok(table)
}

// The channel with this number, by a table of the instances' pins.
#[tactic(auto, using(crate::proofs::TabledEntries::made_laws))]
fn channel_at(
    alloc: Global,
    design: &Design,
    fed: &FedRows,
    table: &Lists<PlacedPin>,
    channel: u32,
) -> Result<Channel, AllocError>
    requires fed { IsFed design.now fed.now }
    requires narrow { fed.now.width ≤ MOST_COLUMNS }
    requires tabled { AreTabled design.now (cells_in fed.now.rows) table.now }
    ensures { IfOk result (λ c. c ≡ table_of design.now fed.now channel) }
{
    let _pins = &design.pins;
    let rows = fed.rows.items();
    let width = fed.width as usize;
    let over = items_at(rows, channel);
    let under = items_below(rows, channel);
    let top = row_entries(alloc, design, table, over, false, channel, width)?;
    let bottom = row_entries(alloc, design, table, under, true, channel, width)?;
    Ok(Channel::from_paired(top, bottom))
}
