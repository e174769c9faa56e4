//! Where the pins of nets stand by a table of instances, and where those of an instance stand once that is put elsewhere.

ghost use Rattle.row_board.specs.NetPins.{offset_in, pin_column, pin_row};
ghost use Rattle.row_board.specs.PinPlaces.{instance_column, puts};
ghost use Rattle.row_board.specs.Standings.{standing_of};
ghost use Rattle.std.specs.List.{AllByRecursion};
ghost use Rattle.std.specs.Option.{option_map};
ghost use Rattle.std.specs.Prelude.{◌≡◌, ◌==◌, ◌<◌, ◌≤◌, ℕ, List, length, map, slice_get, if◌then◌else◌, IfOk};

use crate::net_pins::{InstancePin, NetPin};
use crate::spreads::Spreads;
use crate::standings::Standing;
use limits::MOST_PLACED_ROWS;
use std::alloc::{AllocError, Global};

/// Where an instance stands by a table, or at the lower left where that has none.
pub(crate) fn standing_of(standings: &[Standing], instance: u32) -> Standing
    ensures { result ≡ standing_of standings.now instance }
{
    match standings.get(instance as usize) {
        Some(standing) => *standing,
        None => Standing::lower_left(),
    }
}

// How far a pin is from the left side of its cell, which may be mirrored.
fn offset_in(pin: NetPin, mirror: bool) -> u32
    ensures { result ≡ offset_in pin mirror }
{
    if mirror { pin.mirrored } else { pin.upright }
}

// The column and the row of a pin by a table.
fn place_of(standings: &[Standing], pin: NetPin) -> (u64, u64)
    ensures column { result.0 ≡ pin_column standings.now pin }
    ensures row { result.1 ≡ pin_row standings.now pin }
    ensures far { result.0 ≤ 2004294967295 }
    ensures high { result.1 < MOST_PLACED_ROWS }
{
    let standing = standing_of(standings, pin.instance);
    let offset = offset_in(pin, standing.mirror);
    (standing.left + u64::from(offset), u64::from(standing.row))
}

/// The columns and the rows of pins by a table. The one error is want of memory; steps as the number of pins.
pub(crate) fn places_of(
    alloc: Global,
    pins: &[NetPin],
    standings: &[Standing],
) -> Result<(Vec<u64>, Vec<u64>), AllocError>
    ensures columns { IfOk result (λ places. places.0.items ≡ map (pin_column standings.now) pins.now) }
    ensures rows { IfOk result (λ places. places.1.items ≡ map (pin_row standings.now) pins.now) }
    ensures far { IfOk result (λ places. AllByRecursion (λ (n : ℕ). n ≤ 2004294967295) places.0.items) }
    ensures high { IfOk result (λ places. AllByRecursion (λ (n : ℕ). n ≤ 513) places.1.items) }
{
    let mut columns = Vec::new(alloc);
    let mut rows = Vec::new(alloc);
    let mut rest = pins;
    while let Some((pin, after)) = rest.split_first() {
        let (column, row) = place_of(standings, *pin);
        columns.push(column)?;
        rows.push(row)?;
        rest = after;
    }
    Ok((columns, rows))
}

/// The column of a pin whose instance stands so.
pub(crate) fn column_of(standing: Standing, pin: InstancePin) -> u64
    ensures is { result ≡ instance_column standing pin }
    ensures far { result ≤ 2004294967295 }
{
    let offset = if standing.mirror {
        pin.mirrored
    } else {
        pin.upright
    };
    standing.left + u64::from(offset)
}

/// Puts the pins of an instance to their columns where that now stands so. Takes no memory.
pub(crate) fn put_columns(columns: &mut Spreads, pins: &[InstancePin], standing: Standing)
    requires { columns.old.most ≡ 2004294967295 }
    ensures most { columns.new.most ≡ columns.old.most }
    ensures lists { (net : ℕ) → slice_get columns.new.lists net ≡ option_map (puts (instance_column standing) pins.now net) (slice_get columns.old.lists net) }
{
    let mut rest = pins;
    while let Some((pin, after)) = rest.split_first() {
        columns.set(
            pin.net as usize,
            pin.place as usize,
            column_of(standing, *pin),
        );
        rest = after;
    }
}

/// Puts the pins of an instance to another row. Takes no memory.
pub(crate) fn put_rows(rows: &mut Spreads, pins: &[InstancePin], was: u16, row: u16)
    requires most { rows.old.most ≡ 513 }
    requires low { row < MOST_PLACED_ROWS }
    ensures most { rows.new.most ≡ rows.old.most }
    ensures lists { (net : ℕ) → slice_get rows.new.lists net ≡ option_map (λ (numbers : List ℕ). if was == row then numbers else puts (λ (p : InstancePin). row) pins.now net numbers) (slice_get rows.old.lists net) }
{
    if was == row {
        return;
    }
    let mut rest = pins;
    while let Some((pin, after)) = rest.split_first() {
        rows.set(pin.net as usize, pin.place as usize, u64::from(row));
        rest = after;
    }
}
