//! Where pins stand in rows without feeds: the row, the column, and the channels that they touch.

ghost use Rattle.row_model.specs.PinPlaces.{edge_of, highest_of, lowest_of, passes_row, pin_place, with_columns};
ghost use Rattle.row_model.specs.Rows.{ArePlaced};
ghost use Rattle.row_model.specs.StandTables.{AreStands, tabled_stand};
ghost use Rattle.row_model.specs.Stands.{column_at, column_of, turned_column};
ghost use Rattle.row_model.specs.Widths.{columns_of};
ghost use Rattle.std.specs.Option.{option_map};
ghost use Rattle.std.specs.Prelude.{◌≡◌, ◌<◌, Some, length, map, slice_get, IfOk};

use crate::cell_columns::{ColumnTables, PinColumns, pin_columns};
use crate::placed::PlacedRows;
use crate::rows::Rows;
use crate::stands::{Stand, stand_of, stands_of};
use crate::widths::columns_of;
use design_model::{Design, Pin};
use std::alloc::{AllocError, Global};

/// Where a pin stands in rows without feeds: the row of its cell, the columns in the cell, as it is drawn, of the pin's first positions on the lower and on the upper
/// edge, where it has such positions, and the column of its first position in the row.
#[derive(Clone, Copy, Debug, Drop)]
pub struct PinPlace {
    pub pin: Pin,
    pub row: u16,
    pub bottom: Option<u32>,
    pub top: Option<u32>,
    pub column: u64,
}

impl PinPlace {
    /// The lowest channel that the pin touches: channel r lies below row r.
    pub fn lowest(self) -> u32
        ensures { result ≡ lowest_of self }
    {
        let row = u32::from(self.row);
        if self.bottom.is_some() { row } else { row + 1 }
    }

    /// The highest channel that the pin touches.
    pub fn highest(self) -> u32
        ensures { result ≡ highest_of self }
    {
        let row = u32::from(self.row);
        if self.top.is_some() { row + 1 } else { row }
    }

    /// Whether the pin passes its row: it has positions on both edges.
    pub fn passes_row(self) -> bool
        ensures { result ≡ passes_row self }
    {
        self.bottom.is_some() && self.top.is_some()
    }

    /// The column of the pin in its cell on an edge, the upper where `top` holds.
    pub fn edge(self, top: bool) -> Option<u32>
        ensures { result ≡ edge_of top self }
    {
        if top { self.top } else { self.bottom }
    }
}

/// The column of a cell's position in its cell as it stands, counted from the left, where the cell of so many columns may be mirrored.
pub fn turned_column(mirror: bool, columns: u32, column: u32) -> u32
    ensures { result ≡ turned_column mirror columns column }
{
    if mirror {
        columns.saturating_sub(1).saturating_sub(column)
    } else {
        column
    }
}

// The column in its row of the first position of a pin whose cell stands there.
fn column_at(design: &Design, stand: Stand, pin: Pin, first: Option<u32>) -> u64
    ensures { result ≡ column_at (Some stand) (columns_of design.now pin.instance) first }
{
    let Some(column) = first else {
        return stand.left;
    };
    let columns = columns_of(design, pin.instance);
    stand.left + u64::from(turned_column(stand.mirror, columns, column))
}

// Where a pin with these columns in its cell stands, where its cell stands there.
fn with_columns(design: &Design, stand: Option<Stand>, pin: Pin, columns: PinColumns) -> PinPlace
    ensures { result ≡ with_columns design.now stand pin columns }
{
    let (row, column) = match stand {
        Some(stand) => (stand.row, column_at(design, stand, pin, columns.first)),
        None => (0, 0),
    };
    PinPlace {
        pin,
        row,
        bottom: columns.bottom,
        top: columns.top,
        column,
    }
}

/// Where a pin stands. Takes no memory, and steps as the number of cells and of the positions of its cell.
#[tactic(auto, unfolding(crate::specs::PinPlaces::pin_place_at, crate::specs::PinPlaces::pin_column))]
pub fn pin_place(design: &Design, rows: &Rows, pin: Pin) -> PinPlace
    requires { ArePlaced design.now rows.now }
    ensures { result ≡ pin_place design.now rows.now pin }
{
    let placed = PlacedRows::new(design, rows);
    let stand = stand_of(&placed, pin.instance);
    with_columns(design, stand, pin, pin_columns(design, pin))
}

/// The column of a pin in its row: that of its terminal's first position, in its cell as it stands, mirrored or upright. Takes
/// no memory.
#[tactic(auto, unfolding(crate::specs::Stands::column_of, crate::specs::PinPlaces::pin_place_at, crate::specs::PinPlaces::pin_column))]
pub fn column_of(design: &Design, rows: &Rows, pin: u32) -> u64
    requires pin { pin < length design.now.pins }
    requires placed { ArePlaced design.now rows.now }
    ensures { option_map (λ p. column_of design.now rows.now p) (slice_get design.now.pins pin) ≡ Some result }
{
    let this_pin = design.pins.items()[pin as usize];
    pin_place(design, rows, this_pin).column
}

/// Where each pin of a design stands, in the order of the pins. The one error is want of memory; steps as the number of pins, positions and cells.
pub fn pin_places(alloc: Global, design: &Design, rows: &Rows) -> Result<Vec<PinPlace>, AllocError>
    requires { ArePlaced design.now rows.now }
    ensures { IfOk result (λ v. v.items ≡ map (pin_place design.now rows.now) design.now.pins) }
{
    let placed = PlacedRows::new(design, rows);
    let stands = stands_of(alloc, &placed)?;
    let tables = ColumnTables::new(alloc, design)?;
    tabled_places(alloc, &placed, stands.as_slice(), &tables)
}

// Where each pin stands, by the stands of the instances and the columns of the kinds' terminals.
#[tactic(auto, unfolding(crate::specs::PinPlaces::pin_place_at, crate::specs::PinPlaces::pin_column))]
fn tabled_places(
    alloc: Global,
    placed: &PlacedRows,
    stands: &[Option<Stand>],
    tables: &ColumnTables,
) -> Result<Vec<PinPlace>, AllocError>
    requires stands { AreStands placed.now.design placed.now.rows stands.now }
    requires tables { tables.now ≡ placed.now.design }
    ensures { IfOk result (λ v. v.items ≡ map (pin_place placed.now.design placed.now.rows) placed.now.design.pins) }
{
    let design = placed.design();
    let mut places = Vec::new(alloc);
    let mut rest = design.pins.items();
    while let Some((pin, after)) = rest.split_first() {
        let stand = tabled_stand(stands, pin.instance);
        places.push(with_columns(design, stand, *pin, tables.of(*pin)))?;
        rest = after;
    }
    Ok(places)
}

// The stand of an instance in a table, if it has one there.
fn tabled_stand(stands: &[Option<Stand>], instance: u32) -> Option<Stand>
    ensures { result ≡ tabled_stand stands.now instance }
{
    match stands.get(instance as usize) {
        Some(stand) => *stand,
        None => None,
    }
}
