//! The columns of a pin in its cell: of its first position, and of the first ones on the lower and upper edge.

ghost use Rattle.row_model.specs.PinColumns.{columns_there, kind_columns, of_terminal, pin_columns, table_there, terminal_columns};
ghost use Rattle.row_model.specs.Stands.{column_in, is_on, positions_of};
ghost use Rattle.design_model.specs.declared.design.Position.{Position as Place};
ghost use Rattle.std.specs.List.{find};
ghost use Rattle.design_model.specs.declared.design.Inst.{Inst};
ghost use Rattle.std.specs.Option.{option_map};
ghost use Rattle.std.specs.Prelude.{◌≡◌, ◌==◌, ◌&&◌, ◌<◌, ℕ, Some, map, slice_get, IfOk};

use crate::widths::kind_of;
use design_model::{CellKind, Design, Pin, Position};
use geom_core::Items;
use list_facts::Lists;
use std::alloc::{AllocError, Global};
use std::marker::Model;

/// The columns of a pin in its cell, counted from the left side of the cell as it is drawn: that of its first position, that of its first one on the
/// lower edge, and that of its first one on the upper edge, where it has such positions.
#[derive(Clone, Copy, Debug, PartialEq, Eq)]
pub struct PinColumns {
    pub first: Option<u32>,
    pub bottom: Option<u32>,
    pub top: Option<u32>,
}

// A terminal without positions.
const NOWHERE: PinColumns = PinColumns {
    first: None,
    bottom: None,
    top: None,
};

/// The columns of a pin in its cell. Takes no memory, and steps as the number of positions of the cell.
pub(crate) fn pin_columns(design: &Design, pin: Pin) -> PinColumns
    ensures { result ≡ pin_columns design.now pin }
{
    terminal_columns(positions_of(design, pin.instance), pin.terminal as usize)
}

// The columns of a terminal among positions.
fn terminal_columns(positions: &[Position], terminal: usize) -> PinColumns
    ensures { result ≡ terminal_columns positions.now terminal }
{
    PinColumns {
        first: first_column(positions, terminal),
        bottom: edge_column(positions, terminal, false),
        top: edge_column(positions, terminal, true),
    }
}

// The column of a terminal's first position.
fn first_column(positions: &[Position], terminal: usize) -> Option<u32>
    ensures { result ≡ column_in (find (λ (a : Place). a.terminal == terminal) positions.now) }
{
    positions
        .iter()
        .find(|a| a.terminal as usize == terminal)
        .map(|a| a.column)
}

// The column of its first position on an edge, the upper where `top` holds.
fn edge_column(positions: &[Position], terminal: usize, top: bool) -> Option<u32>
    ensures { result ≡ column_in (find (λ (a : Place). a.terminal == terminal && is_on top a) positions.now) }
{
    positions
        .iter()
        .find(|a| a.terminal as usize == terminal && is_on(top, **a))
        .map(|a| a.column)
}

// Whether a position is on an edge.
fn is_on(top: bool, position: Position) -> bool
    ensures { result ≡ is_on top position }
{
    if top { position.top } else { !position.top }
}

// The number of an instance's kind, if there is such an instance.
fn kind_number(design: &Design, instance: u32) -> Option<u32>
    ensures { result ≡ option_map (λ (i : Inst). i.kind) (slice_get design.now.instances instance) }
{
    Some(design.instances.items().get(instance as usize)?.kind)
}

// The table of a kind, which is empty where there is none.
fn table_there<'t>(tables: &'t [Items<PinColumns>], kind: u32) -> &'t [PinColumns]
    ensures { result.now ≡ table_there (slice_get tables.now kind) }
{
    match tables.get(kind as usize) {
        Some(table) => table.items(),
        None => &[],
    }
}

// The columns of a terminal in a table.
fn columns_there(table: &[PinColumns], terminal: u32) -> PinColumns
    ensures { result ≡ columns_there (slice_get table.now terminal) }
{
    match table.get(terminal as usize) {
        Some(columns) => *columns,
        None => NOWHERE,
    }
}

// A table for each kind, of the columns of its terminals.
fn kind_tables(alloc: Global, kinds: &[CellKind]) -> Result<Vec<Items<PinColumns>>, AllocError>
    ensures { IfOk result (λ v. v.items ≡ map kind_columns kinds.now) }
{
    let mut tables = Vec::new(alloc);
    let mut rest = kinds;
    while let Some((kind, after)) = rest.split_first() {
        tables.push(kind_columns(alloc, kind)?)?;
        rest = after;
    }
    Ok(tables)
}

// The columns of each terminal of a kind.
fn kind_columns(alloc: Global, kind: &CellKind) -> Result<Items<PinColumns>, AllocError>
    ensures { IfOk result (λ table. table ≡ kind_columns kind.now) }
{
    let count = kind.terminals.items().len();
    let lists = positions_by_terminal(alloc, count, kind.positions.items())?;
    let mut table = Vec::new(alloc);
    for n in 0..count {
        table.push(terminal_columns(lists.at(n), n))?;
    }
    Ok(Items::new(table))
}

// The positions of each of so many terminals.
fn positions_by_terminal(
    alloc: Global,
    count: usize,
    positions: &[Position],
) -> Result<Lists<Position>, AllocError>
    ensures { IfOk result (λ lists. (t : ℕ) → t < count → slice_get lists t ≡ Some (of_terminal t positions.now)) }
{
    let mut lists = Lists::new(alloc, count)?;
    let mut rest = positions;
    while let Some((position, after)) = rest.split_first() {
        lists.push(position.terminal as usize, *position)?;
        rest = after;
    }
    Ok(lists)
}

// The positions of an instance's kind, in order.
fn positions_of<'d>(design: &'d Design, instance: u32) -> &'d [Position]
    ensures { result.now ≡ positions_of design.now instance }
{
    match kind_of(design, instance) {
        Some(kind) => kind.positions.items(),
        None => &[],
    }
}

/// The columns of the terminals of each kind of a design, by which those of a pin are known in one step. Contracts see the design.
#[derive(Drop)]
pub struct ColumnTables<'d> {
    design: &'d Design,
    tables: Vec<Items<PinColumns>>,
}

impl<'d> Model for ColumnTables<'d> {
    ghost use Rattle.design_model.specs.Netlist.{Netlist};

    ghost Value = { Netlist };

    ghost use Rattle.row_model.specs.ColumnTablesView.{design_in, AreTables};

    ghost view = { design_in };

    ghost invariant = { AreTables };
}

impl<'d> ColumnTables<'d> {
    ghost use Rattle.design_model.specs.Netlist.{IsNetlist};
    ghost use Rattle.row_model.specs.PinColumns.{pin_columns};
    ghost use Rattle.std.specs.Prelude.{◌≡◌, IfOk};

    /// The columns of the kinds of a design. The one error is want of memory; steps as the number of terminals and of positions.
    pub fn new(alloc: Global, design: &'d Design) -> Result<ColumnTables<'d>, AllocError>
        ensures { IfOk result (λ tables. tables ≡ design.entry.now) }
    {
        let tables = kind_tables(alloc, design.kinds.items())?;
        Ok(ColumnTables { design, tables })
    }

    /// The design.
    pub fn design(&self) -> &'d Design
        ensures is { result.now ≡ self.now }
        ensures good { IsNetlist self.now }
    {
        self.design
    }

    /// The columns of a pin. Takes no memory.
    #[tactic(auto, using(crate::proofs::CellColumns::by_tables))]
    pub fn of(&self, pin: Pin) -> PinColumns
        ensures { result ≡ pin_columns self.now pin }
    {
        match kind_number(self.design, pin.instance) {
            Some(kind) => columns_there(table_there(self.tables.as_slice(), kind), pin.terminal),
            None => NOWHERE,
        }
    }
}
