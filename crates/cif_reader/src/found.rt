//! A symbol found by its number: its shapes copied under a turn, and the first coordinate of these that is too far.

ghost use Rattle.cif_reader.specs.Limits.{coordinates_of, first_far};
ghost use Rattle.cif_reader.specs.Table.{symbol_at};
ghost use Rattle.cif_reader.specs.Tabled.{IsKeptAt, IsPlaceOf};
ghost use Rattle.cif_reader.specs.Within.{IsShapeWithin};
ghost use Rattle.cif_text.specs.Symbols.{moved_shapes, symbol_of};
ghost use Rattle.std.specs.List.{AllByRecursion};
ghost use Rattle.std.specs.Prelude.{◌≡◌, ◌<◌, ◌++◌, None, length, IfNone, IfOk, IfSome, OnOk};

use crate::bounds::{are_near, moved_bounds};
use crate::limit_passing::first_far;
use crate::near_turn::NearTurn;
use crate::places::place_of;
use crate::symbol_table::SymbolTable;
use crate::table::{Kept, drawn, push_moved};
use geom_core::Shape;
use std::alloc::{AllocError, Global};

/// A symbol of a table, by its place there.
#[derive(Clone, Copy)]
pub(crate) struct Found<'t> {
    pub(crate) table: &'t SymbolTable,
    pub(crate) place: usize,
    ghost below: { place < length table.now.symbols },
}

impl<'t> Found<'t> {
    /// The symbol of this number, where there is one.
    pub(crate) fn by_number(table: &'t SymbolTable, n: u64) -> Option<Found<'t>>
        ensures none { IfNone result (symbol_of n table.now.symbols ≡ None) }
        ensures same { IfSome result (λ found. found.table.now ≡ table.now) }
        ensures place { IfSome result (λ found. IsPlaceOf n table.now found.place) }
    {
        let Some(place) = place_of(&table.places, n) else {
            return None;
        };
        Some(Found { table, place })
    }

    /// What is kept of the symbol.
    pub(crate) fn kept(&self) -> &'t Kept
        ensures { IsKeptAt self.now.table.now self.now.place result.now }
    {
        let table = self.table;
        &table.kept[self.place]
    }

    fn shapes(&self, alloc: Global) -> Result<Vec<Shape>, AllocError>
        ensures is { IfOk result (λ shapes. shapes.items ≡ (symbol_at self.now.table.now.symbols self.now.place).shapes) }
        ensures near { IfOk result (λ shapes. AllByRecursion IsShapeWithin shapes.items) }
    {
        let table = self.table;
        let place = self.place;
        drawn(
            alloc,
            &table.kept[..place],
            table.kept[place].items.as_slice(),
        )
    }

    /// Puts the shapes of the symbol under a turn behind others.
    pub(crate) fn push_copy(
        &self,
        alloc: Global,
        turn: &NearTurn,
        into: &mut Vec<Shape>,
    ) -> Result<(), AllocError>
        ensures { OnOk result (into.new.items ≡ into.old.items
            ++ moved_shapes turn.now (symbol_at self.now.table.now.symbols self.now.place).shapes) }
    {
        let shapes = self.shapes(alloc)?;
        push_moved(into, shapes.as_slice(), turn)
    }

    /// The first coordinate of the symbol's shapes under a turn that is too far. They are drawn only where the rectangle around them
    /// reaches too far.
    pub(crate) fn far_copy(
        &self,
        alloc: Global,
        turn: &NearTurn,
    ) -> Result<Option<i128>, AllocError>
        ensures { IfOk result (λ far. far ≡ first_far (coordinates_of
            (moved_shapes turn.now (symbol_at self.now.table.now.symbols self.now.place).shapes))) }
    {
        if are_near(moved_bounds(self.kept().bounds, turn)) {
            return Ok(None);
        }
        let mut shapes = Vec::new(alloc);
        self.push_copy(alloc, turn, &mut shapes)?;
        Ok(first_far(shapes.as_slice()))
    }
}
