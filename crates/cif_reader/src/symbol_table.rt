//! The symbols whose definitions have ended, in their order, with an index by number.

ghost use Rattle.cif_reader.specs.Table.{IsKeptBehind};
ghost use Rattle.cif_reader.specs.Tabled.{table_with};
ghost use Rattle.std.specs.Prelude.{◌≡◌, [], OnOk};

use crate::places::{Places, enter};
use crate::table::Kept;
use std::alloc::{AllocError, Global};
use std::marker::Model;

/// The symbols whose definitions have ended, as they are kept, with their places by their numbers. Contracts see the symbols and
/// their depths.
#[derive(Debug, Drop)]
pub(crate) struct SymbolTable {
    pub(crate) kept: Vec<Kept>,
    pub(crate) places: Places,
}

impl Model for SymbolTable {
    ghost use Rattle.cif_reader.specs.Tabled.{Tabled};

    ghost Value = { Tabled };

    ghost use Rattle.cif_reader.specs.SymbolTables.{tabled_in, AreTabled};

    ghost view = { tabled_in };

    ghost invariant = { AreTabled };
}

impl SymbolTable {
    /// A table without symbols.
    pub(crate) fn new(alloc: Global) -> SymbolTable
        ensures { result ≡ record { symbols = []; depths = [] } }
    {
        SymbolTable {
            kept: Vec::new(alloc),
            places: Places::new(alloc),
        }
    }

    /// Puts a symbol behind the others.
    pub(crate) fn push(&mut self, kept: Kept) -> Result<(), AllocError>
        requires { IsKeptBehind self.old.symbols kept }
        ensures { OnOk result (self.new ≡ table_with self.old kept) }
    {
        let number = kept.number;
        let place = self.kept.len();
        self.kept.push(kept)?;
        match enter(&mut self.places, number, place) {
            Ok(()) => Ok(()),
            Err(error) => {
                self.kept.pop();
                Err(error)
            }
        }
    }
}
