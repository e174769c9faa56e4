//! A module with its number in the file.

use std::marker::Model;
use yal_reader::Module;

/// A module with its number in the file, which contracts see as a pair.
#[derive(Drop)]
pub(crate) struct Numbered<'a> {
    pub(crate) number: u32,
    pub(crate) module: &'a Module,
}

impl<'a> Model for Numbered<'a> {
    ghost use Rattle.std.specs.Prelude.{ℕ};
    ghost use Rattle.yal_reader.specs.declared.file.Module.{Module};

    ghost Value = { ℕ × Module };

    ghost use Rattle.netlist_core.specs.NumberedView.{numbered, IsNumbered};

    ghost view = { numbered };

    ghost invariant = { IsNumbered };
}

impl<'a> Numbered<'a> {
    ghost use Rattle.std.specs.List.{AllByRecursion};
    ghost use Rattle.std.specs.Prelude.{◌≡◌};
    ghost use Rattle.yal_reader.specs.Kept.{IsCoordinate};

    /// The corners of the module, as the numbers of the text.
    pub(crate) fn corners(&self) -> &'a [i64]
        ensures is { result.now ≡ self.now.1.corners }
        ensures near { AllByRecursion IsCoordinate result.now }
    {
        let module = self.module;
        module.corners.items()
    }
}
