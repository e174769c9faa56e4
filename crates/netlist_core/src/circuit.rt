//! The modules of a file together with the calls of its PARENT that fit them.

use crate::calls::Calls;
use crate::library::Library;
use std::marker::Model;

/// The modules of a file and the calls of its PARENT, each of which fits the module that it calls.
#[derive(Drop)]
pub(crate) struct Circuit<'a> {
    pub(crate) library: Library<'a>,
    pub(crate) calls: Calls<'a>,
}

impl<'a> Model for Circuit<'a> {
    ghost use Rattle.netlist_core.specs.Calls.{calls_fault};
    ghost use Rattle.std.specs.Prelude.{◌≡◌, List, None};
    ghost use Rattle.yal_reader.specs.declared.file.Call.{Call};
    ghost use Rattle.yal_reader.specs.declared.file.Module.{Module};

    ghost Value = { List Module × List Call };

    ghost view = { λ a. (a.library, a.calls) };

    ghost invariant = { λ a. calls_fault a.library a.calls ≡ None };
}
