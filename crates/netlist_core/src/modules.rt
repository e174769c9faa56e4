//! The modules of a file, and the one PARENT among them.

ghost use Rattle.netlist_core.specs.Answers.{Agrees};
ghost use Rattle.netlist_core.specs.Calls.{is_parent_module, only_parent};
ghost use Rattle.std.specs.Prelude.{◌≡◌, filter};

use crate::DesignFault;
use std::marker::Model;
use yal_reader::{Call, Kind, Module};

/// The modules of a file that was read, which contracts see as the list of them.
#[derive(Drop)]
pub(crate) struct Modules<'a> {
    pub(crate) modules: &'a [Module],
}

impl<'a> Model for Modules<'a> {
    ghost use Rattle.netlist_core.specs.Read.{AreModules};
    ghost use Rattle.std.specs.Prelude.{List};
    ghost use Rattle.yal_reader.specs.declared.file.Module.{Module};

    ghost Value = { List Module };

    ghost view = { λ a. a.modules.now };

    ghost invariant = { λ a. AreModules a.modules.now };
}

impl<'a> Modules<'a> {
    ghost use Rattle.netlist_core.specs.Read.{AreModules};
    ghost use Rattle.std.specs.Prelude.{◌≡◌};

    /// The modules, in the order of the file.
    pub(crate) fn items(&self) -> &'a [Module]
        ensures is { result.now ≡ self.now }
        ensures read { AreModules self.now }
    {
        self.modules
    }
}

/// The PARENT of a file that was read, which contracts see as the module.
#[derive(Drop)]
pub(crate) struct Parent<'a> {
    module: &'a Module,
}

impl<'a> Model for Parent<'a> {
    ghost use Rattle.yal_reader.specs.Kept.{IsKeptModule};
    ghost use Rattle.yal_reader.specs.declared.file.Module.{Module};

    ghost Value = { Module };

    ghost view = { λ a. a.«module».now };

    ghost invariant = { λ a. IsKeptModule a.«module».now };
}

impl<'a> Parent<'a> {
    ghost use Rattle.std.specs.List.{AllByRecursion, IsDistinct};
    ghost use Rattle.std.specs.Prelude.{◌≡◌};
    ghost use Rattle.std.specs.Str.{bytes_eq};
    ghost use Rattle.yal_reader.specs.Kept.{call_names, IsKeptCall};

    /// The calls that it makes, in the order of the file.
    pub(crate) fn calls(&self) -> &'a [Call]
        ensures is { result.now ≡ self.now.calls }
        ensures kept { AllByRecursion IsKeptCall self.now.calls }
        ensures different { IsDistinct bytes_eq (call_names self.now.calls) }
    {
        let parent = self.module;
        parent.calls.items()
    }
}

/// The one PARENT of these modules. Takes no memory.
pub(crate) fn the_parent<'a>(modules: &Modules<'a>) -> Result<Parent<'a>, DesignFault>
    ensures { Agrees (λ m. m) result (only_parent (filter is_parent_module modules.now)) }
{
    let mut parent: Option<&Module> = None;
    for module in modules.items() {
        if is_parent(module) {
            if parent.is_some() {
                return Err(DesignFault::ManyParents);
            }
            parent = Some(module);
        }
    }
    match parent {
        Some(module) => Ok(Parent { module }),
        None => Err(DesignFault::NoParent),
    }
}

fn is_parent(module: &Module) -> bool
    ensures { result ≡ is_parent_module module.now }
{
    matches!(module.kind, Kind::Parent)
}
