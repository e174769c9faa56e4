//! The modules of a file, found by name, with the terminals of each.

ghost use Rattle.list_facts.specs.Names.{mentions};
ghost use Rattle.list_facts.specs.Texts.{texts};
ghost use Rattle.netlist_core.specs.Calls.{module_named, terminals_in};
ghost use Rattle.netlist_core.specs.LibraryView.{all_terminals};
ghost use Rattle.netlist_core.specs.Read.{AreModules};
ghost use Rattle.std.specs.List.{slice_get};
ghost use Rattle.std.specs.Option.{option_copied, option_map};
ghost use Rattle.std.specs.Prelude.{◌≡◌, ◌<◌, ◌^◌, length, IfOk, IfSome};
ghost use Rattle.yal_reader.specs.Kept.{module_names};

use crate::modules::Modules;
use crate::terminals::Terminals;
use design_model::Terminal;
use geom_core::Items;
use indexmap::IndexSet;
use list_facts::{number, place_of};
use std::alloc::{AllocError, Global};
use std::marker::Model;
use yal_reader::Module;

/// The modules of a file with their names, by which they are found, and the terminals of each.
#[derive(Drop)]
pub(crate) struct Library<'a> {
    modules: Modules<'a>,
    names: IndexSet<&'a [u8]>,
    terminals: Vec<Items<Terminal>>,
}

impl<'a> Model for Library<'a> {
    ghost use Rattle.std.specs.Prelude.{List};
    ghost use Rattle.yal_reader.specs.declared.file.Module.{Module};

    ghost Value = { List Module };

    ghost use Rattle.netlist_core.specs.LibraryView.{IsLibrary};

    ghost view = { λ a. a.modules };

    ghost invariant = { IsLibrary };
}

impl<'a> Library<'a> {
    /// The library of these modules. The one error is want of memory.
    pub(crate) fn new(alloc: Global, modules: Modules<'a>) -> Result<Library<'a>, AllocError>
        ensures { IfOk result (λ library. library ≡ modules.entry) }
    {
        let names = names_of(alloc, modules.items())?;
        let terminals = all_terminals(alloc, &modules)?;
        Ok(Library {
            modules,
            names,
            terminals,
        })
    }

    /// The modules.
    pub(crate) fn modules(&self) -> &Modules<'a>
        ensures is { result.now ≡ self.now }
        ensures read { AreModules self.now }
    {
        let _modules = self.modules.items();
        &self.modules
    }

    /// The module of this name with its terminals, or None where there is no such module. Takes no memory.
    pub(crate) fn find(&self, name: &[u8]) -> Option<(&Module, &[Terminal])>
        ensures is { option_map (λ f. f.0.now) result ≡ module_named self.now name.now }
        ensures terminals { IfSome result (λ f. f.1.now ≡ terminals_in (Some f.0.now)) }
        ensures few { IfSome result (λ f. length f.1.now < 2 ^ 32) }
    {
        let place = place_of(&self.names, name);
        let Some(module) = item_at(self.modules.items(), place) else {
            return None;
        };
        let Some(terminals) = item_at(self.terminals.as_slice(), place) else {
            return None;
        };
        Some((module, terminals.items()))
    }

    /// The terminals of the module of this name, or none where there is no such module. Takes no memory.
    pub(crate) fn terminals(&self, name: &[u8]) -> &[Terminal]
        ensures is { result.now ≡ terminals_in (module_named self.now name.now) }
        ensures few { length result.now < 2 ^ 32 }
    {
        match self.find(name) {
            Some((_, terminals)) => terminals,
            None => &[],
        }
    }
}

// The item at a place, if there is one.
fn item_at<T>(items: &[T], i: usize) -> Option<&T>
    ensures { option_copied result ≡ slice_get items.now i }
{
    items.get(i)
}

// The names of the modules, in the order of the file. The one error is want of memory.
fn names_of<'a>(alloc: Global, modules: &'a [Module]) -> Result<IndexSet<&'a [u8]>, AllocError>
    ensures { IfOk result (λ names. texts names.keys ≡ mentions (module_names modules.entry.now)) }
{
    let mut names = IndexSet::new(alloc);
    for module in modules {
        number(&mut names, module.name.items())?;
    }
    Ok(names)
}

// The terminals of each module. The one error is want of memory.
fn all_terminals(alloc: Global, modules: &Modules) -> Result<Vec<Items<Terminal>>, AllocError>
    ensures { IfOk result (λ all. all.items ≡ all_terminals modules.now) }
{
    let modules = modules.items();
    let mut all = Vec::with_capacity(alloc, modules.len())?;
    for module in modules {
        let terminals = Terminals::new(alloc, module.lines.items())?;
        all.push(Items::new(terminals.list(alloc)?))?;
    }
    Ok(all)
}
