//! The PARENT of a netlist.

ghost use Rattle.list_facts.specs.Texts.{texts};
ghost use Rattle.netlist_import.specs.Carries.{CanBeWritten, Carries};
ghost use Rattle.netlist_import.specs.Faults.{Answers};
ghost use Rattle.netlist_import.specs.Nets.{all_seen};
ghost use Rattle.netlist_import.specs.Parent.{all_terminals, free_model, is_parent_module, no_parent, parent_in, parent_of, parent_with, tested};
ghost use Rattle.std.specs.List.{list_any};
ghost use Rattle.std.specs.Option.{option_map};
ghost use Rattle.std.specs.Prelude.{◌≡◌, find, IfOk};
ghost use Rattle.std.specs.Str.{bytes_eq};
ghost use Rattle.yal_reader.specs.Kept.{module_names};
ghost use Rattle.yal_reader.specs.Lists.{is_among};

use crate::calls::calls_of;
use crate::constants::undriven_in;
use crate::fault::{ImportFault, ImportKind, refused};
use crate::names::check_names;
use crate::nets::{Renaming, renamings_of};
use crate::terminals::{check_terminals, lines_of};
use blif_reader::{BlifFile, BlifWord};
use geom_core::Items;
use std::alloc::{AllocError, Global};
use yal_reader::{Call, Kind, Module, YalFile};

/// Whether a module is a PARENT.
fn is_parent(of: &Module) -> bool
    ensures { result ≡ is_parent_module of.now }
{
    match of.kind {
        Kind::Parent => true,
        _ => false,
    }
}

/// The first PARENT of these modules. Takes no memory.
fn first_parent(modules: &[Module]) -> Option<&Module>
    ensures { option_map (λ m. m.now) result ≡ find is_parent_module modules.now }
{
    modules.iter().find(|of| is_parent(of))
}

/// Tests that no module of the cells is a PARENT.
fn check_no_parent(alloc: Global, modules: &[Module], at: u64) -> Result<(), ImportFault>
    ensures { Answers (λ x. x) result (no_parent at (find is_parent_module modules.now)) }
{
    match first_parent(modules) {
        Some(parent) => Err(refused(alloc, ImportKind::Parent, parent.name.items(), at)),
        None => Ok(()),
    }
}

/// Whether a module has this name.
fn is_named(name: &[u8], of: &Module) -> bool
    ensures { result ≡ bytes_eq name.now of.now.name }
{
    name == of.name.items()
}

/// Whether one of these modules has this name, found one by one.
fn has_name(modules: &[Module], name: &[u8]) -> bool
    ensures { result ≡ list_any (λ m. bytes_eq name.now m.name) modules.now }
{
    modules.iter().any(|of| is_named(name, of))
}

/// Whether one of these modules has this name.
fn is_module(modules: &[Module], name: &[u8]) -> bool
    ensures { result ≡ is_among (module_names modules.now) name.now }
{
    has_name(modules, name)
}

/// Tests that no module of the cells has the model's name.
fn check_model(alloc: Global, modules: &[Module], model: &BlifWord) -> Result<(), ImportFault>
    ensures { Answers (λ x. x) result (free_model modules.now model.now) }
{
    if is_module(modules, model.text.items()) {
        return Err(refused(alloc, ImportKind::Model, model.text.items(), model.at));
    }
    Ok(())
}

/// Tests the terminals of the model, and gives their words.
#[tactic(auto, unfolding(crate::specs::Parent::all_terminals))]
fn check_all_terminals<'a>(
    alloc: Global,
    renamings: &[Renaming<'_>],
    undriven: &[&[u8]],
    netlist: &'a BlifFile,
) -> Result<Vec<&'a [u8]>, ImportFault>
    ensures { Answers (λ words. texts words.items) result (all_terminals (all_seen renamings.entry.now) (texts undriven.entry.now) netlist.entry.now) }
{
    let seen = Vec::new(alloc);
    let seen = check_terminals(alloc, renamings, undriven, seen, netlist.inputs.items())?;
    check_terminals(alloc, renamings, undriven, seen, netlist.outputs.items())
}

/// Tests all but the gates' modules and pins.
#[tactic(auto, unfolding(crate::specs::Parent::tested))]
fn check_all(
    alloc: Global,
    renamings: &[Renaming<'_>],
    undriven: &[&[u8]],
    netlist: &BlifFile,
    modules: &[Module],
) -> Result<(), ImportFault>
    ensures { Answers (λ x. x) result (tested (all_seen renamings.now) (texts undriven.now) netlist.now modules.now) }
{
    check_no_parent(alloc, modules, netlist.model.at)?;
    check_model(alloc, modules, &netlist.model)?;
    check_all_terminals(alloc, renamings, undriven, netlist)?;
    check_names(alloc, netlist.gates.items())
}

/// The PARENT of a netlist with these lines and calls. The one error is want of memory.
fn parent_with(alloc: Global, netlist: &BlifFile, calls: Vec<Call>) -> Result<Module, AllocError>
    ensures { IfOk result (λ parent. parent ≡ parent_with netlist.now calls.items) }
{
    let name = netlist.model.text.copied(alloc)?;
    let lines = lines_of(alloc, netlist)?;
    Ok(Module {
        name,
        kind: Kind::Parent,
        corners: Items::new(Vec::new(alloc)),
        lines,
        calls: Items::new(calls),
    })
}

/// The PARENT under renamings, where these constant nets are not driven.
#[tactic(auto, unfolding(crate::specs::Parent::parent_in))]
fn parent_in(
    alloc: Global,
    renamings: &[Renaming<'_>],
    undriven: &[&[u8]],
    netlist: &BlifFile,
    modules: &[Module],
) -> Result<Module, ImportFault>
    ensures { Answers (λ parent. parent) result (parent_in (all_seen renamings.now) (texts undriven.now) netlist.now modules.now) }
{
    check_all(alloc, renamings, undriven, netlist, modules)?;
    let calls = calls_of(alloc, modules, renamings, undriven, netlist.gates.items())?;
    Ok(parent_with(alloc, netlist, calls)?)
}

/// The PARENT of a netlist over the modules of its cells, or the first flaw.
#[tactic(auto, unfolding(crate::specs::Parent::parent_of))]
fn parent_made(alloc: Global, netlist: &BlifFile, cells: &YalFile) -> Result<Module, ImportFault>
    ensures { Answers (λ parent. parent) result (parent_of netlist.now cells.now) }
{
    let renamings = renamings_of(alloc, netlist)?;
    let undriven = undriven_in(
        alloc,
        renamings.as_slice(),
        cells.modules.items(),
        netlist.gates.items(),
        netlist.constants.items(),
    )?;
    parent_in(
        alloc,
        renamings.as_slice(),
        undriven.as_slice(),
        netlist,
        cells.modules.items(),
    )
}

/// The PARENT of a netlist over the modules of its cells, which has the model's inputs and outputs as its terminals and calls a cell for each gate, in their
/// order, with the words of its nets in the order of the cell's terminals; or the first flaw of the netlist, or want of memory. A net goes by the terminal of the
/// model on it, if there is one, else by one of its words; power terminals have the words VDD and GND. Where the netlist was read, the PARENT can be written behind its cells.
pub fn parent_of(alloc: Global, netlist: &BlifFile, cells: &YalFile) -> Result<Module, ImportFault>
    ensures is { Answers (λ parent. parent) result (parent_of netlist.now cells.now) }
    ensures carries { IfOk result (λ parent. Carries netlist.now cells.now.modules parent) }
    ensures writable { IfOk result (λ parent. CanBeWritten netlist.now cells.now parent) }
{
    match parent_made(alloc, netlist, cells) {
        Ok(parent) => Ok(parent),
        Err(fault) => Err(fault),
    }
}
