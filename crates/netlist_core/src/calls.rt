//! The calls of a PARENT, the first fault among them, and the instances that they make.

ghost use Rattle.list_facts.specs.Names.{mentions};
ghost use Rattle.list_facts.specs.Texts.{texts};
ghost use Rattle.netlist_core.specs.Calls.{call_fault, calls_fault};
ghost use Rattle.netlist_core.specs.OnGrid.{called_names, inst_in};
ghost use Rattle.std.specs.Prelude.{◌≡◌, map, IfOk};
ghost use Rattle.yal_reader.specs.Kept.{is_standard};

use crate::DesignFault;
use crate::library::Library;
use crate::names::Names;
use design_model::Inst;
use indexmap::IndexSet;
use list_facts::number;
use std::alloc::{AllocError, Global};
use std::marker::Model;
use yal_reader::{Call, Kind, Module};

/// The calls of a PARENT that was read, no more than a design may have instances. Contracts see the list of them.
#[derive(Drop)]
pub(crate) struct Calls<'a> {
    pub(crate) calls: &'a [Call],
}

impl<'a> Model for Calls<'a> {
    ghost use Rattle.netlist_core.specs.Read.{AreCalls};
    ghost use Rattle.std.specs.Prelude.{List};
    ghost use Rattle.yal_reader.specs.declared.file.Call.{Call};

    ghost Value = { List Call };

    ghost view = { λ a. a.calls.now };

    ghost invariant = { λ a. AreCalls a.calls.now };
}

impl<'a> Calls<'a> {
    ghost use Rattle.netlist_core.specs.Read.{AreCalls};
    ghost use Rattle.std.specs.Prelude.{◌≡◌};

    /// The calls, in the order of the file.
    pub(crate) fn items(&self) -> &'a [Call]
        ensures is { result.now ≡ self.now }
        ensures read { AreCalls self.now }
    {
        self.calls
    }
}

/// What is wrong with the call that makes instance i, if anything. Takes no memory.
#[tactic(auto, unfolding(crate::specs::Calls::call_fault))]
pub(crate) fn call_fault(library: &Library, i: u32, call: &Call) -> Option<DesignFault>
    ensures { result ≡ call_fault library.now i call.now }
{
    let Some((module, terminals)) = library.find(call.module.items()) else {
        return Some(DesignFault::UnknownModule(i));
    };
    if !is_standard(module) {
        return Some(DesignFault::NotStandard(i));
    }
    if call.signals.items().len() == terminals.len() {
        None
    } else {
        Some(DesignFault::SignalCount(i))
    }
}

fn is_standard(module: &Module) -> bool
    ensures { result ≡ is_standard module.now.kind }
{
    matches!(module.kind, Kind::Standard)
}

/// The first thing that is wrong with these calls, if anything. Takes no memory.
#[tactic(auto, unfolding(crate::specs::Calls::calls_fault))]
pub(crate) fn calls_fault(library: &Library, calls: &Calls) -> Option<DesignFault>
    ensures { result ≡ calls_fault library.now calls.now }
{
    let mut i = 0;
    let mut rest = calls.items();
    while let Some((call, after)) = rest.split_first() {
        let fault = call_fault(library, i, call);
        if fault.is_some() {
            return fault;
        }
        i += 1;
        rest = after;
    }
    None
}

/// The names of the modules that are called, each once. The one error is want of memory.
pub(crate) fn called_names<'a>(
    alloc: Global,
    calls: &'a [Call],
) -> Result<IndexSet<&'a [u8]>, AllocError>
    ensures { IfOk result (λ names. texts names.keys ≡ mentions (called_names calls.entry.now)) }
{
    let mut names = IndexSet::new(alloc);
    for call in calls {
        number(&mut names, call.module.items())?;
    }
    Ok(names)
}

/// The instances that calls make, where these are the names of the used modules. The one error is want of memory.
pub(crate) fn instances_of(
    alloc: Global,
    names: &Names,
    calls: &[Call],
) -> Result<Vec<Inst>, AllocError>
    ensures { IfOk result (λ instances. instances.items ≡ map (inst_in names.now) calls.now) }
{
    let mut instances = Vec::with_capacity(alloc, calls.len())?;
    for call in calls {
        instances.push(instance_of(alloc, names, call)?)?;
    }
    Ok(instances)
}

fn instance_of(alloc: Global, names: &Names, call: &Call) -> Result<Inst, AllocError>
    ensures { IfOk result (λ instance. instance ≡ inst_in names.now call.now) }
{
    Ok(Inst {
        name: call.name.copied(alloc)?,
        kind: names.place(call.module.items()),
    })
}
