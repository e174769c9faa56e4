//! Names of ports' kinds and instances that a module or an instance has already.

ghost use Rattle.design_model.specs.CellsMatch.{instance_names};
ghost use Rattle.list_facts.specs.Names.{mentions};
ghost use Rattle.list_facts.specs.Texts.{texts};
ghost use Rattle.port_rows.specs.Ported.{clash_fault, first_among, inst_names, kind_names};
ghost use Rattle.std.specs.List.{list_any};
ghost use Rattle.std.specs.Prelude.{◌≡◌, IfOk};
ghost use Rattle.std.specs.Str.{bytes_eq};
ghost use Rattle.yal_reader.specs.Kept.{module_names};

use crate::added::Added;
use crate::fault::PortFault;
use design_model::{CellKind, Design, Inst};
use geom_core::Name;
use indexmap::IndexSet;
use list_facts::{is_among, number};
use std::alloc::{AllocError, Global};
use yal_reader::{Module, YalFile};

// Each of these errs only with want of memory.

/// The first kind of ports whose name a module of the file has, or the first of their instances whose name an instance of the design
/// has, as a fault; None where there is neither.
#[tactic(auto, unfolding(crate::specs::Ported::clash_fault))]
pub(crate) fn clash_fault(
    alloc: Global,
    file: &YalFile,
    design: &Design,
    added: &Added,
) -> Result<Option<PortFault>, AllocError>
    ensures { IfOk result (λ fault. fault ≡ clash_fault (module_names file.now.modules) design.now added.now.kinds.items added.now.instances.items) }
{
    let found = kind_clash(alloc, file.modules.items(), added.kinds.as_slice())?;
    if let Some(name) = found {
        return Ok(Some(PortFault::Clash(name)));
    }
    let names = design_names(alloc, design)?;
    match instance_clash(alloc, &names, added.instances.as_slice())? {
        Some(name) => Ok(Some(PortFault::Clash(name))),
        None => Ok(None),
    }
}

// The first name of a kind that a module has.
fn kind_clash(
    alloc: Global,
    modules: &[Module],
    kinds: &[CellKind],
) -> Result<Option<Name>, AllocError>
    ensures { IfOk result (λ name. name ≡ first_among (module_names modules.now) (kind_names kinds.now)) }
{
    let mut rest = kinds;
    while let Some((kind, after)) = rest.split_first() {
        if has_module(modules, kind.name.items()) {
            return Ok(Some(kind.name.copied(alloc)?));
        }
        rest = after;
    }
    Ok(None)
}

// Whether one of these modules has this name.
fn has_module(modules: &[Module], name: &[u8]) -> bool
    ensures { result ≡ list_any (bytes_eq name.now) (module_names modules.now) }
{
    let mut rest = modules;
    while let Some((module, after)) = rest.split_first() {
        if name == module.name.items() {
            return true;
        }
        rest = after;
    }
    false
}

// The first name of an instance that is among others.
fn instance_clash(
    alloc: Global,
    names: &IndexSet<&[u8]>,
    instances: &[Inst],
) -> Result<Option<Name>, AllocError>
    ensures { IfOk result (λ name. name ≡ first_among (texts names.now.keys) (inst_names instances.now)) }
{
    let mut rest = instances;
    while let Some((instance, after)) = rest.split_first() {
        if is_among(names, instance.name.items()) {
            return Ok(Some(instance.name.copied(alloc)?));
        }
        rest = after;
    }
    Ok(None)
}

// The names of a design's instances.
fn design_names<'a>(alloc: Global, design: &'a Design) -> Result<IndexSet<&'a [u8]>, AllocError>
    ensures { IfOk result (λ names. texts names.keys ≡ instance_names design.entry.now) }
{
    names_of(alloc, design.instances.items())
}

// The names of instances, each once.
fn names_of<'a>(alloc: Global, instances: &'a [Inst]) -> Result<IndexSet<&'a [u8]>, AllocError>
    ensures { IfOk result (λ names. texts names.keys ≡ mentions (inst_names instances.entry.now)) }
{
    let mut names = IndexSet::new(alloc);
    for instance in instances {
        number(&mut names, instance.name.items())?;
    }
    Ok(names)
}
