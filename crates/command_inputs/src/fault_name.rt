//! The names in the faults of a design.

ghost use Rattle.command_inputs.specs.FaultName.{fault_name, instance_name, module_name};
ghost use Rattle.netlist_core.specs.Calls.{is_parent_module};
ghost use Rattle.netlist_core.specs.SignalWords.{parent_calls};
ghost use Rattle.std.specs.Prelude.{◌≡◌, option_map, IfOk};

use geom_core::Name;
use netlist_core::DesignFault;
use std::alloc::{AllocError, Global};
use yal_reader::{Call, Kind, Module, YalFile};

fn is_parent(candidate: &Module) -> bool
    ensures { result ≡ is_parent_module candidate.now }
{
    matches!(candidate.kind, Kind::Parent)
}

// The calls of the first PARENT.
fn parent_calls(file: &YalFile) -> &[Call]
    ensures { result.now ≡ parent_calls file.now }
{
    let mut rest = file.modules.items();
    while let Some((module, after)) = rest.split_first() {
        if is_parent(module) {
            return module.calls.items();
        }
        rest = after;
    }
    &[]
}

// The name of the instance with this number.
fn instance_name(file: &YalFile, i: u32) -> Option<&Name>
    ensures { option_map (λ name. name.now) result ≡ instance_name file.now i }
{
    match parent_calls(file).get(i as usize) {
        Some(call) => Some(&call.name),
        None => None,
    }
}

// The name of the module with this number.
fn module_name(file: &YalFile, n: u32) -> Option<&Name>
    ensures { option_map (λ name. name.now) result ≡ module_name file.now n }
{
    match file.modules.items().get(n as usize) {
        Some(module) => Some(&module.name),
        None => None,
    }
}

// The name that a fault speaks of, where it stands.
#[tactic(auto, unfolding(crate::specs::FaultName::fault_name))]
fn lent_name(file: &YalFile, fault: DesignFault) -> Option<&Name>
    ensures { option_map (λ name. name.now) result ≡ fault_name file.now fault }
{
    match fault {
        DesignFault::UnknownModule(i) | DesignFault::NotStandard(i) | DesignFault::SignalCount(i) =>
            instance_name(file, i),
        DesignFault::NoShape(n)
        | DesignFault::OffGrid(n)
        | DesignFault::TooLow(n)
        | DesignFault::PinClash(n)
        | DesignFault::WrongLayer(n) => module_name(file, n),
        DesignFault::NoParent
        | DesignFault::ManyParents
        | DesignFault::Limit(..)
        | DesignFault::Memory => None,
    }
}

/// The name of the instance or the module that a fault speaks of, if it speaks of one. The one error is want of memory.
pub(crate) fn fault_name(
    alloc: Global,
    file: &YalFile,
    fault: DesignFault,
) -> Result<Option<Name>, AllocError>
    ensures { IfOk result (λ name. name ≡ fault_name file.now fault) }
{
    match lent_name(file, fault) {
        Some(name) => Ok(Some(Name::new(name.items().to_vec(alloc)?))),
        None => Ok(None),
    }
}
