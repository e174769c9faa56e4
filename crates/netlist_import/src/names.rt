//! The names of instances.

ghost use Rattle.list_facts.specs.Texts.{texts};
ghost use Rattle.netlist_import.specs.Calls.{name_of, name_place};
ghost use Rattle.netlist_import.specs.Faults.{Answers};
ghost use Rattle.netlist_import.specs.Parent.{fitting_name, fitting_names, instance_of, instances_of};
ghost use Rattle.std.specs.Fmt.{decimal};
ghost use Rattle.std.specs.Prelude.{◌≡◌, ◌++◌, ◌∷◌, [], codes, IfOk, OnOk};

use crate::fault::{ImportFault, ImportKind, refused};
use crate::terminals::spells;
use blif_reader::{BlifWord, Gate};
use geom_core::Name;
use indexmap::IndexSet;
use itoa::Buffer;
use list_facts::is_new;
use std::alloc::{AllocError, Global};

/// The name `g` with the number of a gate. The one error is want of memory.
fn numbered(alloc: Global, number: u64) -> Result<Name, AllocError>
    ensures { IfOk result (λ name. name ≡ codes "g" ++ decimal number) }
{
    let mut text = Vec::new(alloc);
    text.push(b'g')?;
    let mut digits = Buffer::new();
    text.extend_from_slice(digits.format(number).as_bytes())?;
    Ok(Name::new(text))
}

/// The name of the instance of a gate with this number. The one error is want of memory.
pub(crate) fn name_of(alloc: Global, number: u64, gate: &Gate) -> Result<Name, AllocError>
    ensures { IfOk result (λ name. name ≡ name_of number gate.now) }
{
    match &gate.name {
        Some(word) => word.text.copied(alloc),
        None => numbered(alloc, number),
    }
}

/// Where the name of an instance stands, or the module of a gate without one. Takes no memory.
fn name_place(gate: &Gate) -> u64
    ensures { result ≡ name_place gate.now.at gate.now.name }
{
    match &gate.name {
        Some(word) => word.at,
        None => gate.at,
    }
}

/// The name of the instance of a gate with this number, and where it stands. The one error is want of memory.
fn instance_of(alloc: Global, number: u64, gate: &Gate) -> Result<BlifWord, AllocError>
    ensures { IfOk result (λ word. word ≡ instance_of (number, gate.now)) }
{
    Ok(BlifWord {
        text: name_of(alloc, number, gate)?,
        at: name_place(gate),
    })
}

/// The names of the instances of gates, and where they stand. The one error is want of memory.
fn instances_of(alloc: Global, gates: &[Gate]) -> Result<Vec<BlifWord>, AllocError>
    ensures { IfOk result (λ names. names.items ≡ instances_of gates.now) }
{
    let mut found = Vec::new(alloc);
    for (number, gate) in gates.iter().enumerate() {
        found.push(instance_of(alloc, number as u64, gate)?)?;
    }
    Ok(found)
}

/// Tests the name of an instance, which joins those taken.
#[tactic(auto, unfolding(crate::specs::Parent::fitting_name))]
fn check_name<'a>(
    alloc: Global,
    seen: &mut IndexSet<&'a [u8]>,
    name: &'a BlifWord,
) -> Result<(), ImportFault>
    ensures tested { Answers (λ _. name.entry.now.text) result (fitting_name (texts seen.old.keys) name.entry.now) }
    ensures grown { OnOk result (texts seen.new.keys ≡ texts seen.old.keys ++ name.entry.now.text ∷ []) }
{
    let text = name.text.items();
    if spells(b"ENDNETWORK", text) {
        return Err(refused(alloc, ImportKind::Keyword, text, name.at));
    }
    if !is_new(seen, text)? {
        return Err(refused(alloc, ImportKind::Name, text, name.at));
    }
    Ok(())
}

/// Tests names of instances.
fn check_instances(alloc: Global, names: &[BlifWord]) -> Result<(), ImportFault>
    ensures { Answers (λ x. x) result (fitting_names [] names.now) }
{
    let mut seen = IndexSet::new(alloc);
    for name in names {
        check_name(alloc, &mut seen, name)?;
    }
    Ok(())
}

/// Tests the names of the instances of gates.
pub(crate) fn check_names(alloc: Global, gates: &[Gate]) -> Result<(), ImportFault>
    ensures { Answers (λ x. x) result (fitting_names [] (instances_of gates.now)) }
{
    let names = instances_of(alloc, gates)?;
    check_instances(alloc, names.as_slice())
}
