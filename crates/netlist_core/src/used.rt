//! The modules that are called, the cell kinds that they make, and the greatest height of these.

ghost use Rattle.list_facts.specs.Names.{mentions};
ghost use Rattle.list_facts.specs.Texts.{texts};
ghost use Rattle.netlist_core.specs.Answers.{Agrees};
ghost use Rattle.netlist_core.specs.OnGrid.{greatest_height, kinds_for, used_modules, used_names};
ghost use Rattle.std.specs.Prelude.{◌≡◌, IfOk};

use crate::DesignFault;
use crate::calls::called_names;
use crate::cells::kind_of;
use crate::modules::Modules;
use crate::numbered::Numbered;
use design_model::CellKind;
use indexmap::IndexSet;
use list_facts::{is_among, number};
use std::alloc::{AllocError, Global};
use tech_rules::Rules;
use yal_reader::Call;

/// The modules that are called, in the order of the file. The one error is want of memory.
#[tactic(auto, unfolding(crate::specs::OnGrid::used_modules))]
pub(crate) fn used_modules<'a>(
    alloc: Global,
    modules: &Modules<'a>,
    calls: &[Call],
) -> Result<Vec<Numbered<'a>>, AllocError>
    ensures { IfOk result (λ used. used.items ≡ used_modules modules.now calls.now) }
{
    let called = called_names(alloc, calls)?;
    let modules = modules.items();
    let mut used = Vec::new(alloc);
    for (i, module) in modules.iter().enumerate() {
        if !is_among(&called, module.name.items()) {
            continue;
        }
        used.push(Numbered {
            number: i as u32,
            module,
        })?;
    }
    Ok(used)
}

/// The names of these modules. The one error is want of memory.
pub(crate) fn names_of<'a>(
    alloc: Global,
    used: &[Numbered<'a>],
) -> Result<IndexSet<&'a [u8]>, AllocError>
    ensures { IfOk result (λ names. texts names.keys ≡ mentions (used_names used.now)) }
{
    let mut names = IndexSet::new(alloc);
    for numbered in used {
        number(&mut names, numbered.module.name.items())?;
    }
    Ok(names)
}

/// The kinds of these modules, or the first refusal of one: NoShape, OffGrid, TooLow, PinClash or WrongLayer with its number in
/// the file.
#[tactic(auto, unfolding(crate::specs::OnGrid::kinds_for))]
pub(crate) fn kinds_of(
    alloc: Global,
    rules: &Rules,
    used: &[Numbered],
) -> Result<Vec<CellKind>, DesignFault>
    ensures { Agrees (λ v. v.items) result (kinds_for rules.now used.now) }
{
    let mut kinds = Vec::new(alloc);
    for numbered in used {
        match kind_of(alloc, rules, numbered) {
            Ok(kind) => kinds.push(kind)?,
            Err(fault) => return Err(fault),
        }
    }
    Ok(kinds)
}

/// The greatest height of these kinds in units, or 0 where there is none. Takes no memory.
pub(crate) fn greatest_height(kinds: &[CellKind]) -> u32
    ensures { result ≡ greatest_height kinds.now }
{
    let mut greatest = 0;
    for kind in kinds {
        greatest = greatest.max(kind.height);
    }
    greatest
}
