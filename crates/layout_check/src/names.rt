//! The names of cells and instances, and which of them are missing, doubled or strange.

ghost use Rattle.design_model.specs.CellsMatch.{cell_names, instance_names};
ghost use Rattle.layout_check.specs.NetFaults.{pairs_of_firsts};
ghost use Rattle.layout_check.specs.declared.finding.Finding.TheVariants.{Doubled, Missing, Strange};
ghost use Rattle.list_facts.specs.Names.{mentions, place_among};
ghost use Rattle.list_facts.specs.Texts.{texts};
ghost use Rattle.rule_check.specs.Failing.{failing};
ghost use Rattle.std.specs.List.{list_any, range_with_len};
ghost use Rattle.std.specs.Prelude.{◌≡◌, ◌<◌, ◌≤◌, ◌^◌, ◌++◌, ℕ, length, map, not, true, IfOk, OnOk};
ghost use Rattle.std.specs.Str.{bytes_eq};

use crate::finding::Finding;
use crate::groups::{Members, differing_pairs};
use crate::telling::{OfNumber, OfPair, push_unless, put_numbers, put_pairs};
use design_model::Design;
use geom_core::Layout;
use indexmap::IndexSet;
use list_facts::{is_among, number, place_of};
use std::alloc::{AllocError, Global};

/// Fewer than 2^32 names, with the different ones of them in the order of their first mention.
#[derive(Clone, Copy)]
pub(crate) struct Names<'l, 's, 't> {
    pub(crate) list: &'l [&'t [u8]],
    pub(crate) set: &'s IndexSet<&'t [u8]>,
    ghost few: { length list.now < 2 ^ 32 },
    ghost fewer: { length (texts set.now.keys) ≤ length list.now },
    ghost mentioned: { texts set.now.keys ≡ mentions (texts list.now) },
}

/// The names of the cells of a layout, in their order. The one error is want of memory.
pub(crate) fn cell_names<'a>(alloc: Global, layout: &'a Layout) -> Result<Vec<&'a [u8]>, AllocError>
    ensures { IfOk result (λ v. texts v.items ≡ cell_names layout.now) }
{
    let mut names = Vec::new(alloc);
    for cell in layout.cells.items() {
        names.push(cell.name.items())?;
    }
    Ok(names)
}

/// The names of the instances of a design, in their order. The one error is want of memory.
pub(crate) fn instance_names<'a>(
    alloc: Global,
    design: &'a Design,
) -> Result<Vec<&'a [u8]>, AllocError>
    ensures { IfOk result (λ v. texts v.items ≡ instance_names design.now) }
{
    let mut names = Vec::new(alloc);
    for inst in design.instances.items() {
        names.push(inst.name.items())?;
    }
    Ok(names)
}

/// The different names of a list. The one error is want of memory.
pub(crate) fn different<'a>(
    alloc: Global,
    names: &[&'a [u8]],
) -> Result<IndexSet<&'a [u8]>, AllocError>
    ensures mentioned { IfOk result (λ set. texts set.keys ≡ mentions (texts names.now)) }
    ensures fewer { IfOk result (λ set. length (texts set.keys) ≤ length names.now) }
{
    let mut set = IndexSet::new(alloc);
    for name in names {
        number(&mut set, *name)?;
    }
    Ok(set)
}

// The numbers of the names of a list that are not among others. The one error is want of memory.
fn not_among(alloc: Global, names: &Names, others: &Names) -> Result<Vec<u32>, AllocError>
    ensures { IfOk result (λ v. v.items ≡ failing (λ name. not (list_any (bytes_eq name) (texts others.now.set.now.keys))) (texts names.now.list.now)) }
{
    let mut numbers = Vec::new(alloc);
    for k in 0..names.list.len() {
        push_unless(&mut numbers, k as u32, is_among(others.set, names.list[k]))?;
    }
    Ok(numbers)
}

/// Tells which of these names of instances no cell has. The one error is want of memory.
pub(crate) fn tell_missing(
    alloc: Global,
    findings: &mut Vec<Finding>,
    instances: &Names,
    cells: &Names,
) -> Result<(), AllocError>
    ensures { OnOk result (findings.new.items ≡ findings.old.items ++ map Missing (failing (λ name. not (list_any (bytes_eq name) (texts cells.now.set.now.keys))) (texts instances.now.list.now))) }
{
    let missing = not_among(alloc, instances, cells)?;
    put_numbers(findings, OfNumber::Missing, missing.as_slice())
}

/// Tells which of these names of cells no instance has. The one error is want of memory.
pub(crate) fn tell_strange(
    alloc: Global,
    findings: &mut Vec<Finding>,
    cells: &Names,
    instances: &Names,
) -> Result<(), AllocError>
    ensures { OnOk result (findings.new.items ≡ findings.old.items ++ map Strange (failing (λ name. not (list_any (bytes_eq name) (texts instances.now.set.now.keys))) (texts cells.now.list.now))) }
{
    let strange = not_among(alloc, cells, instances)?;
    put_numbers(findings, OfNumber::Strange, strange.as_slice())
}

/// Tells which of these names of cells repeat an earlier one. The one error is want of memory.
pub(crate) fn tell_doubled(
    alloc: Global,
    findings: &mut Vec<Finding>,
    cells: &Names,
) -> Result<(), AllocError>
    ensures { OnOk result (findings.new.items ≡ findings.old.items ++ map (λ (p : ℕ × ℕ). Doubled p.0 p.1) (pairs_of_firsts bytes_eq (λ name other. true) (texts cells.now.list.now))) }
{
    let doubled = repeated(alloc, cells)?;
    put_pairs(findings, OfPair::Doubled, doubled.as_slice())
}

// The place of each name of a list among the different ones. The one error is want of memory.
fn places(alloc: Global, names: &Names) -> Result<Vec<u32>, AllocError>
    ensures { IfOk result (λ v. v.items ≡ map (place_among (texts names.now.set.now.keys)) (texts names.now.list.now)) }
{
    let mut numbers = Vec::with_capacity(alloc, names.list.len())?;
    for name in names.list {
        numbers.push(place_of(names.set, *name) as u32)?;
    }
    Ok(numbers)
}

// The first of each name of a list with each later one of that name. The one error is want of
// memory.
fn repeated(alloc: Global, names: &Names) -> Result<Vec<(u32, u32)>, AllocError>
    ensures { IfOk result (λ v. v.items ≡ pairs_of_firsts bytes_eq (λ name other. true) (texts names.now.list.now)) }
{
    let places = places(alloc, names)?;
    let own = numbers_below(alloc, names.list.len() as u32)?;
    let members = Members {
        groups: places.as_slice(),
        kinds: own.as_slice(),
    };
    differing_pairs(alloc, &members)
}

fn numbers_below(alloc: Global, count: u32) -> Result<Vec<u32>, AllocError>
    ensures { IfOk result (λ v. v.items ≡ range_with_len 0 count) }
{
    (0..count).collect(alloc)
}
