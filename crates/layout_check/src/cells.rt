//! Instances without a cell, cells without an instance or of one name, and cells that are no copies of their kinds.

ghost use Rattle.design_model.specs.CellsMatch.{cell_names, instance_names};
ghost use Rattle.design_model.specs.declared.design.Inst.{Inst};
ghost use Rattle.layout_check.specs.CellFaults.{is_copy_for, misdrawn};
ghost use Rattle.layout_check.specs.Drawings.{drawings_of, AreForKinds};
ghost use Rattle.layout_check.specs.Findings.{cell_findings, name_findings};
ghost use Rattle.layout_check.specs.Measured.{IsCellAmong};
ghost use Rattle.layout_check.specs.declared.finding.Finding.TheVariants.{Drawing};
ghost use Rattle.list_facts.specs.Names.{mentions};
ghost use Rattle.list_facts.specs.Texts.{texts};
ghost use Rattle.std.specs.Prelude.{◌≡◌, ◌++◌, length, map, find, IfOk, OnOk};
ghost use Rattle.std.specs.Str.{bytes_eq};

use crate::case::Case;
use crate::drawings::{drawings, is_copy_with};
use crate::finding::Finding;
use crate::names::{
    Names, cell_names, different, instance_names, tell_doubled, tell_missing, tell_strange,
};
use crate::telling::{OfNumber, push_unless, put_numbers};
use geom_core::{Cell, Items, Shape};
use list_facts::place_of;
use std::alloc::{AllocError, Global};

// A case with the names of its instances, all of which are different.
#[derive(Clone, Copy)]
struct Named<'c, 'l, 's, 't> {
    case: &'c Case<'c>,
    instances: &'c Names<'l, 's, 't>,
    ghost each: { texts instances.now.list.now ≡ instance_names case.now.design.now },
    ghost different: { texts instances.now.set.now.keys ≡ instance_names case.now.design.now },
}

// The same with the drawing of each kind.
#[derive(Clone, Copy)]
struct DrawnKinds<'n, 'c, 'l, 's, 't> {
    named: &'n Named<'c, 'l, 's, 't>,
    drawings: &'n [Items<Shape>],
    ghost are: { drawings.now ≡ drawings_of named.now.case.now.rules.now named.now.case.now.design.now },
    ghost kinds: { AreForKinds named.now.case.now.design.now drawings.now },
}

/// What is wrong with the cells of a layout: instances without a cell, names of several cells, cells without an instance, and cells that
/// are no copies of their kinds. The one error is want of memory.
pub(crate) fn cell_findings(alloc: Global, case: &Case) -> Result<Vec<Finding>, AllocError>
    ensures { IfOk result (λ v. v.items ≡ cell_findings case.now.rules.now case.now.design.now case.now.layout.now) }
{
    let design = case.design;
    let _ = &design.height;
    let instances = instance_names(alloc, design)?;
    let set = different(alloc, instances.as_slice())?;
    let instances = Names {
        list: instances.as_slice(),
        set: &set,
    };
    findings_among(
        alloc,
        &Named {
            case,
            instances: &instances,
        },
    )
}

// The same, where the names of the instances are given.
fn findings_among(alloc: Global, named: &Named) -> Result<Vec<Finding>, AllocError>
    ensures { IfOk result (λ v. v.items ≡ cell_findings named.now.case.now.rules.now named.now.case.now.design.now named.now.case.now.layout.now) }
{
    let mut findings = name_findings(alloc, named.case, named.instances)?;
    tell_drawings(alloc, &mut findings, named)?;
    Ok(findings)
}

// What is wrong with the names of cells; the names of the instances are given.
fn name_findings(alloc: Global, case: &Case, instances: &Names) -> Result<Vec<Finding>, AllocError>
    ensures { IfOk result (λ v. v.items ≡ name_findings (texts instances.now.list.now) (cell_names case.now.layout.now)) }
{
    let cells = cell_names(alloc, case.layout)?;
    let cell_set = different(alloc, cells.as_slice())?;
    let cells = Names {
        list: cells.as_slice(),
        set: &cell_set,
    };
    tell_names(alloc, &cells, instances)
}

// What is wrong with these names of cells; the names of the instances are given.
fn tell_names(alloc: Global, cells: &Names, instances: &Names) -> Result<Vec<Finding>, AllocError>
    ensures { IfOk result (λ v. v.items ≡ name_findings (texts instances.now.list.now) (texts cells.now.list.now)) }
{
    let mut findings = Vec::new(alloc);
    tell_missing(alloc, &mut findings, instances, cells)?;
    tell_doubled(alloc, &mut findings, cells)?;
    tell_strange(alloc, &mut findings, cells, instances)?;
    Ok(findings)
}

// Tells which cells are no copies of their kinds.
fn tell_drawings(
    alloc: Global,
    findings: &mut Vec<Finding>,
    named: &Named,
) -> Result<(), AllocError>
    ensures { OnOk result (findings.new.items ≡ findings.old.items ++ map Drawing (misdrawn named.now.case.now.rules.now named.now.case.now.design.now named.now.case.now.layout.now)) }
{
    let drawings = drawings(alloc, named.case)?;
    let drawn = DrawnKinds {
        named,
        drawings: drawings.as_slice(),
    };
    let numbers = misdrawn(alloc, &drawn)?;
    put_numbers(findings, OfNumber::Drawing, numbers.as_slice())
}

// The cells with an instance's name that are not copies of its kind.
fn misdrawn(alloc: Global, drawn: &DrawnKinds) -> Result<Vec<u32>, AllocError>
    ensures { IfOk result (λ v. v.items ≡ misdrawn drawn.now.named.now.case.now.rules.now drawn.now.named.now.case.now.design.now drawn.now.named.now.case.now.layout.now) }
{
    let cells = drawn.named.case.layout.cells.items();
    let mut numbers = Vec::new(alloc);
    for k in 0..cells.len() {
        push_unless(&mut numbers, k as u32, is_copy(drawn, &cells[k]))?;
    }
    Ok(numbers)
}

// Whether a cell has no instance's name, or is a copy of its instance's kind.
fn is_copy(drawn: &DrawnKinds, cell: &Cell) -> bool
    requires { IsCellAmong (length drawn.now.named.now.case.now.layout.now.shapes) cell.now }
    ensures { result ≡ is_copy_for drawn.now.named.now.case.now.rules.now drawn.now.named.now.case.now.design.now drawn.now.named.now.case.now.layout.now (find (λ (i : Inst). bytes_eq i.name cell.now.name) drawn.now.named.now.case.now.design.now.instances) cell.now }
{
    let design = drawn.named.case.design;
    let drawings = drawn.drawings;
    let place = place_of(drawn.named.instances.set, cell.name.items());
    let Some(inst) = design.instances.items().get(place) else {
        return true;
    };
    let kind = inst.kind as usize;
    let name = &design.kinds.items()[kind].name;
    is_copy_with(drawn.named.case.layout, name, drawings[kind].items(), cell)
}
