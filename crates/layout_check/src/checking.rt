//! All that is wrong with a layout, kind by kind; open and short nets are sought only where the cells are right.

ghost use Rattle.close_rects.specs.Items.{HasInside};
ghost use Rattle.design_model.specs.Good.{Good};
ghost use Rattle.design_model.specs.Room.{HasRoom};
ghost use Rattle.layout_check.specs.Findings.{cell_findings, Findings};
ghost use Rattle.layout_check.specs.Measured.{IsMeasured};
ghost use Rattle.std.specs.Prelude.{◌≡◌, ◌≢◌, ◌↔◌, [], All, IfOk, OnOk};

use crate::case::Case;
use crate::cells::cell_findings;
use crate::finding::Finding;
use crate::nets::tell_nets;
use crate::shapes::{tell_bare, tell_close, tell_narrow, tell_rows};
use design_model::Design;
use geom_core::Layout;
use geom_extract::classes;
use std::alloc::{AllocError, Global};
use tech_rules::Rules;

/// What is wrong with a layout of a design under rules: nothing exactly where the layout is good. The findings stand kind by kind, in the
/// order of `Finding`, each kind in the order of its numbers; of `Overlap`, `OutOfRow` and `Close` the first thousand are told. Where
/// something is wrong with cells, it is not asked what is joined: `Close`, `Opened` and `Short` are then not sought. The cells of the design
/// have room for their pins, and the layout's lengths are within 10^15 half centimicrons. The one error is want of memory.
pub fn check(
    alloc: Global,
    layout: &Layout,
    design: &Design,
    rules: &Rules,
) -> Result<Vec<Finding>, AllocError>
    requires measured { IsMeasured layout.now }
    requires room { HasRoom rules.now design.now }
    ensures findings { IfOk result (λ v. Findings rules.now design.now layout.now v.items) }
    ensures good { IfOk result (λ v. (v.items ≡ []) ↔ Good rules.now design.now layout.now) }
{
    let _ = &design.height;
    let case = Case {
        layout,
        design,
        rules,
    };
    let found = cell_findings(alloc, &case)?;
    if found.is_empty() {
        with_nets(alloc, &case)
    } else {
        without_nets(alloc, found, &case)
    }
}

// What is wrong with a layout, of whose cells something was found.
fn without_nets(
    alloc: Global,
    mut findings: Vec<Finding>,
    case: &Case,
) -> Result<Vec<Finding>, AllocError>
    requires cells { findings.items ≡ cell_findings case.now.rules.now case.now.design.now case.now.layout.now }
    requires some { cell_findings case.now.rules.now case.now.design.now case.now.layout.now ≢ [] }
    ensures findings { IfOk result (λ v. Findings case.now.rules.now case.now.design.now case.now.layout.now v.items) }
    ensures inside { OnOk result (All (λ s. HasInside s.rect) case.now.layout.now.shapes) }
{
    tell_rows(alloc, &mut findings, case)?;
    tell_narrow(alloc, &mut findings, case)?;
    tell_bare(alloc, &mut findings, case)?;
    Ok(findings)
}

// What is wrong with a layout whose cells are those of the design.
fn with_nets(alloc: Global, case: &Case) -> Result<Vec<Finding>, AllocError>
    requires { cell_findings case.now.rules.now case.now.design.now case.now.layout.now ≡ [] }
    ensures findings { IfOk result (λ v. Findings case.now.rules.now case.now.design.now case.now.layout.now v.items) }
    ensures inside { OnOk result (All (λ s. HasInside s.rect) case.now.layout.now.shapes) }
{
    let design = case.design;
    let _ = &design.height;
    let extract = classes(alloc, case.layout, design, case.rules)?;
    let mut findings = Vec::new(alloc);
    tell_rows(alloc, &mut findings, case)?;
    tell_narrow(alloc, &mut findings, case)?;
    tell_close(alloc, &mut findings, case, extract.shapes.as_slice())?;
    tell_bare(alloc, &mut findings, case)?;
    tell_nets(alloc, &mut findings, design, extract.pins.as_slice())?;
    Ok(findings)
}
