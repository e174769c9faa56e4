//! Findings on outlines that overlap or are out of row, narrow wires, close shapes and bare cuts.

ghost use Rattle.close_rects.specs.Items.{HasInside};
ghost use Rattle.layout_check.specs.Findings.{bare_findings, close_findings, narrow_findings, row_findings};
ghost use Rattle.std.specs.Prelude.{◌≡◌, ◌++◌, length, All, OnOk};

use crate::case::Case;
use crate::finding::Finding;
use crate::telling::{OfNumber, OfPair, put_numbers, put_pairs};
use rule_check::{bare_cuts, close_pairs, narrow, out_of_row, overlaps};
use std::alloc::{AllocError, Global};

/// Tells which outlines overlap, and which are out of row. The one error is want of memory.
pub(crate) fn tell_rows(
    alloc: Global,
    findings: &mut Vec<Finding>,
    case: &Case,
) -> Result<(), AllocError>
    ensures { OnOk result (findings.new.items ≡ findings.old.items ++ row_findings case.now.rules.now case.now.layout.now) }
{
    let shapes = case.shapes();
    let overlapping = overlaps(alloc, &shapes, case.rules)?;
    let uneven = out_of_row(alloc, &shapes, case.rules)?;
    put_pairs(findings, OfPair::Overlap, overlapping.list.as_slice())?;
    put_pairs(findings, OfPair::OutOfRow, uneven.list.as_slice())
}

/// Tells which wires and cuts are too narrow; all shapes are read, and each has an inside. The one error is want of memory.
pub(crate) fn tell_narrow(
    alloc: Global,
    findings: &mut Vec<Finding>,
    case: &Case,
) -> Result<(), AllocError>
    ensures narrow { OnOk result (findings.new.items ≡ findings.old.items ++ narrow_findings case.now.rules.now case.now.layout.now) }
    ensures inside { OnOk result (All (λ s. HasInside s.rect) case.now.layout.now.shapes) }
{
    let numbers = narrow(alloc, &case.shapes(), case.rules)?;
    put_numbers(findings, OfNumber::Narrow, numbers.as_slice())
}

/// Tells which shapes of different classes are too close; there is a class for each shape. The one error is want of memory.
pub(crate) fn tell_close(
    alloc: Global,
    findings: &mut Vec<Finding>,
    case: &Case,
    classes: &[u32],
) -> Result<(), AllocError>
    requires { length classes.now ≡ length case.now.layout.now.shapes }
    ensures { OnOk result (findings.new.items ≡ findings.old.items ++ close_findings case.now.rules.now case.now.layout.now classes.now) }
{
    let pairs = close_pairs(alloc, &case.shapes(), case.rules, classes)?;
    put_pairs(findings, OfPair::Close, pairs.list.as_slice())
}

/// Tells which cuts are bare. The one error is want of memory.
pub(crate) fn tell_bare(
    alloc: Global,
    findings: &mut Vec<Finding>,
    case: &Case,
) -> Result<(), AllocError>
    ensures { OnOk result (findings.new.items ≡ findings.old.items ++ bare_findings case.now.rules.now case.now.layout.now) }
{
    let numbers = bare_cuts(alloc, &case.shapes(), case.rules)?;
    put_numbers(findings, OfNumber::BareCut, numbers.as_slice())
}
