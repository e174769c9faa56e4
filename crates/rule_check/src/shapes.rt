//! Wires below their layer's width, cuts of another size than the rule's, and cuts that are not enclosed.

ghost use Rattle.close_rects.specs.Items.{HasInside};
ghost use Rattle.rule_check.specs.Failing.{failing};
ghost use Rattle.rule_check.specs.Narrow.{has_sides, is_bare, is_narrow, is_on};
ghost use Rattle.tech_rules.specs.Lengths.{length_in};
ghost use Rattle.std.specs.Prelude.{◌≡◌, ◌++◌, [], ◌∷◌, ◌<◌, ◌≤◌, ◌^◌, ◌&&◌, not, length, if◌then◌else◌, All, IfOk, OnOk};

use crate::covers::{is_bare, wires_on};
use crate::measures::{has_sides, is_on, is_square, length_in};
use geom_core::{LayerName, Shape, ShapesInReach};
use std::alloc::{AllocError, Global};
use tech_rules::Rules;

/// The numbers of the shapes that are too narrow, in order: of wires with a side below their layer's width, and of cuts that are no
/// squares of the cut's size. The one error is want of memory.
pub fn narrow(alloc: Global, judged: &ShapesInReach, rules: &Rules) -> Result<Vec<u32>, AllocError>
    ensures narrow { IfOk result (λ v. v.items ≡ failing (is_narrow rules.now) judged.now) }
    ensures inside { OnOk result (All (λ s. HasInside s.rect) judged.now) }
{
    let shapes = judged.shapes();
    let mut numbers = Vec::new(alloc);
    for k in 0..shapes.len() {
        let fails = is_narrow(rules, &shapes[k]);
        push_if(&mut numbers, k as u32, fails)?;
    }
    Ok(numbers)
}

/// The numbers of the cuts, in order, that do not lie, with what has to enclose them on each side, in one shape of each layer of wires.
/// The one error is want of memory.
pub fn bare_cuts(
    alloc: Global,
    judged: &ShapesInReach,
    rules: &Rules,
) -> Result<Vec<u32>, AllocError>
    ensures { IfOk result (λ v. v.items ≡ failing (is_bare rules.now judged.now) judged.now) }
{
    let horizontal = wires_on(alloc, judged, &rules.horizontal.layer)?;
    let vertical = wires_on(alloc, judged, &rules.vertical.layer)?;
    let shapes = judged.shapes();
    let mut numbers = Vec::new(alloc);
    for k in 0..shapes.len() {
        let fails = is_bare(rules, &horizontal, &vertical, &shapes[k]);
        push_if(&mut numbers, k as u32, fails)?;
    }
    Ok(numbers)
}

// Puts the number of a shape that fails at the end of a list.
fn push_if(numbers: &mut Vec<u32>, number: u32, fails: bool) -> Result<(), AllocError>
    ensures { OnOk result (numbers.new.items ≡ (if fails then numbers.old.items ++ number ∷ [] else numbers.old.items)) }
{
    if fails {
        numbers.push(number)?;
    }
    Ok(())
}

fn is_narrow(rules: &Rules, shape: &Shape) -> bool
    ensures is { result ≡ is_narrow rules.now shape.now }
    ensures inside { HasInside shape.now.rect }
{
    let horizontal = is_thin(
        rules,
        &rules.horizontal.layer,
        rules.horizontal.width,
        shape,
    );
    let vertical = is_thin(rules, &rules.vertical.layer, rules.vertical.width, shape);
    let square = is_square(length_in(rules, rules.cut.size), &shape.rect);
    let cut = is_on(&rules.cut.layer, shape) && !square;
    horizontal || vertical || cut
}

// Whether a shape of this layer has a side below this width.
fn is_thin(rules: &Rules, layer: &LayerName, width: u32, shape: &Shape) -> bool
    ensures { result ≡ (is_on layer.now shape.now && not (has_sides (length_in rules.now width) shape.now.rect)) }
{
    is_on(layer, shape) && !has_sides(length_in(rules, width), &shape.rect)
}
