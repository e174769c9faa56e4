//! Whether a cut lies, with what has to enclose it, in one wire of each layer.

ghost use Rattle.geom_core.specs.declared.layout.Shape.{Shape};
ghost use Rattle.geom_core.specs.Reach.{IsShapeInReach};
ghost use Rattle.rule_check.specs.Covers.{IsCoverOf, is_held};
ghost use Rattle.rule_check.specs.Narrow.{is_bare, is_on};
ghost use Rattle.std.specs.Prelude.{◌≡◌, ◌<◌, ◌^◌, List, length, IfOk, map, filter};

use crate::measures::{grown, is_on, length_in};
use close_rects::RectSet;
use geom_core::{LayerName, Rect, Shape, ShapesInReach};
use std::alloc::{AllocError, Global};
use tech_rules::Rules;

// The rectangles of the shapes of a layer of the judged.
pub(crate) fn wires_on(
    alloc: Global,
    judged: &ShapesInReach,
    layer: &LayerName,
) -> Result<RectSet, AllocError>
    ensures { IfOk result (IsCoverOf layer.now judged.now) }
{
    let rects = rects_on(alloc, judged.shapes(), layer)?;
    RectSet::new(alloc, rects.as_slice())
}

fn rects_on(alloc: Global, shapes: &[Shape], layer: &LayerName) -> Result<Vec<Rect>, AllocError>
    ensures { IfOk result (λ v. v.items ≡ map (λ s. s.rect) (filter (is_on layer.now) shapes.now)) }
{
    shapes
        .iter()
        .filter(|shape| is_on(layer, shape))
        .map(|shape| shape.rect)
        .collect(alloc)
}

// Whether a shape is a cut that does not lie, with what has to enclose it, in one of the wires of each layer.
pub(crate) fn is_bare(
    rules: &Rules,
    horizontal: &RectSet,
    vertical: &RectSet,
    shape: &Shape,
) -> bool
    requires { IsShapeInReach shape.now }
    ensures { (shapes : List Shape) → IsCoverOf rules.now.horizontal.layer shapes horizontal.now
        → IsCoverOf rules.now.vertical.layer shapes vertical.now → result ≡ is_bare rules.now shapes shape.now }
{
    if !is_on(&rules.cut.layer, shape) {
        return false;
    }
    let window = grown(&shape.rect, length_in(rules, rules.cut.enclose));
    let in_horizontal = is_held(horizontal, &window);
    let in_vertical = is_held(vertical, &window);
    !(in_horizontal && in_vertical)
}

// Whether one of these rectangles holds this one.
fn is_held(rects: &RectSet, rect: &Rect) -> bool
    ensures { result ≡ is_held rect.now rects.now }
{
    rects.holder(rect).is_some()
}
