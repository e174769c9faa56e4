//! Shapes merged layer by layer.

ghost use Rattle.layout_merge.specs.Areas.{is_merged, merged_on, merged_shapes, others, rects_on, shape_on};
ghost use Rattle.rule_check.specs.Narrow.{is_on};
ghost use Rattle.std.specs.Prelude.{◌≡◌, IfOk, map};

use geom_core::{LayerName, Rect, Shape};
use region_cut::merge;
use std::alloc::{AllocError, Global};
use tech_rules::Rules;

/// How much there may be to look at where the shapes of a layer are merged: the strips between neighbouring heights, times the columns between neighbouring sides and the shapes.
/// Where it is more, the shapes stay as they are.
pub const MOST_WORK: u64 = 4_000_000_000;

fn is_on(layer: &LayerName, shape: &Shape) -> bool
    ensures { result ≡ is_on layer.now shape.now }
{
    shape.layer.text() == layer.text()
}

fn rects_on(alloc: Global, shapes: &[Shape], layer: &LayerName) -> Result<Vec<Rect>, AllocError>
    ensures { IfOk result (λ v. v.items ≡ rects_on layer.now shapes.now) }
{
    shapes
        .iter()
        .filter(|shape| is_on(layer, shape))
        .map(|shape| shape.rect)
        .collect(alloc)
}

fn shape_on(layer: &LayerName, rect: &Rect) -> Shape
    ensures { result ≡ shape_on layer.now rect.now }
{
    Shape {
        layer: *layer,
        rect: *rect,
    }
}

fn shapes_on(alloc: Global, rects: &[Rect], layer: &LayerName) -> Result<Vec<Shape>, AllocError>
    ensures { IfOk result (λ v. v.items ≡ map (shape_on layer.now) rects.now) }
{
    rects
        .iter()
        .map(|rect| shape_on(layer, rect))
        .collect(alloc)
}

// The shapes on a layer, merged.
fn merged_on(alloc: Global, shapes: &[Shape], layer: &LayerName) -> Result<Vec<Shape>, AllocError>
    ensures { IfOk result (λ v. v.items ≡ merged_on layer.now shapes.now) }
{
    let rects = rects_on(alloc, shapes, layer)?;
    let merged = merge(alloc, rects.as_slice(), MOST_WORK)?;
    shapes_on(alloc, merged.as_slice(), layer)
}

// Whether a shape is on a layer of wires or of cuts.
fn is_merged(rules: &Rules, shape: &Shape) -> bool
    ensures { result ≡ is_merged rules.now shape.now }
{
    is_on(&rules.horizontal.layer, shape)
        || is_on(&rules.vertical.layer, shape)
        || is_on(&rules.cut.layer, shape)
}

// The shapes that are not merged.
fn others(alloc: Global, rules: &Rules, shapes: &[Shape]) -> Result<Vec<Shape>, AllocError>
    ensures { IfOk result (λ v. v.items ≡ others rules.now shapes.now) }
{
    shapes
        .iter()
        .filter(|shape| !is_merged(rules, shape))
        .copied()
        .collect(alloc)
}

/// The shapes on the layers of wires and of cuts, merged layer by layer, and behind them the others as they are. The one error is want of memory.
#[tactic(auto, unfolding(crate::specs::Areas::merged_shapes))]
pub(crate) fn merged_shapes(
    alloc: Global,
    rules: &Rules,
    shapes: &[Shape],
) -> Result<Vec<Shape>, AllocError>
    ensures { IfOk result (λ v. v.items ≡ merged_shapes rules.now shapes.now) }
{
    let mut merged = merged_on(alloc, shapes, &rules.horizontal.layer)?;
    let vertical = merged_on(alloc, shapes, &rules.vertical.layer)?;
    let cuts = merged_on(alloc, shapes, &rules.cut.layer)?;
    let others = others(alloc, rules, shapes)?;
    merged.extend_from_slice(vertical.as_slice())?;
    merged.extend_from_slice(cuts.as_slice())?;
    merged.extend_from_slice(others.as_slice())?;
    Ok(merged)
}
