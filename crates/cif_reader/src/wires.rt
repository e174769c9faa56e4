//! The shapes that a wire gives its level: one for each step of its path.

ghost use Rattle.cif_reader.specs.Levels.{layered_rects, wired};
ghost use Rattle.cif_reader.specs.Limits.{sides_of_all};
ghost use Rattle.cif_reader.specs.Refusals.{Answers};
ghost use Rattle.cif_reader.specs.Sides.{AreProper, unless_far};
ghost use Rattle.cif_text.specs.Printable.{IsNearCorner, IsSize};
ghost use Rattle.cif_text.specs.Scales.{doubled_corner, scaled_extents, wire_around};
ghost use Rattle.cif_text.specs.Sound.{IsPath};
ghost use Rattle.region_cut.specs.Strokes.{IsCornerInReach};
ghost use Rattle.std.specs.List.{AllByRecursion};
ghost use Rattle.std.specs.Prelude.{◌≡◌, IfOk, map};

use crate::fault::ExpandKind;
use crate::level::Pen;
use crate::limit_passing::{many_passed, near_rect};
use crate::refusal::ExpandStop;
use crate::scales::{Scale, WideSides};
use crate::unscaled::Sides;
use geom_core::{Corner, Items, LayerName, Rect, Shape};
use region_cut::strokes;
use std::alloc::{AllocError, Global};

/// A point in half of the unit that its coordinates have.
#[tactic(auto, using(std::proofs::lemmas::Int::ints))]
pub(crate) fn doubled_corner(corner: Corner) -> Corner
    requires { IsNearCorner corner }
    ensures is { result ≡ doubled_corner corner }
    ensures reach { IsCornerInReach result }
{
    Corner {
        x: 2 * corner.x,
        y: 2 * corner.y,
    }
}

/// A path in half of the unit that its coordinates have.
pub(crate) fn doubled_path(alloc: Global, path: &[Corner]) -> Result<Vec<Corner>, AllocError>
    requires { AllByRecursion IsNearCorner path.now }
    ensures is { IfOk result (λ doubled. doubled.items ≡ map doubled_corner path.now) }
    ensures reach { IfOk result (λ doubled. AllByRecursion IsCornerInReach doubled.items) }
{
    let mut doubled = Vec::new(alloc);
    let mut rest = path;
    while let Some((corner, after)) = rest.split_first() {
        doubled.push(doubled_corner(*corner))?;
        rest = after;
    }
    Ok(doubled)
}

/// The rectangles of a wire of this width along this path, in half of the unit of their numbers.
fn wire_around(alloc: Global, width: i64, path: &[Corner]) -> Result<Vec<Rect>, AllocError>
    requires width { IsSize width }
    requires path { IsPath path.now }
    ensures { IfOk result (λ rects. rects.items ≡ wire_around width path.now) }
{
    let path = doubled_path(alloc, path)?;
    strokes(alloc, path.as_slice(), width)
}

#[tactic(auto, using(std_laws::proofs::Integers::read_back))]
fn unscaled(rect: &Rect) -> Sides
    ensures { result ≡ rect.now }
{
    Sides {
        x0: rect.x0,
        y0: rect.y0,
        x1: rect.x1,
        y1: rect.y1,
    }
}

/// Rectangles at a scale, where the sides of all are whole.
fn scaled_all(
    alloc: Global,
    scale: Scale,
    rects: &[Rect],
) -> Result<Option<Items<WideSides>>, AllocError>
    ensures { IfOk result (λ sides. sides ≡ scaled_extents scale.a scale.b rects.now) }
{
    let mut found = Vec::new(alloc);
    let mut rest = rects;
    while let Some((rect, after)) = rest.split_first() {
        let Some(sides) = scale.scaled_sides(unscaled(rect)) else {
            return Ok(None);
        };
        found.push(sides)?;
        rest = after;
    }
    Ok(Some(Items::new(found)))
}

/// Rectangles, or the first of their sides that is too far.
fn near_rects(alloc: Global, sides: &[WideSides]) -> Result<Result<Items<Rect>, i128>, AllocError>
    ensures { IfOk result (λ rects. rects ≡ unless_far (sides_of_all sides.now) sides.now) }
{
    let mut found = Vec::new(alloc);
    let mut rest = sides;
    while let Some((next, after)) = rest.split_first() {
        let rect = match near_rect(next) {
            Ok(rect) => rect,
            Err(z) => return Ok(Err(z)),
        };
        found.push(rect)?;
        rest = after;
    }
    Ok(Ok(Items::new(found)))
}

/// The shapes of rectangles on a layer.
fn shapes_on(alloc: Global, layer: LayerName, rects: &[Rect]) -> Result<Items<Shape>, AllocError>
    ensures is { IfOk result (λ shapes. shapes ≡ map (λ rect. record { layer = layer; rect = rect }) rects.now) }
    ensures proper { IfOk result AreProper }
{
    let mut shapes = Vec::new(alloc);
    let mut rest = rects;
    while let Some((rect, after)) = rest.split_first() {
        // The bounds of a type are known once a field is read.
        let _left = rect.x0;
        shapes.push(Shape { layer, rect: *rect })?;
        rest = after;
    }
    Ok(Items::new(shapes))
}

/// The shapes of rectangles on the present layer, of a level that has so many shapes before them.
pub(crate) fn layered_rects(
    alloc: Global,
    layer: Option<LayerName>,
    before: usize,
    rects: &[Rect],
) -> Result<Items<Shape>, ExpandStop>
    ensures is { Answers (λ shapes. shapes) result (layered_rects layer before rects.now) }
    ensures proper { IfOk result AreProper }
{
    if let Some(kind) = many_passed(before, rects.len()) {
        return Err(ExpandStop::Because(kind));
    }
    match layer {
        Some(layer) => Ok(shapes_on(alloc, layer, rects)?),
        None => Err(ExpandStop::Because(ExpandKind::NoLayer)),
    }
}

/// The shapes that rectangles, at a scale and in the unit of their numbers, give a level.
#[tactic(auto, unfolding(crate::specs::Levels::wired))]
fn wired(
    alloc: Global,
    layer: Option<LayerName>,
    before: usize,
    sides: Option<Items<WideSides>>,
) -> Result<Items<Shape>, ExpandStop>
    ensures is { Answers (λ shapes. shapes) result (wired layer before sides) }
    ensures proper { IfOk result AreProper }
{
    let Some(sides) = sides else {
        return Err(ExpandStop::Because(ExpandKind::Inexact));
    };
    match near_rects(alloc, sides.items())? {
        Ok(rects) => layered_rects(alloc, layer, before, rects.items()),
        Err(z) => Err(ExpandStop::Because(ExpandKind::TooFar(z))),
    }
}

/// The shapes that a wire gives the level that draws so and has so many shapes before it.
pub(crate) fn wire_shapes(
    alloc: Global,
    pen: &Pen,
    before: usize,
    width: i64,
    path: &[Corner],
) -> Result<Items<Shape>, ExpandStop>
    requires width { IsSize width }
    requires path { IsPath path.now }
    ensures is { Answers (λ shapes. shapes) result
        (wired pen.now.layer before (scaled_extents pen.now.scale.a pen.now.scale.b (wire_around width path.now))) }
    ensures proper { IfOk result AreProper }
{
    let rects = wire_around(alloc, width, path)?;
    let sides = scaled_all(alloc, pen.scale, rects.as_slice())?;
    wired(alloc, pen.layer, before, sides)
}
