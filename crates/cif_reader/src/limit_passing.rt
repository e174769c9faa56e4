//! The limits on coordinates and shape counts, and the shape of a box that keeps them.

ghost use Rattle.cif_reader.specs.Expansion.{unless_refused};
ghost use Rattle.cif_reader.specs.Levels.{boxed, layered};
ghost use Rattle.cif_reader.specs.Limits.{coordinates_of, far_or_many, farthest, first_far, more_than_most, most_shapes, sides_of};
ghost use Rattle.cif_reader.specs.Sides.{IsProper, unless_far};
ghost use Rattle.std.specs.Prelude.{◌≡◌, Some, None, nat_abs, nat_lt, if◌then◌else◌, IfOk, IfSome};

use crate::fault::ExpandKind;
use crate::scales::WideSides;
use geom_core::{LayerName, Rect, Shape};
use limits::{FARTHEST, MOST_SHAPES};

fn is_far(z: i128) -> bool
    ensures { result ≡ nat_lt farthest (nat_abs z) }
{
    z.unsigned_abs() > u128::from(FARTHEST)
}

/// The first of four sides that is too far.
pub(crate) fn far_side(sides: &WideSides) -> Option<i128>
    ensures { result ≡ first_far (sides_of sides.now) }
{
    if is_far(sides.x0) {
        Some(sides.x0)
    } else if is_far(sides.y0) {
        Some(sides.y0)
    } else if is_far(sides.x1) {
        Some(sides.x1)
    } else if is_far(sides.y1) {
        Some(sides.y1)
    } else {
        None
    }
}

#[tactic(auto, using(std_laws::proofs::Integers::read_back))]
pub(crate) fn wide(rect: &Rect) -> WideSides
    ensures { result ≡ rect.now }
{
    WideSides {
        x0: i128::from(rect.x0),
        y0: i128::from(rect.y0),
        x1: i128::from(rect.x1),
        y1: i128::from(rect.y1),
    }
}

/// The first coordinate of these shapes that is too far.
pub(crate) fn first_far(shapes: &[Shape]) -> Option<i128>
    ensures { result ≡ first_far (coordinates_of shapes.now) }
{
    let mut rest = shapes;
    while let Some((shape, after)) = rest.split_first() {
        if let Some(z) = far_side(&wide(&shape.rect)) {
            return Some(z);
        }
        rest = after;
    }
    None
}

/// A number as a coordinate, where it is not too far.
#[tactic(auto, using(std::proofs::lemmas::Int::ints))]
pub(crate) fn near(z: i128) -> Option<i64>
    ensures is { result ≡ (if nat_lt farthest (nat_abs z) then None else Some z) }
    ensures same { IfSome result (λ c. c ≡ z) }
{
    if is_far(z) { None } else { Some(z as i64) }
}

/// A rectangle, or its first side that is too far.
#[tactic(auto, using(std_laws::proofs::Integers::read_back))]
pub(crate) fn near_rect(sides: &WideSides) -> Result<Rect, i128>
    ensures is { result ≡ unless_far (sides_of sides.now) sides.now }
    ensures proper { IfOk result IsProper }
{
    let Some(x0) = near(sides.x0) else {
        return Err(sides.x0);
    };
    let Some(y0) = near(sides.y0) else {
        return Err(sides.y0);
    };
    let Some(x1) = near(sides.x1) else {
        return Err(sides.x1);
    };
    let Some(y1) = near(sides.y1) else {
        return Err(sides.y1);
    };
    Ok(Rect { x0, y0, x1, y1 })
}

/// Whether so many shapes more are too many for a level that has so many.
pub(crate) fn many_passed(before: usize, given: usize) -> Option<ExpandKind>
    ensures { result ≡ more_than_most before given }
{
    if before.saturating_add(given) > MOST_SHAPES as usize {
        Some(ExpandKind::TooMany)
    } else {
        None
    }
}

/// The limit that a command passes by what it gives its level, which has so many shapes before it: the first number that is too
/// far, if there is one, or too many shapes.
pub(crate) fn limit_passed(far: Option<i128>, before: usize, given: u32) -> Option<ExpandKind>
    ensures { result ≡ far_or_many far (more_than_most before given) }
{
    match far {
        Some(z) => Some(ExpandKind::TooFar(z)),
        None => many_passed(before, given as usize),
    }
}

fn layered(layer: Option<LayerName>, rect: Rect) -> Result<Shape, ExpandKind>
    ensures { result ≡ layered layer rect }
{
    match layer {
        Some(layer) => Ok(Shape { layer, rect }),
        None => Err(ExpandKind::NoLayer),
    }
}

fn boxed_near(
    layer: Option<LayerName>,
    before: usize,
    sides: &WideSides,
) -> Result<Shape, ExpandKind>
    ensures is { result ≡ unless_refused (far_or_many (first_far (sides_of sides.now)) (more_than_most before 1)) (layered layer sides.now) }
    ensures proper { IfOk result (λ shape. IsProper shape.rect) }
{
    let rect = match near_rect(sides) {
        Ok(rect) => rect,
        Err(z) => return Err(ExpandKind::TooFar(z)),
    };
    match limit_passed(None, before, 1) {
        Some(kind) => Err(kind),
        None => layered(layer, rect),
    }
}

/// The shape that a box gives its level, which has so many shapes before it, and a layer or none.
#[tactic(auto, unfolding(crate::specs::Levels::boxed))]
pub(crate) fn boxed(
    layer: Option<LayerName>,
    before: usize,
    sides: Option<WideSides>,
) -> Result<Shape, ExpandKind>
    ensures is { result ≡ boxed layer before sides }
    ensures proper { IfOk result (λ shape. IsProper shape.rect) }
{
    match sides {
        Some(sides) => boxed_near(layer, before, &sides),
        None => Err(ExpandKind::Inexact),
    }
}
