//! The shapes that a polygon gives its level: the maximal blocks of its path.

ghost use Rattle.cif_reader.specs.Levels.{cut_in, layered_rects};
ghost use Rattle.cif_reader.specs.Limits.{coordinates_of_corner, coordinates_of_path, long_path};
ghost use Rattle.cif_reader.specs.Refusals.{Answers};
ghost use Rattle.cif_reader.specs.Sides.{AreProper, unless_far};
ghost use Rattle.cif_text.specs.Scales.{doubled_corner, scaled_corners};
ghost use Rattle.cif_text.specs.Sound.{IsClosedPath};
ghost use Rattle.region_cut.specs.Maximal.{maximal};
ghost use Rattle.std.specs.Prelude.{◌≡◌, IfOk, length, map};

use crate::fault::ExpandKind;
use crate::level::Pen;
use crate::limit_passing::near;
use crate::refusal::ExpandStop;
use crate::scales::{Scale, WideCorner};
use crate::wires::{doubled_path, layered_rects};
use geom_core::{Corner, Items, LayerName, Shape};
use limits::MOST_SHAPES;
use region_cut::{CutFault, cut};
use std::alloc::{AllocError, Global};

/// A path at a scale, where the coordinates of all its points are whole.
fn scaled_all(
    alloc: Global,
    scale: Scale,
    path: &[Corner],
) -> Result<Option<Items<WideCorner>>, AllocError>
    ensures { IfOk result (λ corners. corners ≡ scaled_corners scale.a scale.b path.now) }
{
    let mut found = Vec::new(alloc);
    let mut rest = path;
    while let Some((corner, after)) = rest.split_first() {
        let Some(corner) = scale.scaled_corner(*corner) else {
            return Ok(None);
        };
        found.push(corner)?;
        rest = after;
    }
    Ok(Some(Items::new(found)))
}

/// A point, or the first of its coordinates that is too far.
#[tactic(auto, using(std_laws::proofs::Integers::read_back))]
fn near_corner(corner: &WideCorner) -> Result<Corner, i128>
    ensures { result ≡ unless_far (coordinates_of_corner corner.now) corner.now }
{
    let Some(x) = near(corner.x) else {
        return Err(corner.x);
    };
    let Some(y) = near(corner.y) else {
        return Err(corner.y);
    };
    Ok(Corner { x, y })
}

/// A path, or the first of its coordinates that is too far.
fn near_path(
    alloc: Global,
    corners: &[WideCorner],
) -> Result<Result<Items<Corner>, i128>, AllocError>
    ensures { IfOk result (λ path. path ≡ unless_far (coordinates_of_path corners.now) corners.now) }
{
    let mut found = Vec::new(alloc);
    let mut rest = corners;
    while let Some((next, after)) = rest.split_first() {
        let corner = match near_corner(next) {
            Ok(corner) => corner,
            Err(z) => return Ok(Err(z)),
        };
        found.push(corner)?;
        rest = after;
    }
    Ok(Ok(Items::new(found)))
}

/// Whether a polygon has too many points, as they are written.
fn long_path(path: &[Corner]) -> Option<ExpandKind>
    ensures { result ≡ long_path (length path.now) }
{
    if path.len() > 2_000 {
        Some(ExpandKind::LongPath)
    } else {
        None
    }
}

/// The shapes of the maximal blocks of a path on the present layer, of a level that has so many shapes before them.
fn cut_path(
    alloc: Global,
    layer: Option<LayerName>,
    before: usize,
    path: &[Corner],
) -> Result<Items<Shape>, ExpandStop>
    ensures is { Answers (λ shapes. shapes) result (layered_rects layer before (maximal path.now)) }
    ensures proper { IfOk result AreProper }
{
    let most = (MOST_SHAPES as usize).saturating_sub(before);
    match cut(alloc, path, most as u64) {
        Ok(rects) => layered_rects(alloc, layer, before, rects.as_slice()),
        Err(CutFault::TooMany) => Err(ExpandStop::Because(ExpandKind::TooMany)),
        Err(CutFault::Memory) => Err(ExpandStop::Memory),
    }
}

/// The shapes that the corners of a polygon, at a scale, give a level; the polygon may have too many points.
#[tactic(auto, unfolding(crate::specs::Levels::cut_in))]
fn cut_in(
    alloc: Global,
    layer: Option<LayerName>,
    before: usize,
    long: Option<ExpandKind>,
    corners: Option<Items<WideCorner>>,
) -> Result<Items<Shape>, ExpandStop>
    ensures is { Answers (λ shapes. shapes) result (cut_in layer before long corners) }
    ensures proper { IfOk result AreProper }
{
    let Some(corners) = corners else {
        return Err(ExpandStop::Because(ExpandKind::Inexact));
    };
    let path = match near_path(alloc, corners.items())? {
        Ok(path) => path,
        Err(z) => return Err(ExpandStop::Because(ExpandKind::TooFar(z))),
    };
    match long {
        Some(kind) => Err(ExpandStop::Because(kind)),
        None => cut_path(alloc, layer, before, path.items()),
    }
}

/// The shapes that a polygon gives the level that draws so and has so many shapes before it.
pub(crate) fn polygon_shapes(
    alloc: Global,
    pen: &Pen,
    before: usize,
    path: &[Corner],
) -> Result<Items<Shape>, ExpandStop>
    requires { IsClosedPath path.now }
    ensures is { Answers (λ shapes. shapes) result
        (cut_in pen.now.layer before (long_path (length path.now)) (scaled_corners pen.now.scale.a pen.now.scale.b (map doubled_corner path.now))) }
    ensures proper { IfOk result AreProper }
{
    let doubled = doubled_path(alloc, path)?;
    let corners = scaled_all(alloc, pen.scale, doubled.as_slice())?;
    cut_in(alloc, pen.layer, before, long_path(path), corners)
}
