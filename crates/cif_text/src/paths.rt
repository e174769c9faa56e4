//! The points of a path, and what the bytes of wires and polygons read as.

ghost use Rattle.read_base.specs.Answers.{AnswersAs};
ghost use Rattle.cif_text.specs.Paths.{are_along, corner_of, corners_of, first_corner_of, is_along, polygon_form, polygon_of, wire_form, wire_of};
ghost use Rattle.cif_text.specs.Printable.{IsNearCorner, IsPart};
ghost use Rattle.cif_text.specs.Sound.{FormIsSound};
ghost use Rattle.region_cut.specs.Steps.{closed_steps, steps_from};
ghost use Rattle.std.specs.List.{AllByRecursion};
ghost use Rattle.std.specs.Prelude.{◌≡◌, ◌∷◌, IfOk, Some, length};

use crate::bytes::{after_separators, are_separators};
use crate::command::CifCommand;
use crate::fault::CifKind;
use crate::forms::Form;
use crate::misfit::Misfit;
use crate::numbers::{next_number, number_at, positive_at};
use geom_core::{Corner, Items};
use std::alloc::{AllocError, Global};

/// The point that comes next, and what stands behind it. Takes no memory.
fn corner_at(bytes: &[u8]) -> Result<(Corner, &[u8]), Misfit>
    ensures gives { AnswersAs (λ x. (x.0, x.1.now)) Some result (corner_of bytes.now) }
    ensures near { IfOk result (λ x. IsNearCorner x.0) }
{
    let (x, rest) = next_number(bytes)?;
    let (y, rest) = next_number(rest)?;
    Ok((Corner { x, y }, rest))
}

/// The points up to the end of a command. The one error is want of memory.
fn corners_at(alloc: Global, bytes: &[u8]) -> Result<Result<Items<Corner>, Misfit>, AllocError>
    ensures is { IfOk result (λ path. corners_of (length bytes.now) bytes.now ≡ path) }
    ensures near { IfOk result (λ path. IfOk path (AllByRecursion IsNearCorner)) }
{
    let mut path = Vec::new(alloc);
    let mut rest = bytes;
    while !are_separators(rest) {
        let (corner, after) = match corner_at(rest) {
            Ok(found) => found,
            Err(misfit) => return Ok(Err(misfit)),
        };
        path.push(corner)?;
        rest = after;
    }
    Ok(Ok(Items::new(path)))
}

/// Whether the step from one point to another keeps x or y.
fn is_along(from: Corner, to: Corner) -> bool
    ensures { result ≡ is_along (record { from = from; to = to }) }
{
    from.x == to.x || from.y == to.y
}

/// Whether each step from a point to others, one after the other, keeps x or y.
fn are_along(from: Corner, others: &[Corner]) -> bool
    ensures { result ≡ are_along (steps_from from others.now) }
{
    let mut here = from;
    let mut rest = others;
    while let Some((next, after)) = rest.split_first() {
        if !is_along(here, *next) {
            return false;
        }
        here = *next;
        rest = after;
    }
    true
}

/// The width of a wire.
#[derive(Clone, Copy)]
struct WireWidth {
    value: u64,
    ghost is: { IsPart value },
}

/// A wire along a path.
fn wire_of(width: WireWidth, path: Items<Corner>) -> Form
    requires { AllByRecursion IsNearCorner path }
    ensures is { wire_of width.value path ≡ result }
    ensures sound { FormIsSound result }
{
    let Some((first, others)) = path.items().split_first() else {
        return Err(Misfit::Malformed);
    };
    if !are_along(*first, others) {
        return Ok(Err(CifKind::Turned));
    }
    Ok(Ok(CifCommand::Wire {
        width: width.value as i64,
        path,
    }))
}

/// The form of a wire: its width, and the points of its path. The one error is want of memory.
#[tactic(auto, unfolding(crate::specs::Paths::wire_form))]
pub(crate) fn wire_form(alloc: Global, body: &[u8]) -> Result<Form, AllocError>
    ensures is { IfOk result (λ form. wire_form body.now ≡ form) }
    ensures sound { IfOk result FormIsSound }
{
    let (width, rest) = match positive_at(after_separators(body)) {
        Ok(found) => found,
        Err(misfit) => return Ok(Err(misfit)),
    };
    match corners_at(alloc, rest)? {
        Ok(path) => Ok(wire_of(WireWidth { value: width }, path)),
        Err(misfit) => Ok(Err(misfit)),
    }
}

/// The point that comes first, and what stands behind it. Takes no memory.
fn first_corner_at(bytes: &[u8]) -> Result<(Corner, &[u8]), Misfit>
    ensures gives { AnswersAs (λ x. (x.0, x.1.now)) Some result (first_corner_of bytes.now) }
    ensures near { IfOk result (λ x. IsNearCorner x.0) }
{
    let (x, rest) = number_at(after_separators(bytes))?;
    let (y, rest) = next_number(rest)?;
    Ok((Corner { x, y }, rest))
}

/// Whether each step of a closed path keeps x or y, the one from its last point to its first included.
fn are_closed_along(path: &[Corner]) -> bool
    ensures { result ≡ are_along (closed_steps path.now) }
{
    let Some((first, others)) = path.split_first() else {
        return true;
    };
    match others.split_last() {
        Some((last, _)) => are_along(*first, others) && is_along(*last, *first),
        None => is_along(*first, *first),
    }
}

/// A polygon along a path.
fn polygon_of(path: Items<Corner>) -> Form
    requires { AllByRecursion IsNearCorner path }
    ensures is { polygon_of path ≡ result }
    ensures sound { FormIsSound result }
{
    if path.items().len() < 3 {
        return Err(Misfit::Malformed);
    }
    if !are_closed_along(path.items()) {
        return Ok(Err(CifKind::Turned));
    }
    Ok(Ok(CifCommand::Polygon { path }))
}

/// A point and those behind it. The one error is want of memory.
fn with_first(alloc: Global, first: Corner, others: &[Corner]) -> Result<Items<Corner>, AllocError>
    ensures { IfOk result (λ path. path ≡ first ∷ others.now) }
{
    let mut path = Vec::new(alloc);
    path.push(first)?;
    path.extend_from_slice(others)?;
    Ok(Items::new(path))
}

/// The form of a polygon: the points of its path. The one error is want of memory.
#[tactic(auto, unfolding(crate::specs::Paths::polygon_form))]
pub(crate) fn polygon_form(alloc: Global, body: &[u8]) -> Result<Form, AllocError>
    ensures is { IfOk result (λ form. polygon_form body.now ≡ form) }
    ensures sound { IfOk result FormIsSound }
{
    let (first, rest) = match first_corner_at(body) {
        Ok(found) => found,
        Err(misfit) => return Ok(Err(misfit)),
    };
    match corners_at(alloc, rest)? {
        Ok(others) => Ok(polygon_of(with_first(alloc, first, others.items())?)),
        Err(misfit) => Ok(Err(misfit)),
    }
}
