//! The shapes by way of which pins are joined.

use crate::judged::JudgedLayout;
use crate::lengths::shape_text;
use crate::shape_nets::ShapeNets;
use crate::untold::Untold;
use geom_core::{Shape, touch};
use std::alloc::Global;

// How many joined shapes are looked through, and how many of a way are told.
const MOST_WALKED: usize = 2_000;

const MOST_NAMED: usize = 6;

// Whether a shape is a wire, and so reaches the cuts that it touches.
fn is_wire(judged: &JudgedLayout<'_>, shape: &Shape) -> bool {
    let rules = judged.rules;
    shape.layer == rules.horizontal.layer || shape.layer == rules.vertical.layer
}

// Whether two joined shapes join each other: they touch, and are of one layer, or one is a wire and the other is none.
fn do_join(judged: &JudgedLayout<'_>, one: u32, other: u32) -> Result<bool, Untold> {
    let one = judged.shape(one)?;
    let other = judged.shape(other)?;
    if one.layer != other.layer && is_wire(judged, one) == is_wire(judged, other) {
        return Ok(false);
    }
    Ok(touch(&one.rect, &other.rect))
}

// For each of these shapes one that a shortest way to it from the first of all comes by, as far as there is one.
fn steps_from(
    alloc: Global,
    judged: &JudgedLayout<'_>,
    members: &[u32],
    first: u32,
) -> Result<Vec<Option<u32>>, Untold> {
    let mut steps = vec![in alloc; None; members.len()]?;
    let mut reached = Vec::new(alloc);
    reached.push(first)?;
    for turn in 0..members.len() {
        let Some(at) = reached.as_slice().get(turn).copied() else {
            break;
        };
        for (member, step) in members.iter().zip(steps.as_mut_slice().iter_mut()) {
            if step.is_none() && *member != first && do_join(judged, at, *member)? {
                *step = Some(at);
                reached.push(*member)?;
            }
        }
    }
    Ok(steps)
}

// The step to a shape.
fn step_to(members: &[u32], steps: &[Option<u32>], shape: u32) -> Option<u32> {
    for (member, step) in members.iter().zip(steps) {
        if *member == shape {
            return *step;
        }
    }
    None
}

// The shapes between two shapes of one number, on a shortest way from the one to the other, the last one first; None where there is no way of shapes that touch, or there are too many shapes.
fn between(
    alloc: Global,
    judged: &JudgedLayout<'_>,
    members: &[u32],
    first: u32,
    last: u32,
) -> Result<Option<Vec<u32>>, Untold> {
    if members.len() > MOST_WALKED {
        return Ok(None);
    }
    let steps = steps_from(alloc, judged, members, first)?;
    let mut way = Vec::new(alloc);
    let mut at = last;
    for _ in 0..members.len() {
        let Some(before) = step_to(members, steps.as_slice(), at) else {
            return Ok(None);
        };
        if before == first {
            return Ok(Some(way));
        }
        way.push(before)?;
        at = before;
    }
    Ok(None)
}

// The words for the shapes of a way, which are given from the last to the first.
fn way_words(alloc: Global, judged: &JudgedLayout<'_>, way: &[u32]) -> Result<String, Untold> {
    if way.is_empty() {
        return Ok(String::from_str(alloc, "; they touch")?);
    }
    let mut text = String::from_str(alloc, "; joined by ")?;
    for (k, shape) in way.iter().rev().take(MOST_NAMED).enumerate() {
        if k > 0 {
            text.push_str(", ")?;
        }
        text.push_str(shape_text(alloc, judged.shape(*shape)?)?.as_str())?;
    }
    let more = way.len().saturating_sub(MOST_NAMED);
    if more > 0 {
        text.push_str(format!(in alloc; " and {more} more")?.as_str())?;
    }
    Ok(text)
}

/// The words for the shapes by way of which two pins are joined, on a shortest way from the one to the other, of which six are told; none where cells lead a part of the way, or
/// more than 2,000 shapes are joined.
pub(crate) fn way_text(
    alloc: Global,
    judged: &JudgedLayout<'_>,
    nets: &ShapeNets,
    p: u32,
    q: u32,
) -> Result<String, Untold> {
    let first = nets.shape_of_pin(p).ok_or(Untold)?;
    let last = nets.shape_of_pin(q).ok_or(Untold)?;
    let members = nets.joined_with(alloc, first)?;
    match between(alloc, judged, members.as_slice(), first, last)? {
        Some(way) => way_words(alloc, judged, way.as_slice()),
        None => Ok(String::new(alloc)),
    }
}
