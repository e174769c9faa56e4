//! What is told of outlines that overlap or are out of row, of narrow shapes, and of shapes that are too close.

use crate::judged::JudgedLayout;
use crate::lengths::{length_of, microns};
use crate::owners::{outline_text, wire_text};
use crate::shape_nets::ShapeNets;
use crate::told::Told;
use crate::untold::Untold;
use geom_core::{Rect, Shape};
use std::alloc::{AllocError, Global};
use tech_rules::Rules;

// How far two stretches share points: above 0 where they do.
fn shared(low: i64, high: i64, other_low: i64, other_high: i64) -> i64 {
    high.min(other_high).saturating_sub(low.max(other_low))
}

// How far two rectangles share points in x and in y.
fn shares(one: &Rect, other: &Rect) -> (i64, i64) {
    (
        shared(one.x0, one.x1, other.x0, other.x1),
        shared(one.y0, one.y1, other.y0, other.y1),
    )
}

// How far two numbers lie apart.
fn apart(one: i64, other: i64) -> i64 {
    one.max(other).saturating_sub(one.min(other))
}

/// What is told of two outlines that overlap: how much they share.
pub(crate) fn overlapping(
    alloc: Global,
    judged: &JudgedLayout<'_>,
    i: u32,
    j: u32,
) -> Result<Told, Untold> {
    let one = outline_text(alloc, judged, i)?;
    let other = outline_text(alloc, judged, j)?;
    let (across, up) = shares(&judged.shape(i)?.rect, &judged.shape(j)?.rect);
    let across = microns(alloc, across)?;
    let up = microns(alloc, up)?;
    Ok(Told {
        text: format!(in alloc; "{one} and {other} share {across} by {up} um")?,
        first: Some(i),
        second: Some(j),
    })
}

/// What is told of two outlines that are out of row: how far their lower edges are apart, and how much height they share.
pub(crate) fn out_of_row(
    alloc: Global,
    judged: &JudgedLayout<'_>,
    i: u32,
    j: u32,
) -> Result<Told, Untold> {
    let one = outline_text(alloc, judged, i)?;
    let other = outline_text(alloc, judged, j)?;
    let rect = &judged.shape(i)?.rect;
    let other_rect = &judged.shape(j)?.rect;
    let edges = microns(alloc, apart(rect.y0, other_rect.y0))?;
    let up = microns(alloc, shares(rect, other_rect).1)?;
    Ok(Told {
        text: format!(in alloc;
            "{one} and {other} have lower edges {edges} um apart, and share {up} um of height"
        )?,
        first: Some(i),
        second: Some(j),
    })
}

// The words for the sizes that a layer's shapes are to have.
fn size_words(alloc: Global, rules: &Rules, shape: &Shape) -> Result<String, AllocError> {
    let layer = shape.layer.text();
    if layer == rules.cut.layer.text() {
        let size = microns(alloc, length_of(rules, rules.cut.size))?;
        return format!(in alloc; "a square of {size} wanted");
    }
    let width = if layer == rules.horizontal.layer.text() {
        rules.horizontal.width
    } else {
        rules.vertical.width
    };
    let width = microns(alloc, length_of(rules, width))?;
    format!(in alloc; "{width} each way wanted")
}

/// What is told of a narrow wire, or of a cut of another size: its sides, and what is wanted.
pub(crate) fn narrow(
    alloc: Global,
    judged: &JudgedLayout<'_>,
    nets: Option<&ShapeNets>,
    i: u32,
) -> Result<Told, Untold> {
    let shape = judged.shape(i)?;
    let place = wire_text(alloc, judged, nets, i)?;
    let across = microns(alloc, apart(shape.rect.x0, shape.rect.x1))?;
    let up = microns(alloc, apart(shape.rect.y0, shape.rect.y1))?;
    let wanted = size_words(alloc, judged.rules, shape)?;
    Ok(Told {
        text: format!(in alloc; "{place} is {across} by {up} um, {wanted}")?,
        first: Some(i),
        second: None,
    })
}

// The space that shapes of a layer keep, in units.
fn space_of(rules: &Rules, shape: &Shape) -> u32 {
    let layer = shape.layer.text();
    if layer == rules.cut.layer.text() {
        rules.cut.space
    } else if layer == rules.horizontal.layer.text() {
        rules.horizontal.space
    } else {
        rules.vertical.space
    }
}

// The words for the gap between two shapes: the greater of the gaps in x and in y.
fn gap_words(alloc: Global, one: &Rect, other: &Rect) -> Result<String, AllocError> {
    let (across, up) = shares(one, other);
    let gap = across.min(up).saturating_neg();
    if gap <= 0 {
        return String::from_str(alloc, "which meet");
    }
    let gap = microns(alloc, gap)?;
    format!(in alloc; "{gap} um apart")
}

/// What is told of two shapes that are too close: their nets, their gap, and what is wanted.
pub(crate) fn too_close(
    alloc: Global,
    judged: &JudgedLayout<'_>,
    nets: Option<&ShapeNets>,
    i: u32,
    j: u32,
) -> Result<Told, Untold> {
    let shape = judged.shape(i)?;
    let other = judged.shape(j)?;
    let place = wire_text(alloc, judged, nets, i)?;
    let other_place = wire_text(alloc, judged, nets, j)?;
    let gap = gap_words(alloc, &shape.rect, &other.rect)?;
    let space = microns(
        alloc,
        length_of(judged.rules, space_of(judged.rules, shape)),
    )?;
    Ok(Told {
        text: format!(in alloc; "{place} and {other_place}, {gap}, {space} wanted")?,
        first: Some(i),
        second: Some(j),
    })
}
