//! What is told of a cut that is not enclosed: the layers that do not enclose it, by how much they do, and what is wanted.

use crate::judged::JudgedLayout;
use crate::lengths::{length_of, microns, shown};
use crate::owners::wire_text;
use crate::shape_nets::ShapeNets;
use crate::told::Told;
use crate::untold::Untold;
use geom_core::{LayerName, Rect, Shape};
use std::alloc::{AllocError, Global};

// By how much a rectangle encloses another: the least of what lies beside it on the four sides, below 0 where it does not hold it.
fn margin(around: &Rect, rect: &Rect) -> i64 {
    let left = rect.x0.saturating_sub(around.x0);
    let low = rect.y0.saturating_sub(around.y0);
    let right = around.x1.saturating_sub(rect.x1);
    let high = around.y1.saturating_sub(rect.y1);
    left.min(low).min(right).min(high)
}

// By how much a shape of a layer encloses a rectangle at most, below 0 where none holds it.
fn most_margin(shapes: &[Shape], layer: &LayerName, rect: &Rect) -> i64 {
    let mut most = -1;
    for shape in shapes {
        let beside = margin(&shape.rect, rect);
        if beside > most && shape.layer.text() == layer.text() {
            most = beside;
        }
    }
    most
}

// The words for a layer that encloses a cut by so much at most, where it should by more; none where it does.
fn layer_words(
    alloc: Global,
    layer: &LayerName,
    margin: i64,
    wanted: i64,
) -> Result<String, AllocError> {
    if margin >= wanted {
        return Ok(String::new(alloc));
    }
    let layer = shown(alloc, layer.text())?;
    let wanted = microns(alloc, wanted)?;
    if margin < 0 {
        return format!(in alloc; "; no {layer} holds it, with {wanted} um on each side wanted");
    }
    let margin = microns(alloc, margin)?;
    format!(in alloc; "; {layer} encloses it by {margin} um, {wanted} wanted")
}

// The words for a layer that does not enclose a cut.
fn bare_words(
    alloc: Global,
    judged: &JudgedLayout<'_>,
    layer: &LayerName,
    rect: &Rect,
) -> Result<String, AllocError> {
    let most = most_margin(judged.layout.shapes.items(), layer, rect);
    let rules = judged.rules;
    let wanted = length_of(rules, rules.cut.enclose);
    layer_words(alloc, layer, most, wanted)
}

/// What is told of a cut that is not enclosed.
pub(crate) fn bare_cut(
    alloc: Global,
    judged: &JudgedLayout<'_>,
    nets: Option<&ShapeNets>,
    i: u32,
) -> Result<Told, Untold> {
    let shape = judged.shape(i)?;
    let place = wire_text(alloc, judged, nets, i)?;
    let rules = judged.rules;
    let horizontal = bare_words(alloc, judged, &rules.horizontal.layer, &shape.rect)?;
    let vertical = bare_words(alloc, judged, &rules.vertical.layer, &shape.rect)?;
    Ok(Told {
        text: format!(in alloc; "{place}{horizontal}{vertical}")?,
        first: Some(i),
        second: None,
    })
}
