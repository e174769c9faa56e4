//! Lengths and rectangles in microns, as people write them.

use geom_core::{LayerName, Rect, Shape};
use note_text::push_shown;
use std::alloc::{AllocError, Global};
use tech_rules::Rules;

/// The sides of a rectangle in half centimicrons.
#[derive(Clone, Copy, Debug, PartialEq, Eq)]
pub(crate) struct Sides {
    pub(crate) x0: i64,
    pub(crate) y0: i64,
    pub(crate) x1: i64,
    pub(crate) y1: i64,
}

/// The sides of a rectangle.
pub(crate) fn sides_of(rect: &Rect) -> Sides {
    Sides {
        x0: rect.x0,
        y0: rect.y0,
        x1: rect.x1,
        y1: rect.y1,
    }
}

/// A length of units of the rules in half centimicrons.
pub(crate) fn length_of(rules: &Rules, units: u32) -> i64 {
    i64::from(units)
        .saturating_mul(2)
        .saturating_mul(i64::from(rules.grid.centi))
}

/// Bytes as people are shown them.
pub(crate) fn shown(alloc: Global, bytes: &[u8]) -> Result<String, AllocError> {
    let mut text = String::new(alloc);
    push_shown(&mut text, bytes)?;
    Ok(text)
}

/// A length of half centimicrons in microns, with as few decimals as are exact, and one at least.
pub(crate) fn microns(alloc: Global, length: i64) -> Result<String, AllocError> {
    let sign = if length < 0 { "-" } else { "" };
    let size = length.unsigned_abs();
    let whole = size / 200;
    let thousandths = size % 200 * 5;
    if thousandths % 100 == 0 {
        let tenths = thousandths / 100;
        return format!(in alloc; "{sign}{whole}.{tenths}");
    }
    if thousandths % 10 == 0 {
        let hundredths = thousandths / 10;
        return format!(in alloc; "{sign}{whole}.{hundredths:02}");
    }
    format!(in alloc; "{sign}{whole}.{thousandths:03}")
}

/// A layer with the sides of a rectangle on it, lower left corner and upper right corner.
pub(crate) fn placed(
    alloc: Global,
    layer: &LayerName,
    sides: &Sides,
) -> Result<String, AllocError> {
    let layer = shown(alloc, layer.text())?;
    let x0 = microns(alloc, sides.x0)?;
    let y0 = microns(alloc, sides.y0)?;
    let x1 = microns(alloc, sides.x1)?;
    let y1 = microns(alloc, sides.y1)?;
    format!(in alloc; "{layer} ({x0}, {y0})-({x1}, {y1})")
}

/// A shape: its layer and its rectangle.
pub(crate) fn shape_text(alloc: Global, shape: &Shape) -> Result<String, AllocError> {
    placed(alloc, &shape.layer, &sides_of(&shape.rect))
}
